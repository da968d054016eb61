// The program with the strict reader, on a record whose tags fall.
#![tactic(auto)]

fn main(rt: HostRuntime) {
    reply::reply(&rt);
}
