// The program with an argument that asks for nothing there is.
#![tactic(auto)]

fn main(rt: HostRuntime) {
    reply::reply(&rt);
}
