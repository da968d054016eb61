// Reads one mast record from standard input and writes its figures or its refusal.
#![tactic(auto)]

fn main(rt: HostRuntime) {
    reply::reply(&rt);
}
