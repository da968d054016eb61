// The program on more than 256 bytes: four fields, which alone are accepted, and what is no field after them.
#![tactic(auto)]

fn main(rt: HostRuntime) {
    reply::reply(&rt);
}
