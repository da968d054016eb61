// Prints the air of a park, or its setting sheet, for the readings that its words give.
#![tactic(auto)]

fn main(rt: HostRuntime) {
    park_reply::reply(&rt);
}
