// Reads lines from standard input and answers each.
#![tactic(auto)]

fn main(rt: HostRuntime) {
    ask_run::run(&rt);
}
