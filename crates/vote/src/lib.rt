// Three masts, one reading: the vote of three records and its answer.
#![tactic(auto)]

pub mod answer;
mod by_field;
pub mod masts;
