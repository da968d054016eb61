// The load for the acceptance bench: the text of its records, and how many of them are asked for.
#![tactic(auto)]

pub mod asked;
pub mod blocks;
mod counts;
pub mod records;
mod splitmix;
