// The mast record: the readings that its fields give.
#![tactic(auto)]

pub mod entries;
pub mod readings;
