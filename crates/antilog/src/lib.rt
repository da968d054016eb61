// 2 to the power of a word and the square root of a double, by whole-number rules.
#![tactic(auto)]

pub mod antilog;
mod estimate;
pub mod near_bits;
pub mod sqrt;
