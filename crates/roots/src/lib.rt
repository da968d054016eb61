// The floor of a square root, of one word or two.
#![tactic(auto)]

pub mod quick;
pub mod reciprocal_table;
pub mod root_table;
pub mod roots;
