// Bytes, and the fields of a mast record in them.
#![tactic(auto)]

pub mod bits;
pub mod fields;
pub mod reader;
