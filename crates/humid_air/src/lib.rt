// Humid air: figures of src/atmosphere.rs, each formula as double operations in the source's order.
#![tactic(auto)]

pub mod humid;
pub mod mixture;
pub mod saturation;
