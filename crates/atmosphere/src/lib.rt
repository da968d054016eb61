// The standard atmosphere, and a station's pressure and temperature: figures of src/atmosphere.rs, each
// formula as double operations in the source's order.
#![tactic(auto)]

pub mod altitudes;
pub mod given;
pub mod layers;
pub mod plausibility;
pub mod resolvers;
