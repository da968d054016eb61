// Moist air at a station: density, speed of sound, vapour and the density-matched altitude, each formula
// as double operations in the order of src/atmosphere.rs.
#![tactic(auto)]

pub mod conditions;
pub mod figures;
pub mod matched;
mod moist;
