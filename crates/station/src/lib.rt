// The figures of a station, and what is shown of it.
#![tactic(auto)]

pub mod figures;
pub mod resolved;
