// The station with a given density altitude.
#![tactic(auto)]

pub mod inverse;
