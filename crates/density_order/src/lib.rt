// What engineers may rely on between stations with given density altitudes, and between temperatures at one.
#![tactic(auto)]

pub mod order;
pub mod warmth;
