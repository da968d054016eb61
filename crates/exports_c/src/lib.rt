// The functions of the air for C to call: those of `exports`, each under its name, with the same clauses.
// `include/station_air_rules.h` is the header of `rules`, and `include/station_air.h` that of the other
// modules.
#![tactic(auto)]

pub mod functions;
pub mod loads;
pub mod reads;
pub mod records;
pub mod rules;
pub mod sheets;
pub mod stations;
pub mod texts;
pub mod trims;
pub mod votes;
