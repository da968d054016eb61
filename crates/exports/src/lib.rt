// The functions of the air that `exports_c` exports for C. `include/station_air_rules.h` is the header of `rules`,
// and `include/station_air.h` that of the other modules.
#![tactic(auto)]

pub mod functions;
mod lent;
pub mod loads;
pub mod reads;
pub mod records;
pub mod rules;
pub mod sheets;
pub mod stations;
pub mod texts;
pub mod trims;
pub mod votes;
