// The setting sheet: density against temperature on one page.
#![tactic(auto)]

pub mod page;
pub mod row;
