// The smallest change of one reading that gives another trim class.
#![tactic(auto)]

pub mod changes;
pub mod classes;
pub mod search;
