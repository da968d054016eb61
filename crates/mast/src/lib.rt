// The judge of a mast's readings: a fixed order of checks, and the figures or one refusal.
#![tactic(auto)]

pub mod checks;
pub mod judge;
