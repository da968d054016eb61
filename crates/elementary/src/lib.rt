// The log word, power, exp and ln of a double by whole-number rules, so that every answer has one fixed
// bit pattern.
#![tactic(auto)]

pub mod exp;
mod guess;
pub mod ln;
pub mod log;
mod multiples;
pub mod power;
