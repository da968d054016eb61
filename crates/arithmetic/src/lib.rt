// Doubles as numbers: the shapes that the definitions and laws of this crate speak of. What computes with
// them is `rounding` and above.
#![tactic(auto)]

pub mod double;
pub mod doubles;
pub mod middle;
pub mod nearest;
pub mod wide;
pub mod word;
