// The decimal text of a double, from its exact value, a figure on a page, and the count of thousandths that a typed decimal means.
#![tactic(auto)]

mod count;
pub mod figures;
pub mod shown;
pub mod typed;
