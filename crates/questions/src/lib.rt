// The form of the questions: input as lines, a line as words, hex digits and numbers, and what is said of
// arguments that are not of their form.
#![tactic(auto)]

pub mod arguments;
pub mod digits;
pub mod forms;
pub mod line_ends;
pub mod words;
