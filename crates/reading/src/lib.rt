// Numbers from bytes, one at a place and a whole column of them.
// Entries are decoded once, into plain arrays of numbers, and worked on in that form.
#![tactic(auto)]

mod numbers;

pub use numbers::{column16, column32, number16, number32};
