// Small sites of several forms and their marks, drawn from numbers that look random.
#![tactic(auto)]

pub mod forms;
pub mod marks;
mod random;
