// Laying out the jobs of a round in plain arrays.
#![tactic(auto)]

mod laying;

pub use laying::lay_out;
