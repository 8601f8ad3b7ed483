// The lines of a listing as text.
#![tactic(auto)]

mod lines;
mod writer;

pub use lines::{put_energy, put_overfull, put_refused, put_sizes, put_span, put_step};
