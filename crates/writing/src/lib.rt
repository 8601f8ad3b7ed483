// Writing numbers and plans in bytes.
#![tactic(auto)]

mod numbers;
mod plan;

pub use numbers::{put_column, put16, put32};
pub use plan::write_plan;
