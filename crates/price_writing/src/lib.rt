// Writing price lists in bytes.
#![tactic(auto)]

mod prices;

pub use prices::write_prices;
