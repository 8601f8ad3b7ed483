// Checking a plan: whether it fits, and with its price list whether it is least.
#![tactic(auto)]

mod checking;
mod first_half;

pub use checking::{check, check_cells};
pub use first_half::fits;
