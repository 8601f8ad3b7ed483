// The second half of the check: whether the prices fit a plan.
#![tactic(auto)]

mod cheapest;
mod pricing;

pub use pricing::price;
