// Planning: jobs are placed band after band, at least price.
#![tactic(auto)]

mod moving;
mod placement;
mod rooms;

pub use placement::place;
