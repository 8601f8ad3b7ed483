// The listing of a site as text.
#![tactic(auto)]

mod listing;
mod plan;

pub use listing::write_listing;

// Room for the longest listing.
pub const TEXT_ROOM: usize = 1_048_576;
