//! How many log blocks handles take as one group.
#![tactic(auto)]

mod best_start;
mod credits;
mod filled;
mod footprint;
mod geometry;
mod group;
mod group_size;
mod group_start;
mod join;
mod last_touches;
mod last_words;
mod new_homes;
mod owned;
mod shortcuts;
mod span;
mod stretch;
mod take_over;

pub use credits::{most_credits, worst_cost};
pub use footprint::Footprint;
pub use geometry::Geometry;
pub use group::group_cost;
pub use group_start::GroupStart;
pub use last_touches::LastTouches;
