//! A machine of handles, stops, takes and crashes, over which every interleaving is a list of events.
#![tactic(auto)]

mod event;
pub mod laws;
mod least;
mod running;
mod state;
mod stops;
mod sums;

pub use event::{CoreFault, Event, Reply};
pub use running::{run, step};
pub use state::State;
