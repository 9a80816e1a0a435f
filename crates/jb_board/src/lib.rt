//! What threads know of each other without a lock: three counts of tickets that only rise, and a history that only
//! grows, which one writer knows whole and others in part.
#![tactic(auto)]

mod board;
mod front;
mod history;
mod history_rule;
mod history_steps;
mod place;
mod rule;
mod steps;
mod tickets;
mod tokens;
mod view;

pub use board::{Board, BoardSeat};
pub use front::Front;
pub use history::{History, NewHistory};
pub use place::Place;
pub use tickets::Tickets;
pub use tokens::{Appender, OwnEntries, Prefix};
