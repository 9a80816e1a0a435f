//! Batches of stopped handles, and the cut of a queue of them into groups that takes the fewest log blocks, with
//! the prices that show it.
#![tactic(auto)]

mod batch;
mod bounds;
mod fitting;
mod planned;
mod planner;
mod prepared;
mod price_table;

pub use batch::Batch;
pub use fitting::is_batch;
pub use planned::{Answer, Planned};
pub use planner::plan;
pub use prepared::{PrepareFault, Prepared, prepare};
