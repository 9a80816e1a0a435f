//! The text of a queue of handles: what it says, and its first fault.
#![tactic(auto)]

mod digits;
mod fault;
pub mod laws;
mod op_text;
mod queue_lines;
mod queue_text;

pub use fault::{Cause, QueueFault};
pub use queue_lines::{HandleReader, QueueLines};
pub use queue_text::{QueueText, read_lines, read_queue};
