//! What a handle leaves: the last word on each home block that it touched.
#![tactic(auto)]

mod changes;
mod handle;
mod joined;
pub mod laws;
mod op;
mod payload;
mod shape;
mod size;
mod stopped;
mod word;
mod words;
mod words_builder;

pub use changes::{Changes, TouchFault};
pub use handle::Handle;
pub use op::Op;
pub use payload::Payload;
pub use shape::Shape;
pub use size::is_within_size;
pub use stopped::{Stopped, Ticket};
pub use word::Word;
pub use words::Words;
pub use words_builder::WordsBuilder;
