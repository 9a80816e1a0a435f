//! Reports: what a command says, as facts with names, in lines and in JSON. Both are written from the same fields, and
//! take no memory.
#![tactic(auto)]

mod entries;
mod entry_words;
mod field;
pub mod laws;
mod lines;
mod numbers;
mod object;
mod quoted;
mod report;
mod sparse;

pub use entries::put_entries;
pub use field::Field;
pub use report::{put_json, put_report};
