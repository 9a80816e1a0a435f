//! Texts: read from readers and written to writers, the whole text or its beginning; and their parts, which are
//! lines, words and decimal numbers.
#![tactic(auto)]

mod parts;
mod putting;
mod reading;
mod text;

pub use parts::put_parts;
pub use putting::{WriteFault, put};
pub use reading::{ReadFault, read_front, read_within};
pub use text::{next_line, next_word, number, part};
