//! Calls whose memory is refused: each is made with ample inputs, and again with ample memory where it answers that
//! memory ran out. `tests/processes/refuse_memory` runs each row with one allocation of the call refused after the
//! other.
#![tactic(auto)]

mod books;
mod decks;
mod desks;
mod disks;
mod handles;
mod journals;
mod logs;
mod machines;
mod met;
mod rounds;
mod rows;
mod stopping;
mod texts;
mod values;

use crate::met::Met;
use crate::rows::row;
use std::env;
use std::process::ExitCode;

/// The status of a program that ran a row: 0 where the call answered as with ample memory at once, 3 where it did so
/// after memory ran out, 4 where the disk failed for want of memory, and 1 where something was wrong.
fn status_of(found: Option<Met>) -> u8 {
    match found {
        Some(Met::Ample) => 0,
        Some(Met::Memory) => 3,
        Some(Met::Fault) => 4,
        None => 1,
    }
}

fn main(rt: HostRuntime) -> ExitCode {
    match env::args(&rt) {
        Ok(mut words) => match words.nth(1) {
            Some(name) => ExitCode::from(status_of(row(&rt, rt.alloc(), &name))),
            None => ExitCode::from(2),
        },
        Err(_) => ExitCode::from(2),
    }
}
