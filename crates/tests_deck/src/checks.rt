//! What ends a test that fails, and the memory that it takes.

use std::alloc::Global;
use std::process::Abort;
use tests_support::{Bench, Ended, Test, Wrong};

/// A test, by the runtime that it is run with, and its memory.
#[derive(Drop)]
pub struct By<'a, R>(pub &'a R, pub Global);

impl<R: Abort> Test for By<'_, R> {
    fn end(&self, wrong: Wrong) -> Ended {
        panic!(self.0; "{wrong}")
    }
}

impl<R: Abort> Bench for By<'_, R> {
    fn alloc(&self) -> Global {
        self.1
    }
}
