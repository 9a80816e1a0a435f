//! What ends a test that fails.

use std::process::Abort;
use tests_support::{Ended, Test, Wrong};

/// A test, by the runtime that it is run with.
#[derive(Drop)]
pub struct By<'a, R>(pub &'a R);

impl<R: Abort> Test for By<'_, R> {
    fn end(&self, wrong: Wrong) -> Ended {
        panic!(self.0; "{wrong}")
    }
}
