//! What the tests need of their runtime, what ends one that fails, and the memory that it takes.

use std::alloc::Global;
use std::fs::File;
use std::process::Abort;
use std::rt::Files;
use tests_support::{Bench, Ended, Test, Wrong};

/// What an image in a file needs: files and memory; and what a test needs to fail.
pub trait FileHost: Files<File = File> + AllocGlobal + Abort {}

impl<R: Files<File = File> + AllocGlobal + Abort> FileHost for R {}

/// A test, by the runtime that it is run with, and its memory.
#[derive(Drop)]
pub struct By<'a, R>(pub &'a R, pub Global);

impl<R: Abort> Test for By<'_, R> {
    fn end(&self, wrong: Wrong) -> Ended {
        panic!(self.0; "{wrong}")
    }
}

impl<R: Abort> Bench for By<'_, R> {
    fn alloc(&self) -> Global {
        self.1
    }
}
