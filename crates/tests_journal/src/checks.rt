//! What the tests need of their runtime, what ends one that fails, and the memory that it takes.

use std::alloc::Global;
use std::fs::File;
use std::process::Abort;
use std::rt::Files;
use std::sync::Wait;
use std::thread::Threads;
use std::time::Clock;
use tests_support::{Bench, Ended, Test, Wrong};

/// What a journal that is run needs of its runtime: memory, threads, and a clock; and what a test needs to fail.
///
/// A test calls one function, which takes any such runtime: of the runtime of a test, each call proves anew that it has
/// all of these.
pub trait Host: AllocGlobal + Threads + Wait + Clock + Sync + Abort {}

impl<R: AllocGlobal + Threads + Wait + Clock + Sync + Abort> Host for R {}

/// What an image in a file needs: files and memory.
pub trait FileHost: Files<File = File> + AllocGlobal + Abort {}

impl<R: Files<File = File> + AllocGlobal + Abort> FileHost for R {}

/// What a journal that is run in a file needs: both.
pub trait ImageHost: Files<File = File> + AllocGlobal + Threads + Wait + Clock + Sync + Abort {}

impl<R: Files<File = File> + AllocGlobal + Threads + Wait + Clock + Sync + Abort> ImageHost for R {}

/// A test, by the runtime that it is run with, and its memory.
#[derive(Drop)]
pub struct By<'a, R>(pub &'a R, pub Global);

impl<R: Abort> Test for By<'_, R> {
    fn end(&self, wrong: Wrong) -> Ended {
        panic!(self.0; "{wrong}")
    }
}

impl<R: Abort> Bench for By<'_, R> {
    fn alloc(&self) -> Global {
        self.1
    }
}
