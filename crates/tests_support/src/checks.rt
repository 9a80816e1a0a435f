//! What ends a test that fails, and says what is wrong.
ghost use Rattle.std.specs.Prelude.{◌≡◌, true, OnOk, OnSome};

use std::alloc::Global;
use std::fmt::{self, Display, Formatter, Write};

/// What nothing returns: a test that has failed has ended.
pub enum Ended {}

/// What is wrong, in which row of a table, and which one of these.
#[derive(Clone, Copy)]
pub struct Wrong {
    pub row: Option<&'static str>,
    pub what: &'static str,
    pub at: Option<u64>,
}

impl Wrong {
    /// What is wrong, where no row and no number tells more.
    fn of(what: &'static str) -> Wrong {
        Wrong {
            row: None,
            what,
            at: None,
        }
    }
}

impl Display for Wrong {
    fn fmt<W: Write>(&self, f: &mut Formatter<W>) -> fmt::Result {
        if let Some(row) = self.row {
            write!(f, "{row}: ")?;
        }
        write!(f, "{}", self.what)?;
        match self.at {
            Some(at) => write!(f, " {at}"),
            None => Ok(()),
        }
    }
}

/// A test, by what ends it.
pub trait Test {
    /// Ends the test, and says what is wrong.
    fn end(&self, wrong: Wrong) -> Ended;
}

/// A test that takes memory.
pub trait Bench: Test {
    /// The memory that it takes.
    fn alloc(&self) -> Global;
}

/// Fails the test, and says why.
pub fn fail<T>(test: &impl Test, what: &'static str) -> T {
    match test.end(Wrong::of(what)) {}
}

/// Fails the test where this is not so, and says what is wrong.
pub fn check(test: &impl Test, is_so: bool, what: &'static str)
    ensures { is_so ≡ true }
{
    if !is_so {
        match test.end(Wrong::of(what)) {}
    }
}

/// The same, and says which one of these is wrong.
pub fn check_at(test: &impl Test, is_so: bool, what: &'static str, at: u64)
    ensures { is_so ≡ true }
{
    if !is_so {
        let wrong = Wrong {
            row: None,
            what,
            at: Some(at),
        };
        match test.end(wrong) {}
    }
}

/// The same, and says in which row of a table.
pub fn check_in(test: &impl Test, is_so: bool, row: &'static str, what: &'static str, at: u64)
    ensures { is_so ≡ true }
{
    if !is_so {
        let wrong = Wrong {
            row: Some(row),
            what,
            at: Some(at),
        };
        match test.end(wrong) {}
    }
}

/// The same, where the row says enough.
pub fn check_row(test: &impl Test, is_so: bool, row: &'static str, what: &'static str)
    ensures { is_so ≡ true }
{
    if !is_so {
        let wrong = Wrong {
            row: Some(row),
            what,
            at: None,
        };
        match test.end(wrong) {}
    }
}

/// Fails the test where there is such a place, which is wrong in this row of a table.
pub fn check_none(test: &impl Test, row: &'static str, what: &'static str, place: Option<u64>) {
    check_in(test, place.is_none(), row, what, place.unwrap_or(0))
}

/// A value that a test has to get.
pub trait Must {
    type Value;

    /// The value. Fails the test where there is none, and says what is missing.
    fn must(self, test: &impl Test, what: &'static str) -> Self::Value;
}

impl<T> Must for Option<T> {
    type Value = T;

    fn must(self, test: &impl Test, what: &'static str) -> T
        ensures { self ≡ Some result }
    {
        match self {
            Some(value) => value,
            None => match test.end(Wrong::of(what)) {},
        }
    }
}

impl<T, E: Drop> Must for Result<T, E> {
    type Value = T;

    fn must(self, test: &impl Test, what: &'static str) -> T
        ensures { self ≡ Ok result }
    {
        match self {
            Ok(value) => value,
            Err(_) => match test.end(Wrong::of(what)) {},
        }
    }
}
