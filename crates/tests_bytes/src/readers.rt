//! Readers that stop early, give little at a time, or fail.

use crate::checks::By;
use crate::journals::{
    BLOCKS, REVOKE_AND_COPY_TEXT, WRAPPED, WRAPPED_TEXT, by_hand, check_dump, front,
};
use jb_dump::{DumpFault, dump};
use jb_super::{CheckedSuperFault, SuperFault};
use std::alloc::Global;
use std::io::{self, Error, ErrorKind, Read};
use tests_support::{Must, Test, check_at};

/// Checks journals that end after each of their blocks, and within the superblock.
fn check_cut(test: &impl Test, alloc: Global) {
    let journal = by_hand(test, alloc, "");
    for step in 0..BLOCKS + 1 {
        let len = if step < BLOCKS { step * 1024 } else { 1023 };
        let fault = if len < 1024 {
            SuperFault::ShortBlock
        } else {
            SuperFault::Geometry
        };
        let wanted = Err(DumpFault::Super(CheckedSuperFault::Super(fault)));
        check_dump(test, alloc, front(&journal, len), wanted, step as u64)
    }
}

/// This many calls, after which one fails, though not the next.
#[derive(Clone, Copy)]
pub struct Calls(pub Option<usize>);

impl Calls {
    /// One call of them.
    pub fn next(&mut self) -> io::Result<()> {
        match self.0 {
            Some(0) => {
                self.0 = None;
                return Err(Error::from(ErrorKind::Interrupted));
            }
            Some(calls) => self.0 = Some(calls - 1),
            None => {}
        }
        Ok(())
    }
}

/// A reader that gives no more than this many bytes a call, and fails at one of its calls.
#[derive(Drop)]
struct Halting<'a> {
    rest: &'a [u8],
    most: usize,
    calls: Calls,
}

impl<'a> Read for Halting<'a> {
    fn read(&mut self, buf: &mut [u8]) -> io::Result<usize> {
        self.calls.next()?;
        let len = buf.len().min(self.most);
        self.rest.read(&mut buf[..len])
    }
}

/// The words of journals made by hand, their texts, and how many calls of 700 bytes they take: the superblock two, and
/// the 32 blocks after it 47 where they are one run, or 43 and 5 where the log begins at the thirtieth of them.
static READ: [(&str, &str, usize); 2] = [
    ("", REVOKE_AND_COPY_TEXT, 2 + 47),
    (WRAPPED, WRAPPED_TEXT, 2 + 43 + 5),
];

/// Checks a dump of a journal and one byte after it, which stays unread, from a reader of this many bytes a call: it
/// gives the text, unless one of the calls fails that the journal takes, this many of them.
fn check_halting(
    test: &impl Test,
    alloc: Global,
    journal: &[u8],
    wanted: &str,
    calls: usize,
    most: usize,
    fails_after: Option<usize>,
) {
    let step = fails_after.unwrap_or(0) as u64;
    let mut halting = Halting {
        rest: journal,
        most,
        calls: Calls(fails_after),
    };
    let mut text = Vec::new(alloc);
    let answer = dump(alloc, &mut halting, &mut text);
    if fails_after.is_some_and(|after| after < calls) {
        let is_fault = answer == Err(DumpFault::ReadFault);
        check_at(test, is_fault, "what fails after", step);
        check_at(test, text.is_empty(), "what is written before", step)
    } else {
        check_at(test, answer.is_ok(), "what a reader answers after", step);
        let is_text = text.as_slice() == wanted.as_bytes();
        check_at(test, is_text, "what is written after", step);
        let is_left = halting.rest == [77].as_slice();
        check_at(test, is_left, "what is left after", step)
    }
}

/// Checks readers that give 700 bytes a call and fail at each of their calls in turn, one that gives a byte at a time
/// and never fails, and ones that stop early.
fn check_readers(test: &impl Test, alloc: Global) {
    check_cut(test, alloc);
    for (words, wanted, calls) in &READ {
        check_calls(test, alloc, words, wanted, *calls)
    }
}

/// The same of one journal, but for those that stop early.
fn check_calls(test: &impl Test, alloc: Global, words: &str, wanted: &str, calls: usize) {
    let mut journal = by_hand(test, alloc, words);
    journal.push(77).must(test, "memory");
    for step in 0..calls.saturating_add(2) {
        check_halting(test, alloc, &journal, wanted, calls, 700, Some(step))
    }
    check_halting(test, alloc, &journal, wanted, calls, 1, None)
}

#[test]
fn readers_that_fail_stop_early_or_give_little(rt: HostRuntime) {
    check_readers(&By(&rt), rt.alloc())
}
