//! Writers that take little at a time, or fail.

use crate::checks::By;
use crate::journals::{REVOKE_AND_COPY_TEXT, by_hand, front};
use crate::readers::Calls;
use jb_dump::{DumpFault, dump};
use std::alloc::Global;
use std::io::{self, Error, ErrorKind, Write};
use tests_support::{Test, check, check_at};

/// A writer that takes no more than this many bytes a call, and fails at one of its calls. A flush is a call too.
#[derive(Drop)]
struct Halting {
    taken: Vec<u8>,
    most: usize,
    calls: Calls,
}

impl Write for Halting {
    fn write(&mut self, buf: &[u8]) -> io::Result<usize> {
        self.calls.next()?;
        let len = buf.len().min(self.most);
        match self.taken.extend_from_slice(&buf[..len]) {
            Ok(()) => Ok(len),
            Err(_) => Err(Error::from(ErrorKind::OutOfMemory)),
        }
    }

    fn flush(&mut self) -> io::Result<()> {
        self.calls.next()
    }
}

/// Checks a dump to a writer that takes this many bytes a call, and fails after this many calls of the `writes` that
/// the text takes and of the flush.
fn check_halting(
    test: &impl Test,
    alloc: Global,
    journal: &[u8],
    most: usize,
    calls: usize,
    writes: usize,
) {
    let mut halting = Halting {
        taken: Vec::new(alloc),
        most,
        calls: Calls(Some(calls)),
    };
    let mut rest = journal;
    let answer = dump(alloc, &mut rest, &mut halting);
    let wanted = if calls <= writes {
        Err(DumpFault::WriteFault)
    } else {
        Ok(())
    };
    check_at(test, answer == wanted, "what fails after", calls as u64);
    let text = front(REVOKE_AND_COPY_TEXT.as_bytes(), calls.saturating_mul(most));
    let is_text = halting.taken.as_slice() == text;
    check_at(test, is_text, "what is taken after", calls as u64)
}

/// Checks a writer that is full after 22 bytes.
fn check_full(test: &impl Test, alloc: Global) {
    let journal = by_hand(test, alloc, "");
    let mut held = [0; 22];
    let (mut rest, mut room) = (journal.as_slice(), held.as_mut_slice());
    let answer = dump(alloc, &mut rest, &mut room);
    check(test, answer == Err(DumpFault::WriteFault), "the answer");
    let is_full = held == *b"super bs=1024 maxlen=3";
    check(test, is_full, "what is written")
}

/// Checks writers that fail at each call, and one that is full.
fn check_writers(test: &impl Test, alloc: Global) {
    let journal = by_hand(test, alloc, "");
    for most in [1, 50, 1000] {
        let writes = REVOKE_AND_COPY_TEXT.len().div_ceil(most);
        for calls in 0..writes.saturating_add(2) {
            check_halting(test, alloc, &journal, most, calls, writes)
        }
    }
    check_full(test, alloc)
}

#[test]
fn writers_that_fail_or_are_full(rt: HostRuntime) {
    check_writers(&By(&rt), rt.alloc())
}
