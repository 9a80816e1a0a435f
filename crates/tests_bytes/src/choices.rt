//! The lines that a filter takes of a journal that debugfs wrote, and of journals that have few lines or none.

use crate::checks::By;
use crate::dumped::{SESSION, SESSION_TEXT};
use crate::journals::{
    CLEAN_TEXT, WRAPPED, WRAPPED_TEXT, by_hand, check_told, journal_of, told_of,
};
use jb_dump::{DumpFault, DumpFilter};
use jb_super::{CheckedSuperFault, SuperFault};
use std::alloc::Global;
use tests_support::{Must, Test, check_in};

/// The home block and the number of last transactions that are asked for, and the lines of a text that this takes.
struct Taken(Option<u64>, Option<u64>, &'static [usize]);

/// Choices of lines of SESSION's text: 0 and 1 are the superblock's, and line N + 1 is that of the block at place N.
static OF_SESSION: [Taken; 13] = [
    Taken(Some(3001), None, &[2, 3, 6]),
    Taken(Some(3002), None, &[2, 4, 6, 8, 9]),
    Taken(Some(3003), None, &[8, 10, 15]),
    Taken(Some(3006), None, &[15]),
    Taken(Some(3000), None, &[]),
    Taken(None, Some(0), &[0, 1, 17]),
    Taken(None, Some(1), &[0, 1, 12, 13, 14, 15, 16, 17]),
    Taken(None, Some(2), &[0, 1, 8, 9, 10, 11, 12, 13, 14, 15, 16, 17]),
    Taken(None, Some(4), &EVERY_LINE),
    Taken(None, Some(u64::MAX), &EVERY_LINE),
    Taken(None, None, &EVERY_LINE),
    Taken(Some(3002), Some(2), &[8, 9]),
    Taken(Some(3002), Some(1), &[]),
];

/// Choices of lines of a clean journal's text.
static OF_CLEAN: [Taken; 2] = [Taken(None, Some(0), &[0, 1, 2]), Taken(Some(0), None, &[])];

/// The last transaction of a log that wraps, which is its only one.
static OF_WRAPPED: [Taken; 1] = [Taken(None, Some(1), &[0, 1, 2, 3, 4, 5, 6, 7, 8])];

/// Words that leave a journal without a text, and why.
static REFUSED: [(&str, DumpFault); 2] = [
    ("400:c03b3998 5 2 401", DumpFault::BadRevoke(1)),
    (
        "10:7fffffff 1 2 1",
        DumpFault::Super(CheckedSuperFault::Super(SuperFault::Geometry)),
    ),
];

const EVERY_LINE: [usize; 18] = [0, 1, 2, 3, 4, 5, 6, 7, 8, 9, 10, 11, 12, 13, 14, 15, 16, 17];

/// Those lines of a text, by their numbers from 0 on.
fn lines_of(test: &impl Test, alloc: Global, text: &str, numbers: &[usize]) -> Vec<u8> {
    let mut taken = Vec::new(alloc);
    let mut number = 0usize;
    for byte in text.as_bytes() {
        if numbers.contains(&number) {
            taken.push(*byte).must(test, "memory");
        }
        if *byte == b'\n' {
            number = number.wrapping_add(1);
        }
    }
    taken
}

/// Whether these bytes are those lines of a text.
fn is_lines(
    test: &impl Test,
    alloc: Global,
    written: &[u8],
    text: &str,
    numbers: &[usize],
) -> bool {
    let lines = lines_of(test, alloc, text, numbers);
    *written == *lines.as_slice()
}

/// The filter of a row.
fn choice_of(taken: &Taken) -> DumpFilter {
    DumpFilter {
        home: taken.0,
        last: taken.1,
        superblock: false,
        summary: false,
        drawn: false,
        checksums: false,
    }
}

/// Checks that a filter takes its lines of a journal's text.
fn check_lines(
    test: &impl Test,
    alloc: Global,
    journal: &[u8],
    text: &str,
    taken: &Taken,
    name: &'static str,
    row: u64,
) {
    let (answer, written) = told_of(alloc, journal, choice_of(taken));
    check_in(test, answer.is_ok(), name, "what is answered in row", row);
    let is_wanted = is_lines(test, alloc, &written, text, taken.2);
    check_in(test, is_wanted, name, "what is written in row", row)
}

/// Checks that each filter takes its lines of a journal's text.
fn check_taken(
    test: &impl Test,
    alloc: Global,
    journal: &[u8],
    text: &str,
    choices: &[Taken],
    name: &'static str,
) {
    for (row, taken) in choices.iter().enumerate() {
        check_lines(test, alloc, journal, text, taken, name, row as u64)
    }
}

/// Checks that a filter answers the fault of a journal without a text, and writes nothing.
fn check_fault(
    test: &impl Test,
    alloc: Global,
    journal: &[u8],
    fault: DumpFault,
    filter: DumpFilter,
    row: u64,
) {
    let (answer, written) = told_of(alloc, journal, filter);
    check_told(test, answer, &written, Err(fault), row)
}

/// The same of each filter.
fn check_faults(test: &impl Test, alloc: Global, journal: &[u8], fault: DumpFault) {
    for (row, taken) in OF_SESSION.iter().enumerate() {
        check_fault(test, alloc, journal, fault, choice_of(taken), row as u64)
    }
}

/// The same of the journal that is made by hand with these words.
fn check_refused(test: &impl Test, alloc: Global, words: &str, fault: DumpFault) {
    let journal = by_hand(test, alloc, words);
    check_faults(test, alloc, &journal, fault)
}

/// The same of each journal that is refused.
fn check_all_refused(test: &impl Test, alloc: Global) {
    for (words, fault) in &REFUSED {
        check_refused(test, alloc, words, *fault)
    }
}

/// Checks the choices of lines of the journal that is made by hand with these words.
fn check_by_hand(
    test: &impl Test,
    alloc: Global,
    words: &str,
    text: &str,
    choices: &[Taken],
    name: &'static str,
) {
    let journal = by_hand(test, alloc, words);
    check_taken(test, alloc, &journal, text, choices, name)
}

/// Checks the choices of lines of SESSION.
fn check_session(test: &impl Test, alloc: Global) {
    let session = journal_of(test, alloc, 0x10_0000, SESSION);
    check_taken(test, alloc, &session, SESSION_TEXT, &OF_SESSION, "session")
}

fn check_choices(test: &impl Test, alloc: Global) {
    check_session(test, alloc);
    check_by_hand(test, alloc, "10:21 1 2 0", CLEAN_TEXT, &OF_CLEAN, "clean");
    check_by_hand(test, alloc, WRAPPED, WRAPPED_TEXT, &OF_WRAPPED, "wraps");
    check_all_refused(test, alloc)
}

#[test]
fn lines_that_a_choice_takes(rt: HostRuntime) {
    check_choices(&By(&rt), rt.alloc())
}
