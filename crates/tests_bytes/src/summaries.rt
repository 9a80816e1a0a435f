//! Journals at a glance: clean ones, empty logs, one transaction and several, logs that wrap, and dates.

use crate::checks::By;
use crate::dumped::SESSION;
use crate::journals::{Case, WRAPPED, by_hand, check_told, journal_of, told_of};
use jb_dump::{DumpFault, DumpFilter};
use jb_super::{CheckedSuperFault, SuperFault};
use std::alloc::Global;
use tests_support::{Must, Test, check, check_at, put_text};

/// What is asked for: the journal at a glance.
const GLANCE: DumpFilter = DumpFilter {
    home: None,
    last: None,
    superblock: false,
    summary: true,
    drawn: false,
    checksums: false,
};

/// The same, and drawn.
const DRAWN: DumpFilter = DumpFilter {
    home: None,
    last: None,
    superblock: false,
    summary: true,
    drawn: true,
    checksums: false,
};

const CLEAN: &str = "log transactions=0 used=0 usable=32 free=32
clean next=3
";

const EMPTY: &str = "log transactions=0 used=0 usable=32 free=32
ends tail=1 head=1
";

const WRAPS: &str = "log transactions=1 used=6 usable=32 free=26
ends tail=30 head=4
blocks least=6 mean=6 most=6
copies total=4 homes=4
home number=5 copies=1
home number=6 copies=1
home number=7 copies=1
home number=8 copies=1
revokes total=0
commits first=1970-01-01T00:00:00Z last=1970-01-01T00:00:00Z
";

/// A transaction with copies of eleven home blocks, of one of them twice.
const ELEVEN: &str = "400:c03b3998 1 2 5 0 424:6 2 7 2 8 2 9 2 a 2 b 2 c 2 d 2 e 2 f 2 5 a
3800:c03b3998 2 2 0";

const TEN_OF_ELEVEN: &str = "log transactions=1 used=14 usable=32 free=18
ends tail=1 head=15
blocks least=14 mean=14 most=14
copies total=12 homes=11
home number=5 copies=2
home number=6 copies=1
home number=7 copies=1
home number=8 copies=1
home number=9 copies=1
home number=10 copies=1
home number=11 copies=1
home number=12 copies=1
home number=13 copies=1
home number=14 copies=1
revokes total=0
commits first=1970-01-01T00:00:00Z last=1970-01-01T00:00:00Z
";

/// The lines of SESSION before the one of its dates: debugfs wrote its seconds in the upper half of their field.
const SEVERAL: &str = "log transactions=4 used=15 usable=1023 free=1008
ends tail=1 head=16
blocks least=2 mean=3 most=5
copies total=6 homes=5
home number=3002 copies=2
home number=3001 copies=1
home number=3003 copies=1
home number=3004 copies=1
home number=3005 copies=1
revokes total=4
";

/// The words of seconds of the first and of the last commit of SESSION, and the last line.
struct Dates(&'static str, &'static str);

static DATES: [Dates; 4] = [
    Dates(
        "10000:0",
        "commits first=7710958887649673216 last=7710958887649673216\n",
    ),
    Dates(
        "1030:0 499602d2\n3c30:0 f4865700",
        "commits first=2009-02-13T23:31:30Z last=2100-01-01T00:00:00Z\n",
    ),
    Dates(
        "1030:0 38bb10c0\n3c30:0 38bc622f",
        "commits first=2000-02-29T00:20:16Z last=2000-03-01T00:19:59Z\n",
    ),
    Dates(
        "1030:3a fff2d3e0\n3c30:3a fff2d3e1",
        "commits first=9999-12-30T22:00:00Z last=253402207201\n",
    ),
];

/// Words of a journal made by hand, and the journal at a glance, or why it is refused.
static BY_HAND: [Case; 6] = [
    Case("10:21 1 2 0", Ok(CLEAN)),
    Case("10:21 1 9 1", Ok(EMPTY)),
    Case(WRAPPED, Ok(WRAPS)),
    Case(ELEVEN, Ok(TEN_OF_ELEVEN)),
    Case("400:c03b3998 5 2 401", Err(DumpFault::BadRevoke(1))),
    Case(
        "10:7fffffff 1 2 1",
        Err(DumpFault::Super(CheckedSuperFault::Super(SuperFault::Geometry))),
    ),
];

/// WRAPPED with its picture: a transaction that begins in column 29 and goes on in column 0.
const WRAPS_DRAWN: &str = "log transactions=1 used=6 usable=32 free=26
ends tail=30 head=4
blocks least=6 mean=6 most=6
copies total=4 homes=4
home number=5 copies=1
home number=6 copies=1
home number=7 copies=1
home number=8 copies=1
revokes total=0
commits first=1970-01-01T00:00:00Z last=1970-01-01T00:00:00Z
blocks in a column: 1; . free, - used, 1-9 transactions begin, + more
|---..........................1--|
|   H                         T  |
T is the tail, H the head, B both
|##############################| home 5: 1
|##############################| home 6: 1
|##############################| home 7: 1
|##############################| home 8: 1
";

/// Words of a journal made by hand, and the journal at a glance with its picture, where its log holds something.
static DRAWN_BY_HAND: [Case; 3] = [
    Case("10:21 1 2 0", Ok(CLEAN)),
    Case("10:21 1 9 1", Ok(EMPTY)),
    Case(WRAPPED, Ok(WRAPS_DRAWN)),
];

/// Checks a journal at a glance that is made by hand.
fn check_glance(test: &impl Test, alloc: Global, case: &Case, filter: DumpFilter, row: u64) {
    let Case(words, wanted) = case;
    let journal = by_hand(test, alloc, words);
    let (answer, written) = told_of(alloc, &journal, filter);
    check_told(test, answer, &written, *wanted, row)
}

/// Checks journals made by hand.
fn check_by_hand(test: &impl Test, alloc: Global) {
    for (row, case) in BY_HAND.iter().enumerate() {
        check_glance(test, alloc, case, GLANCE, row as u64)
    }
}

/// Checks journals made by hand with their pictures.
fn check_drawn(test: &impl Test, alloc: Global) {
    for (row, case) in DRAWN_BY_HAND.iter().enumerate() {
        check_glance(test, alloc, case, DRAWN, row as u64)
    }
}

/// SESSION at a glance, where its commits have these words of seconds.
fn dated(test: &impl Test, alloc: Global, words: &str) -> (Result<(), DumpFault>, Vec<u8>) {
    let mut journal = journal_of(test, alloc, 0x10_0000, SESSION);
    put_text(&mut journal, 0, words);
    told_of(alloc, &journal, GLANCE)
}

/// Checks several transactions by these seconds of their commits.
fn check_dates(test: &impl Test, alloc: Global, dates: &Dates, row: u64) {
    let Dates(words, last) = dates;
    let (answer, written) = dated(test, alloc, words);
    check_at(test, answer.is_ok(), "what is answered in row", row);
    let wanted = format!(in alloc; "{SEVERAL}{last}").must(test, "memory");
    let is_wanted = written.as_slice() == wanted.as_bytes();
    check_at(test, is_wanted, "what is written in row", row)
}

/// Checks several transactions by the seconds of their commits.
fn check_several(test: &impl Test, alloc: Global) {
    for (row, dates) in DATES.iter().enumerate() {
        check_dates(test, alloc, dates, row as u64)
    }
}

/// Checks that the other choices change nothing at a glance.
fn check_alone(test: &impl Test, alloc: Global) {
    let journal = by_hand(test, alloc, WRAPPED);
    let filter = DumpFilter {
        home: Some(7),
        last: Some(0),
        superblock: true,
        summary: true,
        drawn: false,
        checksums: false,
    };
    let (answer, written) = told_of(alloc, &journal, filter);
    check(
        test,
        answer.is_ok(),
        "what is answered beside other choices",
    );
    check(
        test,
        written.as_slice() == WRAPS.as_bytes(),
        "what is written beside other choices",
    );
}

#[test]
fn journals_at_a_glance(rt: HostRuntime) {
    check_by_hand(&By(&rt), rt.alloc());
    check_drawn(&By(&rt), rt.alloc());
    check_several(&By(&rt), rt.alloc());
    check_alone(&By(&rt), rt.alloc())
}
