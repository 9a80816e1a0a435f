//! The texts of journals made by hand.

use crate::checks::By;
use jb_dump::{DumpFault, DumpFilter, dump, dump_chosen};
use jb_super::{CheckedSuperFault, SuperFault};
use std::alloc::Global;
use tests_support::{Must, Test, check_at, put_text};

/// Blocks of 1,024 bytes in the journals made by hand.
pub const BLOCKS: usize = 33;

const LEN: usize = 1024 * BLOCKS;

/// A journal of 33 blocks that begins with number 2 at place 1.
const SUPER: &str = "0:c03b3998 4 0 400 21 1 2 1 0 0 1 0 10203 4050607 8090a0b c0d0e0f 1 0 0 0";

/// A revoke of home 7, and home 5 with an escaped copy.
const REVOKE_AND_COPY: &str = "400:c03b3998 5 2 14 7 0 0 0
800:c03b3998 1 2 5 9 10203 4050607 8090a0b c0d0e0f 0 0 0
c00:0 1020304 0 0
1000:c03b3998 2 2 0";

/// The text of the journal that is made by hand.
pub const REVOKE_AND_COPY_TEXT: &str =
    "super bs=1024 maxlen=33 first=1 sequence=2 start=1 errno=0 compat=00000000 incompat=00000001 \
     rocompat=00000000 max=0 limit=8
uuid 000102030405060708090a0b0c0d0e0f
1 revoke number=2 count=20 homes=7
2 descriptor number=2 tags=1
3 copy home=5 flags=9 head=0000000001020304
4 commit number=2 sec=0 nsec=0
end transactions=1 expected=3
";

/// A journal of this many bytes, four MiB at most: zeros with these words.
pub fn journal_of(test: &impl Test, alloc: Global, len: usize, words: &str) -> Vec<u8> {
    let mut journal = vec![in alloc; 0; len.min(0x40_0000)].must(test, "memory");
    put_text(&mut journal, 0, words);
    journal
}

/// The journal made by hand, with these words too.
pub fn by_hand(test: &impl Test, alloc: Global, words: &str) -> Vec<u8> {
    let mut journal = journal_of(test, alloc, LEN, SUPER);
    put_text(&mut journal, 0, REVOKE_AND_COPY);
    put_text(&mut journal, 0, words);
    journal
}

/// The first bytes, this many of them.
pub fn front(journal: &[u8], len: usize) -> &[u8] {
    &journal[..len.min(journal.len())]
}

/// What a dump of these bytes answers, and what it writes.
pub fn told(alloc: Global, journal: &[u8]) -> (Result<(), DumpFault>, Vec<u8>) {
    let (mut rest, mut text) = (journal, Vec::new(alloc));
    let answer = dump(alloc, &mut rest, &mut text);
    (answer, text)
}

/// What a dump by this filter answers, and what it writes.
pub fn told_of(
    alloc: Global,
    journal: &[u8],
    filter: DumpFilter,
) -> (Result<(), DumpFault>, Vec<u8>) {
    let (mut rest, mut text) = (journal, Vec::new(alloc));
    let answer = dump_chosen(alloc, &mut rest, &mut text, filter);
    (answer, text)
}

/// The text of a journal, or why it has none.
pub type Dumped = Result<&'static str, DumpFault>;

/// The words that are put into the journal made by hand, and what is answered of it.
pub struct Case(pub &'static str, pub Dumped);

static CASES: [Case; 8] = [
    Case("", Ok(REVOKE_AND_COPY_TEXT)),
    Case(WRAPPED, Ok(WRAPPED_TEXT)),
    Case("1800:c03b3998 2 3 0", Ok(REVOKE_AND_COPY_TEXT)),
    Case("10:21 1 2 0", Ok(CLEAN_TEXT)),
    Case(
        "20:0 0 3 0
400:c03b3998 5 2 24 0 7 1 7 1 8 0 0
810:1 1 10203 4050607 8090a0b c0d0e0f 6 a ffffffff 0 0 0
1000:8 9 0 0
1400:c03b3998 2 2 0",
        Ok(WIDE_TEXT),
    ),
    Case(
        "20:0 0 12 0",
        Err(DumpFault::Super(CheckedSuperFault::Super(SuperFault::Feature(2, 16)))),
    ),
    Case(
        "10:7fffffff 1 2 1",
        Err(DumpFault::Super(CheckedSuperFault::Super(SuperFault::Geometry))),
    ),
    Case("400:c03b3998 5 2 401", Err(DumpFault::BadRevoke(1))),
];

/// A log that begins at place 30 and ends at place 3.
pub const WRAPPED: &str = "10:21 1 2 1e
400:5 6 0 0 0 0 0 0
800:7 8 0 0 0 0 0 0 0 0 0 0
c00:c03b3998 2 2 0
1000:0 0 0 0
7800:c03b3998 1 2 5 7820:0 6 2 7 2 8 a 0
7c00:1 2 0 0
8000:3 4 0 0";

/// Its text.
pub const WRAPPED_TEXT: &str =
    "super bs=1024 maxlen=33 first=1 sequence=2 start=30 errno=0 compat=00000000 incompat=00000001 \
     rocompat=00000000 max=0 limit=8
uuid 000102030405060708090a0b0c0d0e0f
30 descriptor number=2 tags=4
31 copy home=5 flags=0 head=0000000100000002
32 copy home=6 flags=2 head=0000000300000004
1 copy home=7 flags=2 head=0000000500000006
2 copy home=8 flags=10 head=0000000700000008
3 commit number=2 sec=0 nsec=0
end transactions=1 expected=3
";

const WIDE_TEXT: &str =
    "super bs=1024 maxlen=33 first=1 sequence=2 start=1 errno=0 compat=00000000 incompat=00000003 \
     rocompat=00000000 max=0 limit=8
uuid 000102030405060708090a0b0c0d0e0f
1 revoke number=2 count=36 homes=7,4294967303
2 descriptor number=2 tags=2
3 copy home=4294967301 flags=1 head=0000000001020304
4 copy home=18446744069414584326 flags=10 head=0000000800000009
5 commit number=2 sec=0 nsec=0
end transactions=1 expected=3
";

/// The text of that journal where its log is clean.
pub const CLEAN_TEXT: &str =
    "super bs=1024 maxlen=33 first=1 sequence=2 start=0 errno=0 compat=00000000 incompat=00000001 \
     rocompat=00000000 max=0 limit=8
uuid 000102030405060708090a0b0c0d0e0f
clean next=3
";

/// Checks that this was answered and written.
pub fn check_told(
    test: &impl Test,
    answer: Result<(), DumpFault>,
    text: &[u8],
    wanted: Dumped,
    row: u64,
) {
    let (result, written) = match wanted {
        Ok(text) => (Ok(()), text),
        Err(fault) => (Err(fault), ""),
    };
    check_at(test, answer == result, "what a dump answers in row", row);
    let is_text = *text == *written.as_bytes();
    check_at(test, is_text, "what a dump writes in row", row)
}

/// Checks what a dump of these bytes answers and writes.
pub fn check_dump(test: &impl Test, alloc: Global, journal: &[u8], wanted: Dumped, row: u64) {
    let (answer, text) = told(alloc, journal);
    check_told(test, answer, &text, wanted, row)
}

/// Checks what a dump of a journal that is made by hand answers and writes.
fn check_case(test: &impl Test, alloc: Global, case: &Case, row: u64) {
    let Case(words, wanted) = case;
    let journal = by_hand(test, alloc, words);
    check_dump(test, alloc, &journal, *wanted, row)
}

fn check_cases(test: &impl Test, alloc: Global) {
    for (row, case) in CASES.iter().enumerate() {
        check_case(test, alloc, case, row as u64)
    }
}

#[test]
fn each_journal_is_dumped_as_its_case_says(rt: HostRuntime) {
    check_cases(&By(&rt), rt.alloc())
}
