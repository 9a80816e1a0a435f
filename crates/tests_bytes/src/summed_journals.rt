//! The texts of journals with checksums.

use crate::checks::By;
use crate::journals::{Case, by_hand, check_told, told_of};
use jb_dump::{DumpFault, DumpFilter};
use jb_scan::Summed;
use jb_super::{CheckedSuperFault, SuperFault};
use std::alloc::Global;
use tests_support::{Test, put_text};

/// Every line of a journal that may have checksums.
const SUMMED: DumpFilter = DumpFilter {
    home: None,
    last: None,
    superblock: false,
    summary: false,
    drawn: false,
    checksums: true,
};

/// The same, by the blocks that are kept for the last transactions.
const LAST: DumpFilter = DumpFilter {
    home: None,
    last: Some(2),
    superblock: false,
    summary: false,
    drawn: false,
    checksums: true,
};

/// What the journal made by hand has with CSUM_V3 and block numbers of 32 bits: the bit, the type, the superblock's
/// checksum, and those of its transaction.
const V3: &str = "28:11
50:4000000
fc:2557addb
7fc:863e8dbd
80c:5 9 0 408b7374 10203 4050607 8090a0b c0d0e0f
bfc:4b753ea6
1010:240377d2";

/// The same with block numbers of 64 bits.
const V3_WIDE: &str = "28:13
50:4000000
fc:1cf2358e
40c:18 0 7
7fc:c4410aef
80c:5 9 0 408b7374 10203 4050607 8090a0b c0d0e0f
bfc:4b753ea6
1010:240377d2";

/// The same with CSUM_V2.
const V2: &str = "28:9
50:4000000
fc:b0178d6
7fc:863e8dbd
80c:5 73740009 1 2030405 6070809 a0b0c0d e0f0000
bfc:c5c9ed73
1010:240377d2";

/// The same with CSUM_V2 and block numbers of 64 bits.
const V2_WIDE: &str = "28:b
50:4000000
fc:32a4e083
40c:18 0 7
7fc:c4410aef
80c:5 73740009 0 1 2030405 6070809 a0b0c0d e0f0000
bfc:2fb7103d
1010:240377d2";

/// The text of a journal, by its features, the bytes that its revoke block uses and the home there, and the end of its
/// copy's line.
macro_rules! text_of {
    ($incompat:literal, $count:literal, $revoked:literal, $copy:literal) => {
        concat!(
            "super bs=1024 maxlen=33 first=1 sequence=2 start=1 errno=0 compat=00000000 incompat=",
            $incompat,
            " rocompat=00000000 max=0 limit=8
uuid 000102030405060708090a0b0c0d0e0f
1 revoke number=2 count=",
            $count,
            " homes=",
            $revoked,
            "
2 descriptor number=2 tags=1
3 copy home=5 flags=9 head=",
            $copy,
            "
4 commit number=2 sec=0 nsec=0
end transactions=1 expected=3
"
        )
    };
}

/// The text of a log that ends before its first commit block.
const NOTHING: &str =
    "super bs=1024 maxlen=33 first=1 sequence=2 start=1 errno=0 compat=00000000 incompat=00000011 \
     rocompat=00000000 max=0 limit=8
uuid 000102030405060708090a0b0c0d0e0f
end transactions=0 expected=2
";

/// Journals of each form as they are.
static FORMS: [Case; 4] = [
    Case(V3, Ok(text_of!("00000011", "20", "7", "0000000001020304"))),
    Case(
        V3_WIDE,
        Ok(text_of!("00000013", "24", "7", "0000000001020304")),
    ),
    Case(V2, Ok(text_of!("00000009", "20", "7", "0000000001020304"))),
    Case(
        V2_WIDE,
        Ok(text_of!("0000000b", "24", "7", "0000000001020304")),
    ),
];

/// What is put over the first of them, and what is answered then.
static CHANGED: [Case; 13] = [
    // the data, of which the copy's line says so
    Case(
        "c04:1020305",
        Ok(text_of!("00000011", "20", "7", "0000000001020305 wrong")),
    ),
    // the data of a revoked copy, which a recovery does not read
    Case(
        "410:5
7fc:9338a446
c04:1020305",
        Ok(text_of!("00000011", "20", "5", "0000000001020305 wrong")),
    ),
    // after the first 60 bytes of the commit block, which may be old
    Case(
        "1100:1",
        Ok(text_of!("00000011", "20", "7", "0000000001020304")),
    ),
    Case("7fc:1", Err(DumpFault::BadChecksum(Summed::Revoke, 1))),
    Case("bfc:1", Err(DumpFault::BadChecksum(Summed::Descriptor, 2))),
    Case("1010:1", Err(DumpFault::BadChecksum(Summed::Commit, 4))),
    // a block of the journal's own before the data
    Case(
        "c04:1020305
bfc:1",
        Err(DumpFault::BadChecksum(Summed::Descriptor, 2)),
    ),
    // a count that is too large, of a block that is not right
    Case("40c:401", Err(DumpFault::BadChecksum(Summed::Revoke, 1))),
    // a wrong block without a commit block
    Case(
        "7fc:1
1000:c03b3998 2 3 0 240377d2",
        Ok(NOTHING),
    ),
    Case("fc:0", Err(DumpFault::Super(CheckedSuperFault::Checksum))),
    Case(
        "50:1000000",
        Err(DumpFault::Super(CheckedSuperFault::ChecksumType(1))),
    ),
    Case(
        "28:19",
        Err(DumpFault::Super(CheckedSuperFault::Super(SuperFault::Feature(2, 24)))),
    ),
    Case(
        "28:31",
        Err(DumpFault::Super(CheckedSuperFault::Super(SuperFault::Feature(2, 32)))),
    ),
];

/// The journal made by hand, with these words and those over them.
fn made_of(test: &impl Test, alloc: Global, words: &str, over: &str) -> Vec<u8> {
    let mut journal = by_hand(test, alloc, words);
    put_text(&mut journal, 0, over);
    journal
}

/// Checks what dumps of these bytes answer and write, by both ways in which a log is read.
fn check_both(test: &impl Test, alloc: Global, journal: &[u8], case: &Case, row: u64) {
    let (answer, text) = told_of(alloc, journal, SUMMED);
    check_told(test, answer, &text, case.1, row);
    let (answer, text) = told_of(alloc, journal, LAST);
    check_told(test, answer, &text, case.1, row)
}

/// Checks a journal of a form as it is.
fn check_form(test: &impl Test, alloc: Global, case: &Case, row: u64) {
    let journal = by_hand(test, alloc, case.0);
    check_both(test, alloc, &journal, case, row)
}

/// Checks a journal with these words over it.
fn check_changed(test: &impl Test, alloc: Global, case: &Case, row: u64) {
    let journal = made_of(test, alloc, V3, case.0);
    check_both(test, alloc, &journal, case, row)
}

/// Checks the journals of each form.
fn check_forms(test: &impl Test, alloc: Global) {
    for (row, case) in FORMS.iter().enumerate() {
        check_form(test, alloc, case, row as u64)
    }
}

/// Checks the journals that are changed.
fn check_all_changed(test: &impl Test, alloc: Global) {
    for (row, case) in CHANGED.iter().enumerate() {
        check_changed(test, alloc, case, row as u64)
    }
}

#[test]
fn journals_with_checksums_of_each_form(rt: HostRuntime) {
    check_forms(&By(&rt), rt.alloc())
}

#[test]
fn wrong_checksums_of_a_journal(rt: HostRuntime) {
    check_all_changed(&By(&rt), rt.alloc())
}
