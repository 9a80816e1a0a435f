//! Superblocks that are shown, of journals that are taken and of those that are refused.

use crate::checks::By;
use crate::journals::{by_hand, check_told, front, told_of};
use jb_dump::{DumpFault, DumpFilter, dump_chosen};
use jb_super::{CheckedSuperFault, SuperFault};
use std::alloc::Global;
use tests_support::{Test, check, check_at};

/// Words that are put into the journal made by hand, whether it may have checksums, why its superblock is refused where
/// it is, and what is shown of it.
struct Shown(&'static str, bool, Option<CheckedSuperFault>, &'static str);

static CASES: [Shown; 13] = [
    Shown("", false, None, TEXT),
    Shown("", true, None, TEXT),
    // a log that is refused is not read
    Shown("400:c03b3998 5 2 401", false, None, TEXT),
    // every field
    Shown(
        "8:2a 800 21 3 fffffffe 0 5 2 3 0 f0f1f2f3 f4f5f6f7 f8f9fafb fcfdfeff 1f 20 9 40 50:4000000 11 5 fc:deadbeef",
        false,
        None,
        "super bs=2048 maxlen=33 first=3 sequence=4294967294 start=0 errno=5 compat=00000002 incompat=00000003 \
         rocompat=00000000 max=9 limit=9
uuid f0f1f2f3f4f5f6f7f8f9fafbfcfdfeff
more number=42 nr_users=31 dynsuper=32 max_trans_data=64 checksum_type=4 num_fc_blks=17 head=5 checksum=deadbeef
",
    ),
    // sizes that make no journal
    Shown(
        "c:200 0 9 9 9",
        false,
        Some(CheckedSuperFault::Super(SuperFault::BlockSize(512))),
        "super bs=512 maxlen=0 first=9 sequence=9 start=9 errno=0 compat=00000000 incompat=00000001 \
         rocompat=00000000 max=0 limit=3
uuid 000102030405060708090a0b0c0d0e0f
more number=0 nr_users=1 dynsuper=0 max_trans_data=0 checksum_type=0 num_fc_blks=0 head=0 checksum=00000000
",
    ),
    Shown(
        "c:400 8 1 2 0 48:ffffffff",
        true,
        Some(CheckedSuperFault::Super(SuperFault::Geometry)),
        "super bs=1024 maxlen=8 first=1 sequence=2 start=0 errno=0 compat=00000000 incompat=00000001 \
         rocompat=00000000 max=4294967295 limit=7
uuid 000102030405060708090a0b0c0d0e0f
more number=0 nr_users=1 dynsuper=0 max_trans_data=0 checksum_type=0 num_fc_blks=0 head=0 checksum=00000000
",
    ),
    // features: all that are known, fast commits, checksums that are not allowed, both forms of them
    Shown(
        "24:1 3f 6",
        true,
        Some(CheckedSuperFault::Super(SuperFault::Feature(1, 1))),
        "super bs=1024 maxlen=33 first=1 sequence=2 start=1 errno=0 compat=00000001 incompat=0000003f \
         rocompat=00000006 max=0 limit=8
uuid 000102030405060708090a0b0c0d0e0f
more number=0 nr_users=1 dynsuper=0 max_trans_data=0 checksum_type=0 num_fc_blks=0 head=0 checksum=00000000
",
    ),
    Shown(
        "28:21 54:10",
        true,
        Some(CheckedSuperFault::Super(SuperFault::Feature(2, 32))),
        "super bs=1024 maxlen=33 first=1 sequence=2 start=1 errno=0 compat=00000000 incompat=00000021 \
         rocompat=00000000 max=0 limit=8
uuid 000102030405060708090a0b0c0d0e0f
more number=0 nr_users=1 dynsuper=0 max_trans_data=0 checksum_type=0 num_fc_blks=16 head=0 checksum=00000000
",
    ),
    Shown(
        SUMMED,
        false,
        Some(CheckedSuperFault::Super(SuperFault::Feature(2, 16))),
        SUMMED_TEXT,
    ),
    Shown(SUMMED, true, None, SUMMED_TEXT),
    Shown(
        "28:11 50:4000000 fc:2557addc",
        true,
        Some(CheckedSuperFault::Checksum),
        "super bs=1024 maxlen=33 first=1 sequence=2 start=1 errno=0 compat=00000000 incompat=00000011 \
         rocompat=00000000 max=0 limit=8
uuid 000102030405060708090a0b0c0d0e0f
more number=0 nr_users=1 dynsuper=0 max_trans_data=0 checksum_type=4 num_fc_blks=0 head=0 checksum=2557addc
",
    ),
    // no superblock of version 2
    Shown(
        "4:3",
        false,
        Some(CheckedSuperFault::Super(SuperFault::NotVersion2(3))),
        "",
    ),
    Shown(
        "0:c03b3999",
        false,
        Some(CheckedSuperFault::Super(SuperFault::NoMagic)),
        "",
    ),
];

/// The journal made by hand.
const TEXT: &str =
    "super bs=1024 maxlen=33 first=1 sequence=2 start=1 errno=0 compat=00000000 incompat=00000001 \
     rocompat=00000000 max=0 limit=8
uuid 000102030405060708090a0b0c0d0e0f
more number=0 nr_users=1 dynsuper=0 max_trans_data=0 checksum_type=0 num_fc_blks=0 head=0 checksum=00000000
";

/// CSUM_V3, with the checksum that e2fsck takes.
const SUMMED: &str = "28:11 50:4000000 fc:2557addb";

const SUMMED_TEXT: &str =
    "super bs=1024 maxlen=33 first=1 sequence=2 start=1 errno=0 compat=00000000 incompat=00000011 \
     rocompat=00000000 max=0 limit=8
uuid 000102030405060708090a0b0c0d0e0f
more number=0 nr_users=1 dynsuper=0 max_trans_data=0 checksum_type=4 num_fc_blks=0 head=0 checksum=2557addb
";

/// The filter of the superblock alone, with others that change nothing then.
fn alone(checksums: bool, home: Option<u64>, last: Option<u64>) -> DumpFilter {
    DumpFilter {
        home,
        last,
        superblock: true,
        summary: false,
        drawn: false,
        checksums,
    }
}

/// What is answered of a superblock that is refused, or taken.
fn answer_of(fault: Option<CheckedSuperFault>) -> Result<(), DumpFault> {
    match fault {
        Some(fault) => Err(DumpFault::Super(fault)),
        None => Ok(()),
    }
}

/// Checks what is answered and shown of a journal.
fn check_shown(test: &impl Test, alloc: Global, journal: &[u8], of: &Shown, row: u64) {
    let Shown(_, checksums, fault, wanted) = *of;
    for filter in [
        alone(checksums, None, None),
        alone(checksums, Some(5), Some(0)),
    ] {
        let (answer, written) = told_of(alloc, journal, filter);
        let is_answer = answer == answer_of(fault);
        check_at(test, is_answer, "what is answered in row", row);
        let is_text = *written == *wanted.as_bytes();
        check_at(test, is_text, "what is shown in row", row)
    }
}

/// The same of the journal that is made by hand, and of its superblock alone.
fn check_case(test: &impl Test, alloc: Global, of: &Shown, row: u64) {
    let journal = by_hand(test, alloc, of.0);
    check_shown(test, alloc, &journal, of, row);
    check_shown(test, alloc, front(&journal, 1024), of, row)
}

fn check_cases(test: &impl Test, alloc: Global) {
    for (row, of) in CASES.iter().enumerate() {
        check_case(test, alloc, of, row as u64)
    }
}

/// Checks that of a journal 1,024 bytes are read, and that one that ends before is refused.
fn check_bytes(test: &impl Test, alloc: Global) {
    let journal = by_hand(test, alloc, "");
    let (mut rest, mut text) = (journal.as_slice(), Vec::new(alloc));
    let answer = dump_chosen(alloc, &mut rest, &mut text, alone(false, None, None));
    check(test, answer.is_ok(), "a superblock");
    let is_left = rest.len() == journal.len().saturating_sub(1024);
    check(test, is_left, "how many bytes are read");
    let (answer, written) = told_of(alloc, front(&journal, 1023), alone(false, None, None));
    let fault = DumpFault::Super(CheckedSuperFault::Super(SuperFault::ShortBlock));
    check_told(test, answer, &written, Err(fault), 1023)
}

fn check_all(test: &impl Test, alloc: Global) {
    check_cases(test, alloc);
    check_bytes(test, alloc)
}

#[test]
fn superblocks_are_shown(rt: HostRuntime) {
    check_all(&By(&rt), rt.alloc())
}
