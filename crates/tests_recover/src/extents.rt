//! Lists of extents, and a journal that is within its home blocks.

use crate::checks::By;
use crate::pairs::look;
use jb_block::BlockSize;
use jb_disk::{Disk, Fault};
use jb_image::{Extent, Extents, ExtentsDisk, ListFault};
use tests_support::{
    Bench, Must, Test, check, check_at, check_in, check_row, crashed, write_block, zeros,
};

/// What a list says: where these blocks of the journal are, and how many blocks it has; or none.
type Said = Option<(&'static [(u64, Option<u64>)], u64)>;

/// Lists, as debugfs prints them and otherwise.
static LISTS: [(&str, Said); 16] = [
    ("", Some((&[(0, None)], 0))),
    (
        "(0-32):20-52",
        Some((&[(0, Some(20)), (32, Some(52)), (33, None)], 33)),
    ),
    (
        "(0-11):40-51, (IND):52, (12-14):16-18, (DIND):19, (15):9",
        Some((
            &[(11, Some(51)), (12, Some(16)), (15, Some(9)), (16, None)],
            16,
        )),
    ),
    (
        "7, 3-4",
        Some((&[(0, Some(7)), (1, Some(3)), (2, Some(4))], 3)),
    ),
    ("(0-1):5-6,  (2):0 ,", Some((&[(2, Some(0))], 3))),
    (
        "\t3\n4\r\n5,6\x0b7\x0c9\n",
        Some((&[(0, Some(3)), (4, Some(7)), (5, Some(9)), (6, None)], 6)),
    ),
    (
        "3 4 5 9 10 (5):11",
        Some((&[(2, Some(5)), (3, Some(9)), (5, Some(11)), (6, None)], 6)),
    ),
    (
        "(0-1):5-6,(IND):7,3-4,9",
        Some((&[(1, Some(6)), (3, Some(4)), (4, Some(9))], 5)),
    ),
    ("(1):5", None),
    ("3 4 (3):5", None),
    ("(0-1):5-7", None),
    ("(0-1):6-5", None),
    ("(0-1)5-6", None),
    ("(0-1:5-6", None),
    ("(0):9223372036854775808", None),
    ("5;", None),
];

/// The blocks of a list, where it is one.
fn blocks_of(extents: &Result<Extents, ListFault>) -> Option<u64> {
    match extents {
        Ok(extents) => Some(extents.blocks()),
        Err(_) => None,
    }
}

/// Checks what a list says.
fn check_list(test: &impl Bench, text: &'static str, said: Said) {
    let read = Extents::read(test.alloc(), text.as_bytes());
    let blocks = said.map(|(_, blocks)| blocks);
    check_row(test, blocks_of(&read) == blocks, text, "the list");
    match (read, said) {
        (Ok(extents), Some((places, _))) => check_places(test, text, &extents, places),
        (read, _) => {
            let fault = read.err();
            check_row(test, fault == Some(ListFault::Syntax), text, "its fault")
        }
    }
}

/// Checks where blocks of the journal are.
fn check_places(
    test: &impl Test,
    text: &'static str,
    extents: &Extents,
    places: &[(u64, Option<u64>)],
) {
    for (i, place) in places {
        check_in(test, extents.place(*i) == *place, text, "block", *i)
    }
}

fn check_lists(test: &impl Bench) {
    for (text, said) in &LISTS {
        check_list(test, text, *said)
    }
}

#[test]
fn lists_are_read(rt: HostRuntime) {
    check_lists(&By(&rt, rt.alloc()))
}

/// The extents of a list that is one.
fn listed(test: &impl Bench, text: &str) -> Extents {
    Extents::read(test.alloc(), text.as_bytes()).must(test, "a list")
}

/// Checks which blocks extents share, and which are past an image's end.
fn check_shared(test: &impl Bench) {
    let apart = listed(test, "4-6, 0-1, 9");
    check(test, lowest(test, &apart).is_none(), "none is shared");
    check(test, apart.past(10).is_none(), "none is past 10 blocks");
    let past = (apart.past(9), apart.past(6));
    check(test, past == (Some(9), Some(6)), "past 9 blocks and 6");
    check(test, apart.holds(6) && apart.holds(0), "6 and 0 are held");
    check(test, !apart.holds(7) && !apart.holds(2), "7 and 2 are not");
    for (text, block) in [
        ("4-6, 0-1, 6-9", 6),
        ("4-6, 0-4", 4),
        ("8-9, 1-2, 9, 2", 2),
        ("5, 0-9", 5),
    ] {
        let shared = lowest(test, &listed(test, text));
        check_at(
            test,
            shared == Some(block),
            "the lowest that is shared",
            block,
        )
    }
    let met = (
        apart.meets(Extent { first: 2, last: 5 }),
        apart.meets(Extent { first: 7, last: 8 }),
    );
    check(test, met == (Some(4), None), "the first of 2 to 5");
}

/// Where a list, which has not the most blocks, parts from another one.
fn parting(one: &Extents, other: &Extents) -> Option<u64> {
    if one.blocks() < u64::MAX {
        one.first_other(other)
    } else {
        None
    }
}

/// Checks where a list parts from another one.
fn check_parted(test: &impl Bench) {
    let apart = listed(test, "4-6, 0-1, 9");
    for (text, place) in [
        ("4-6, 0-1, 9", None),
        ("4-5, 0-1, 9", Some(2)),
        ("4-7, 0-1, 9", Some(3)),
        ("4-6, 0, 9", Some(4)),
        ("4-6, 0-1", Some(5)),
        ("4-6, 0-1, 9-10", Some(6)),
        ("5", Some(0)),
    ] {
        let other = listed(test, text);
        check_row(
            test,
            parting(&apart, &other) == place,
            text,
            "where it parts",
        )
    }
}

/// The lowest block that is in two extents.
fn lowest(test: &impl Bench, extents: &Extents) -> Option<u64> {
    extents.shared(test.alloc()).must(test, "memory")
}

#[test]
fn blocks_are_shared_or_past_the_end(rt: HostRuntime) {
    check_shared(&By(&rt, rt.alloc()));
    check_parted(&By(&rt, rt.alloc()))
}

/// Writes a block of this byte.
fn put<D: Disk>(disk: &mut D, place: u64, byte: u8) -> Result<(), Fault> {
    write_block(disk, place, &[byte; 1024])
}

/// Checks the blocks that a disk of extents has: the journal's blocks 0 to 2, and home blocks 0 and 11. Home blocks 3,
/// 8 and 9 are the journal's own.
fn check_blocks<D: Disk>(test: &impl Test, disk: &mut D) {
    check(test, disk.blocks() == 15, "how many blocks");
    for (place, byte) in [(0, 1), (1, 2), (2, 3), (3, 4), (14, 5)] {
        check_at(test, put(disk, place, byte).is_ok(), "written at", place);
        check_at(test, look(disk, place) == Ok(byte), "read at", place)
    }
    for place in [6, 11, 12] {
        check_at(test, put(disk, place, 9).is_err(), "not written at", place);
        check_at(test, look(disk, place).is_err(), "not read at", place)
    }
    check(test, disk.sync().is_ok(), "a sync")
}

fn check_calls(test: &impl Bench) {
    let image = zeros(test, test.alloc(), BlockSize::OneKib, 12);
    let mut disk = ExtentsDisk::of(image, listed(test, "(0-1):8-9, (2):3"), 3);
    check_blocks(test, &mut disk);
    let own = (disk.first_own(&[2, 4, 8, 3]), disk.first_own(&[2, 4]));
    check(test, own == (Some(8), None), "the first of its own");
    let own = (
        disk.own_among(4, 9),
        disk.own_among(3, 0),
        disk.own_among(4, 4),
    );
    check(
        test,
        own == (Some(8), Some(3), None),
        "one of its own in a row",
    );
    // a crash leaves what was synced
    let mut image = crashed(test, &disk.into_inner(), &[]);
    for (block, byte) in [(8, 1), (9, 2), (3, 3), (0, 4), (11, 5), (1, 0)] {
        check_at(test, look(&mut image, block) == Ok(byte), "block", block)
    }
}

#[test]
fn each_call_reaches_its_block(rt: HostRuntime) {
    check_calls(&By(&rt, rt.alloc()))
}
