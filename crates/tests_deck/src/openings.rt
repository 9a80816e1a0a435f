//! Journals that are opened, and that are refused.

use crate::checks::By;
use crate::images::{BLOCKS, Label, MAGIC, Row, small};
use crate::scripts::opened;
use jb_block::{BlockSize, Width};
use jb_deck::{CheckpointFault, Deck, FreeFault, OpenFault};
use jb_disk::{Disk, MemoryDisk};
use jb_super::SuperFault;
use std::alloc::Global;
use tests_support::{Bench, Must, check_in, check_none, check_row, crashed, difference};

const ZEROS: [u32; 4] = [0, 0, 0, 0];

/// The next number, how many blocks the log has, and how wide block numbers are.
pub type Told = (u64, u32, Width);

/// What the small image says of itself.
const MADE: Told = (2, 32, Width::Narrow);

/// A name, the rows of the small image that differ, what the journal says of itself, and the rows that opening it
/// changes.
type Opened = (&'static str, &'static [Row], Told, &'static [Row]);

static OPENED: [Opened; 11] = [
    ("as it is made", &[], MADE, &[]),
    (
        "a later number, and an older one",
        &[(9, 0, [MAGIC, 2, 7, 0]), (10, 0, [MAGIC, 2, 1, 0])],
        MADE,
        &[(9, 0, ZEROS)],
    ),
    (
        "the next number, in the first block of the log",
        &[(1, 0, [MAGIC, 1, 2, 5]), (1, 0x3F0, [6, 6, 6, 6])],
        MADE,
        &[(1, 0, ZEROS), (1, 0x3F0, ZEROS)],
    ),
    (
        "the number 0, in the last block of the log",
        &[(32, 0, [MAGIC, 5, 0, 16])],
        MADE,
        &[(32, 0, ZEROS)],
    ),
    (
        "numbers without a sign, of any type",
        &[
            (3, 0, [MAGIC, 9, 0x8000_0000, 0]),
            (4, 0, [MAGIC, 0, 0xFFFF_FFFF, 0]),
        ],
        MADE,
        &[(3, 0, ZEROS), (4, 0, ZEROS)],
    ),
    (
        "no magic",
        &[(5, 0, [0xC03B_3999, 2, 7, 0]), (6, 0, [0, MAGIC, 2, 7])],
        MADE,
        &[],
    ),
    (
        "home blocks that begin as blocks of the log's",
        &[(33, 0, [MAGIC, 2, 7, 0]), (48, 0, [MAGIC, 2, 0, 0])],
        MADE,
        &[],
    ),
    (
        "no feature for revoke blocks",
        &[(0, 0x20, [0, 0, 0, 0]), (0, 0x3F0, [7, 7, 7, 7])],
        MADE,
        &[(0, 0x20, [0, 0, 1, 0])],
    ),
    (
        "block numbers of 64 bits",
        &[(0, 0x20, [0, 0, 2, 0]), (32, 0, [MAGIC, 2, 2, 0])],
        (2, 32, Width::Wide),
        &[(0, 0x20, [0, 0, 3, 0]), (32, 0, ZEROS)],
    ),
    (
        "blocks before the log",
        &[
            (0, 0x10, [33, 4, 1, 0]),
            (3, 0, [MAGIC, 2, 7, 0]),
            (4, 0, [MAGIC, 2, 7, 0]),
        ],
        (2, 29, Width::Narrow),
        &[(4, 0, ZEROS)],
    ),
    (
        "the last number",
        &[
            (0, 0x10, [33, 1, 4294967294, 0]),
            (2, 0, [MAGIC, 2, 4294967295, 0]),
            (3, 0, [MAGIC, 2, 4294967294, 0]),
        ],
        (4294967295, 32, Width::Narrow),
        &[(2, 0, ZEROS)],
    ),
];

/// A name, the rows of the small image that differ, and the fault.
type Refused = (Label, &'static [Row], OpenFault);

const NO_MAGIC: OpenFault = OpenFault::Super(SuperFault::NoMagic);

const VERSION_3: OpenFault = OpenFault::Super(SuperFault::NotVersion2(3));

const SIZE_512: OpenFault = OpenFault::Super(SuperFault::BlockSize(512));

const SIZE_2048: OpenFault = OpenFault::Super(SuperFault::BlockSize(2048));

const GEOMETRY: OpenFault = OpenFault::Super(SuperFault::Geometry);

const FEATURE_2_16: OpenFault = OpenFault::Super(SuperFault::Feature(2, 16));

const FEATURE_1_1: OpenFault = OpenFault::Super(SuperFault::Feature(1, 1));

const FEATURE_3_4: OpenFault = OpenFault::Super(SuperFault::Feature(3, 4));

static REFUSED: [Refused; 12] = [
    ("zeros", &[(0, 0, ZEROS)], NO_MAGIC),
    ("version 1", &[(0, 0, [MAGIC, 3, 0, 1024])], VERSION_3),
    ("no block size", &[(0, 0, [MAGIC, 4, 0, 512])], SIZE_512),
    ("another size", &[(0, 0, [MAGIC, 4, 0, 2048])], SIZE_2048),
    ("seven blocks", &[(0, 0x10, [8, 1, 1, 0])], GEOMETRY),
    ("fast commits", &[(0, 0x20, [0, 0, 0x10, 0])], FEATURE_2_16),
    ("checksums", &[(0, 0x20, [0, 1, 1, 0])], FEATURE_1_1),
    ("read-only", &[(0, 0x20, [0, 0, 1, 4])], FEATURE_3_4),
    (
        "a log that begins",
        &[(0, 0x10, [33, 1, 1, 1]), (9, 0, [MAGIC, 2, 7, 0])],
        OpenFault::NeedsRecovery,
    ),
    (
        "a log that begins, with the last number",
        &[(0, 0x10, [33, 1, 4294967295, 32])],
        OpenFault::NeedsRecovery,
    ),
    (
        "no number left",
        &[(0, 0x10, [33, 1, 4294967295, 0]), (9, 0, [MAGIC, 2, 0, 0])],
        OpenFault::NumbersSpent,
    ),
    (
        "a feature that is refused, and no number left",
        &[(0, 0x10, [33, 1, 4294967295, 0]), (0, 0x20, [0, 0, 8, 0])],
        OpenFault::Super(SuperFault::Feature(2, 8)),
    ),
];

/// Whether a journal of the small image says this of itself.
fn is_told<D: Disk>(deck: &Deck<D>, told: Told) -> bool {
    let (number, usable, width) = told;
    deck.next_number() == number && deck.usable() == usable && deck.shape().width == width
}

/// Whether the handles of a journal have the blocks, the homes and the limit of the small image.
fn is_small<D: Disk>(deck: &Deck<D>) -> bool {
    let shape = deck.shape();
    shape.bs == BlockSize::OneKib && shape.homes == 16 && shape.limit == deck.usable() / 4
}

/// Whether a journal of the small image says this of itself, and is as one whose log is empty.
fn is_new<D: Disk>(deck: &mut Deck<D>, told: Told) -> bool {
    is_told(deck, told)
        && is_small(deck)
        && deck.trail().is_empty()
        && !deck.aborted()
        && is_idle(deck)
}

/// Whether a journal has nothing to checkpoint, and no last word on a home.
fn is_idle<D: Disk>(deck: &mut Deck<D>) -> bool {
    deck.checkpoint_one() == Err(CheckpointFault::Nothing)
        && deck.word_of(5).is_none()
        && deck.write_free(5, &[1, 2]) == Err(FreeFault::NotFree)
}

/// The disk of a journal that is opened, says this of itself, and is closed.
pub fn closed(test: &impl Bench, row: Label, disk: MemoryDisk, told: Told) -> MemoryDisk {
    let mut deck = opened(test.alloc(), disk).must(test, row);
    let is_so = is_new(&mut deck, told);
    check_row(test, is_so, row, "what it says of itself");
    deck.close()
}

/// Checks that the disk of a row is the small image with these rows and then those.
fn check_blocks(test: &impl Bench, row: Label, disk: &mut MemoryDisk, rows: &[Row], after: &[Row]) {
    let mut wanted = small(test, disk.blocks(), rows, after);
    check_none(test, row, "block", difference(test, disk, &mut wanted, 0))
}

/// Checks the journal of an image, what opening it changes, and that nothing is pending then.
fn check_opened(test: &impl Bench, of: &Opened) {
    let (row, rows, told, after) = *of;
    let mut disk = closed(test, row, small(test, BLOCKS, rows, &[]), told);
    check_blocks(test, row, &mut disk, rows, after);
    let mut left = crashed(test, &disk, &[]);
    check_blocks(test, row, &mut left, rows, after)
}

fn check_openings(test: &impl Bench) {
    for row in &OPENED {
        check_opened(test, row);
    }
}

#[test]
fn journals_are_opened_as_worked_by_hand(rt: HostRuntime) {
    check_openings(&By(&rt, rt.alloc()))
}

/// The disk of a journal that is refused, and why.
fn refusal(alloc: Global, disk: MemoryDisk) -> Option<(MemoryDisk, OpenFault)> {
    Deck::open(alloc, disk).err()
}

/// The disk of a journal that is refused for this fault.
pub fn refused(test: &impl Bench, row: Label, disk: MemoryDisk, fault: OpenFault) -> MemoryDisk {
    let (disk, told) = refusal(test.alloc(), disk).must(test, row);
    check_in(test, told == fault, row, "the refusal", 0);
    disk
}

/// Checks that a journal on a disk of this many blocks is refused, and stays as it was.
fn check_refused(test: &impl Bench, blocks: u64, of: &Refused) {
    let (row, rows, fault) = *of;
    let mut disk = refused(test, row, small(test, blocks, rows, &[]), fault);
    check_blocks(test, row, &mut disk, rows, &[])
}

/// Checks each refusal, and those of disks without a block and with too few.
/// A disk without a block.
static NO_BLOCK: Refused = ("no block", &[], OpenFault::Super(SuperFault::ShortBlock));

/// A disk that ends within the journal, with a block of a later number.
static CUT: Refused = ("a disk that is cut", &[(9, 0, [MAGIC, 2, 7, 0])], GEOMETRY);

fn check_refusals(test: &impl Bench) {
    for of in &REFUSED {
        check_refused(test, BLOCKS, of);
    }
    check_refused(test, 0, &NO_BLOCK);
    check_refused(test, 20, &CUT)
}

#[test]
fn journals_are_refused_and_stay(rt: HostRuntime) {
    check_refusals(&By(&rt, rt.alloc()))
}
