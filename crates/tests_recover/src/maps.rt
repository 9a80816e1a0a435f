//! The maps of files of ext2, ext3 and ext4.

use crate::checks::By;
use jb_block::BlockSize;
use jb_disk::{Disk, MemoryDisk};
use jb_map::{FileMap, MapFault, MapKind, NodeFault, ReadMapFault, Space, read_map};
use tests_support::{Bench, Test, check_row, write_at, zeros};

/// Twelve bytes of a map: the header of a node, an entry, or three words.
type Part = [u8; 12];

/// What is read of a map: the stretches by their first and last blocks, or the fault.
type Said = Result<&'static [(u64, u64)], MapFault>;

/// A map: its name, its kind, the parts of its root, how many places the file has, and what is read.
type Row = (&'static str, MapKind, &'static [Part], u32, Said);

/// A leaf with 1 or 2 entries.
const LEAF_1: Part = [0x0A, 0xF3, 1, 0, 4, 0, 0, 0, 0, 0, 0, 0];

const LEAF_2: Part = [0x0A, 0xF3, 2, 0, 4, 0, 0, 0, 0, 0, 0, 0];

/// A node of height 1 with 1 or 2 entries.
const INDEX_1: Part = [0x0A, 0xF3, 1, 0, 4, 0, 1, 0, 0, 0, 0, 0];

const INDEX_2: Part = [0x0A, 0xF3, 2, 0, 4, 0, 1, 0, 0, 0, 0, 0];

/// An entry: places 0 to 2 are blocks 20 to 22.
const FIRST: Part = [0, 0, 0, 0, 3, 0, 0, 0, 20, 0, 0, 0];

/// The twelve words of a block map that lead to blocks 20 to 31.
const WORDS_0: Part = [20, 0, 0, 0, 21, 0, 0, 0, 22, 0, 0, 0];

const WORDS_3: Part = [23, 0, 0, 0, 24, 0, 0, 0, 25, 0, 0, 0];

const WORDS_6: Part = [26, 0, 0, 0, 27, 0, 0, 0, 28, 0, 0, 0];

const WORDS_9: Part = [29, 0, 0, 0, 30, 0, 0, 0, 31, 0, 0, 0];

/// A leaf in block 10: places 0 to 3 are blocks 32 to 35, and places 4 to 7 blocks 40 to 43.
static LEAF_IN_10: [Part; 3] = [
    LEAF_2,
    [0, 0, 0, 0, 4, 0, 0, 0, 32, 0, 0, 0],
    [4, 0, 0, 0, 4, 0, 0, 0, 40, 0, 0, 0],
];

/// A node in block 11 that leads to itself.
static LOOP_IN_11: [Part; 2] = [INDEX_1, [0, 0, 0, 0, 11, 0, 0, 0, 0, 0, 0, 0]];

/// Words in block 12: blocks 32, 33 and 50.
static WORDS_IN_12: [Part; 1] = [[32, 0, 0, 0, 33, 0, 0, 0, 50, 0, 0, 0]];

/// Maps of a file system of 64 blocks, of which block 1 is the superblock's.
static MAPS: [Row; 20] = [
    (
        "a leaf",
        MapKind::Tree,
        &[LEAF_2, FIRST, [3, 0, 0, 0, 2, 0, 0, 0, 23, 0, 0, 0]],
        5,
        Ok(&[(20, 24)]),
    ),
    (
        "cut",
        MapKind::Tree,
        &[LEAF_2, FIRST, [3, 0, 0, 0, 2, 0, 0, 0, 40, 0, 0, 0]],
        4,
        Ok(&[(20, 22), (40, 40)]),
    ),
    (
        "short",
        MapKind::Tree,
        &[LEAF_1, FIRST],
        4,
        Err(MapFault::Short(3)),
    ),
    (
        "apart",
        MapKind::Tree,
        &[LEAF_2, FIRST, [4, 0, 0, 0, 2, 0, 0, 0, 23, 0, 0, 0]],
        5,
        Err(MapFault::Apart(3)),
    ),
    (
        "unwritten",
        MapKind::Tree,
        &[LEAF_2, FIRST, [3, 0, 0, 0, 1, 128, 0, 0, 23, 0, 0, 0]],
        5,
        Err(MapFault::Unwritten(3)),
    ),
    (
        "no place",
        MapKind::Tree,
        &[LEAF_2, FIRST, [3, 0, 0, 0, 0, 0, 0, 0, 23, 0, 0, 0]],
        5,
        Err(MapFault::Unwritten(3)),
    ),
    (
        "past the end",
        MapKind::Tree,
        &[LEAF_2, FIRST, [3, 0, 0, 0, 2, 0, 0, 0, 63, 0, 0, 0]],
        5,
        Err(MapFault::OutOfRange(3)),
    ),
    (
        "high half",
        MapKind::Tree,
        &[LEAF_2, FIRST, [3, 0, 0, 0, 2, 0, 1, 0, 23, 0, 0, 0]],
        5,
        Err(MapFault::OutOfRange(3)),
    ),
    (
        "twice",
        MapKind::Tree,
        &[LEAF_2, FIRST, [3, 0, 0, 0, 2, 0, 0, 0, 22, 0, 0, 0]],
        5,
        Err(MapFault::Twice(22)),
    ),
    (
        "the superblock",
        MapKind::Tree,
        &[LEAF_2, FIRST, [3, 0, 0, 0, 1, 0, 0, 0, 1, 0, 0, 0]],
        4,
        Err(MapFault::Twice(1)),
    ),
    (
        "a count above the room",
        MapKind::Tree,
        &[[0x0A, 0xF3, 5, 0, 4, 0, 0, 0, 0, 0, 0, 0]],
        5,
        Err(MapFault::Node(0, NodeFault::Count(5))),
    ),
    (
        "no tree",
        MapKind::Tree,
        &[WORDS_0],
        5,
        Err(MapFault::Node(0, NodeFault::Magic(20))),
    ),
    (
        "a node",
        MapKind::Tree,
        &[INDEX_1, [0, 0, 0, 0, 10, 0, 0, 0, 0, 0, 0, 0]],
        8,
        Ok(&[(32, 35), (40, 43)]),
    ),
    (
        "a node that is not needed",
        MapKind::Tree,
        &[
            INDEX_2,
            [0, 0, 0, 0, 10, 0, 0, 0, 0, 0, 0, 0],
            [8, 0, 0, 0, 13, 0, 0, 0, 0, 0, 0, 0],
        ],
        8,
        Ok(&[(32, 35), (40, 43)]),
    ),
    (
        "a node of zeros",
        MapKind::Tree,
        &[
            INDEX_2,
            [0, 0, 0, 0, 10, 0, 0, 0, 0, 0, 0, 0],
            [8, 0, 0, 0, 13, 0, 0, 0, 0, 0, 0, 0],
        ],
        9,
        Err(MapFault::Node(8, NodeFault::Magic(0))),
    ),
    (
        "a loop",
        MapKind::Tree,
        &[
            [0x0A, 0xF3, 1, 0, 4, 0, 2, 0, 0, 0, 0, 0],
            [0, 0, 0, 0, 11, 0, 0, 0, 0, 0, 0, 0],
        ],
        9,
        Err(MapFault::Node(0, NodeFault::Depth(1))),
    ),
    (
        "six levels",
        MapKind::Tree,
        &[
            [0x0A, 0xF3, 1, 0, 4, 0, 6, 0, 0, 0, 0, 0],
            [0, 0, 0, 0, 11, 0, 0, 0, 0, 0, 0, 0],
        ],
        9,
        Err(MapFault::Node(0, NodeFault::Depth(6))),
    ),
    (
        "words",
        MapKind::Blocks,
        &[
            WORDS_0,
            WORDS_3,
            WORDS_6,
            WORDS_9,
            [12, 0, 0, 0, 0, 0, 0, 0, 0, 0, 0, 0],
        ],
        15,
        Ok(&[(20, 33), (50, 50)]),
    ),
    (
        "a hole",
        MapKind::Blocks,
        &[
            WORDS_0,
            WORDS_3,
            WORDS_6,
            WORDS_9,
            [12, 0, 0, 0, 0, 0, 0, 0, 0, 0, 0, 0],
        ],
        16,
        Err(MapFault::Hole(15)),
    ),
    (
        "a node and a place",
        MapKind::Blocks,
        &[
            WORDS_0,
            WORDS_3,
            WORDS_6,
            [29, 0, 0, 0, 30, 0, 0, 0, 12, 0, 0, 0],
            [12, 0, 0, 0, 0, 0, 0, 0, 0, 0, 0, 0],
        ],
        15,
        Err(MapFault::Twice(12)),
    ),
];

/// Puts the parts at the front.
fn put_parts(bytes: &mut [u8], parts: &[Part]) {
    for (i, part) in parts.iter().enumerate() {
        if i < 85 && 12 * i + 12 <= bytes.len() {
            bytes[12 * i..12 * i + 12].copy_from_slice(part);
        }
    }
}

/// A block of these parts, and zeros.
fn put_block(test: &impl Test, disk: &mut MemoryDisk, place: u64, parts: &[Part]) {
    let mut block = [0u8; 1024];
    put_parts(&mut block, parts);
    write_at(test, disk, place, &block)
}

/// Whether these are the stretches.
fn are_stretches(map: &FileMap, said: &[(u64, u64)]) -> bool {
    if map.extents.len() != said.len() {
        return false;
    }
    for (extent, (first, last)) in map.extents.iter().zip(said) {
        if extent.first != *first || extent.last != *last {
            return false;
        }
    }
    true
}

/// Whether that is what was to be read.
fn is_said(read: &Result<FileMap, ReadMapFault>, said: Said) -> bool {
    match (read, said) {
        (Ok(map), Ok(extents)) => are_stretches(map, extents),
        (Err(ReadMapFault::Map(fault)), Err(other)) => *fault == other,
        _ => false,
    }
}

/// Checks what is read of a map.
fn check_map(test: &impl Bench, disk: &mut MemoryDisk, row: &Row) {
    let (name, kind, parts, places, said) = row;
    let space = Space {
        low: 1,
        high: disk.blocks(),
        front: 1,
    };
    let mut root = [0u8; 60];
    put_parts(&mut root, parts);
    let read = read_map(test.alloc(), disk, &root, *kind, u64::from(*places), space);
    check_row(test, is_said(&read, *said), *name, "the map")
}

fn check_maps(test: &impl Bench) {
    let mut disk = zeros(test, test.alloc(), BlockSize::OneKib, 64);
    put_block(test, &mut disk, 10, &LEAF_IN_10);
    put_block(test, &mut disk, 11, &LOOP_IN_11);
    put_block(test, &mut disk, 12, &WORDS_IN_12);
    for row in &MAPS {
        check_map(test, &mut disk, row)
    }
}

#[test]
fn maps_are_read(rt: HostRuntime) {
    check_maps(&By(&rt, rt.alloc()))
}
