//! Home blocks whose contents are known by a number, and what a crash may leave of them.

use crate::images::MAGIC;
use crate::model::Homes;
use jb_disk::Disk;
use tests_support::{Test, put_words, read_at};

/// What a crash may leave: all homes as they were or all as they become, and of one home each sector as
/// it is or as these contents have it.
#[derive(Clone, Copy)]
pub struct Left {
    pub was: Homes,
    pub becomes: Homes,
    pub torn: Option<(usize, u32)>,
}

/// What a crash leaves where only this is possible.
pub fn only(homes: Homes) -> Left {
    Left {
        was: homes,
        becomes: homes,
        torn: None,
    }
}

/// The number of the contents that are eight bytes, which the log escapes, and zeros.
pub const EIGHT: u32 = 0x0102_0304;

/// Fills a block with the contents of this number, which show in each sector but those of `EIGHT`. One number in four
/// makes it begin as a commit block does, and another one as an escaped copy.
pub fn fill(block: &mut [u8], number: u32) {
    let front = match number % 4 {
        1 => [0, 2, number, number],
        3 => [MAGIC, 2, number, number],
        _ => [number, if number == 0 { 0 } else { 2 }, number, number],
    };
    let (first, rest) = if number == EIGHT {
        ([MAGIC, EIGHT, 0, 0], 0)
    } else {
        (front, number)
    };
    put_words(block, 0, &first);
    for at in [0x1F0, 0x200, 0x3F0] {
        put_words(block, at, &[rest, rest, rest, rest]);
    }
}

/// Whether the disk has these homes, from a place on; sectors of one home may be of other contents.
pub fn holds<D: Disk>(
    test: &impl Test,
    disk: &mut D,
    first: u64,
    homes: &Homes,
    torn: Option<(usize, u32)>,
) -> bool {
    let mut block = [0; 1024];
    for (home, number) in homes.iter().enumerate() {
        read_at(test, disk, first.saturating_add(home as u64), &mut block);
        if !has_either(&block, *number, other_of(torn, home, *number)) {
            return false;
        }
    }
    true
}

/// The other contents of a home's sectors, or these where it has none.
fn other_of(torn: Option<(usize, u32)>, home: usize, number: u32) -> u32 {
    match torn {
        Some((at, contents)) if at == home => contents,
        _ => number,
    }
}

/// Whether each sector of a block has the contents of one number or of the other.
fn has_either(block: &[u8; 1024], number: u32, other: u32) -> bool {
    let mut one = [0; 1024];
    let mut two = [0; 1024];
    fill(&mut one, number);
    fill(&mut two, other);
    is_mixed(block, &one, &two)
}

/// Whether each sector of a block is that of one block or of the other.
fn is_mixed(block: &[u8; 1024], one: &[u8; 1024], other: &[u8; 1024]) -> bool {
    is_either(&block[..512], &one[..512], &other[..512])
        && is_either(&block[512..], &one[512..], &other[512..])
}

/// Whether bytes are these or those.
fn is_either(bytes: &[u8], one: &[u8], other: &[u8]) -> bool {
    bytes == one || bytes == other
}

/// Whether the homes of a disk, from a place on, are among what a crash may leave.
pub fn is_left<D: Disk>(test: &impl Test, disk: &mut D, first: u64, left: &Left) -> bool {
    holds(test, disk, first, &left.was, left.torn)
        || holds(test, disk, first, &left.becomes, left.torn)
}
