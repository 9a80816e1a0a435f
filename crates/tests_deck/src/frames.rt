//! What no call of a journal changes, and no crash either: block 0 but for where the log begins and the number
//! there, and the blocks before the log. All blocks after the journal are homes on a disk as small as these.

use crate::cases::is_recovered;
use crate::contents::{Left, is_left};
use jb_block::put64;
use jb_disk::Disk;
use tests_support::{Bench, Must, check_at, read_at};

/// Where a superblock has the number of the first transaction and the place at which the log begins
/// (`s_sequence`, `s_start`), four bytes each.
const MOVES: usize = 0x18;

/// The blocks of a disk before its log, with zeros where the superblock may change.
#[derive(Drop)]
pub struct Frame {
    first: u64,
    bytes: Vec<u8>,
}

impl Frame {
    /// That of a disk whose log begins at this place (`s_first`).
    pub fn of<D: Disk>(test: &impl Bench, disk: &mut D, first: u64) -> Frame {
        let mut bytes = Vec::new(test.alloc());
        let mut block = [0; 1024];
        for place in 0..first {
            read_at(test, disk, place, &mut block);
            if place == 0 {
                put64(&mut block, MOVES, 0);
            }
            bytes.extend_from_slice(&block).must(test, "memory");
        }
        Frame { first, bytes }
    }

    /// Whether a disk has it still.
    pub fn is_kept<D: Disk>(&self, test: &impl Bench, disk: &mut D) -> bool {
        Frame::of(test, disk, self.first).bytes == self.bytes
    }
}

/// What a crash may leave: of the homes, before the log, and the place of home block 0.
#[derive(Drop)]
pub struct Wanted {
    pub left: Left,
    pub frame: Frame,
    pub homes: u64,
}

impl Wanted {
    /// Recovers what a crash left: the blocks before the log are kept, then too, and the homes may be left.
    /// `at` is which of the test's images it is.
    pub fn mend<D: Disk>(&self, test: &impl Bench, image: &mut D, at: u64) {
        let was_kept = self.frame.is_kept(test, image);
        check_at(test, was_kept, "changed before the log in", at);
        let is_mended = is_recovered(test.alloc(), image);
        check_at(test, is_mended, "it is not recovered in", at);
        let is_kept = self.frame.is_kept(test, image);
        check_at(test, is_kept, "recovery changed it in", at);
        let is_left = is_left(test, image, self.homes, &self.left);
        check_at(test, is_left, "the homes are none that may be left in", at)
    }
}
