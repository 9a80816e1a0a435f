//! What no call over a clean or a dirty journal changes, and no crash in one either: block 0 but for where the log
//! begins, the number there and the superblock's checksum, and the blocks before the log. All blocks after the
//! journal are homes on a disk as small as these.

use jb_block::{get32, put32, put64};
use jb_disk::Disk;
use tests_support::{Test, difference_below, read_at};

/// Where a superblock has the place of the log's first block (`s_first`).
const FIRST: usize = 0x14;

/// Where it has the number of the first transaction and the place at which the log begins (`s_sequence`, `s_start`),
/// four bytes each.
const MOVES: usize = 0x18;

/// Where it has its checksum (`s_checksum`).
const CHECKSUM: usize = 0xFC;

/// Block 0, of 1 KiB, with zeros where it may change.
fn front<D: Disk>(test: &impl Test, disk: &mut D) -> [u8; 1024] {
    let mut block = [0; 1024];
    read_at(test, disk, 0, &mut block);
    put64(&mut block, MOVES, 0);
    put32(&mut block, CHECKSUM, 0);
    block
}

/// Whether a disk has the same as a wanted one in the blocks before the wanted one's log.
pub fn same_frame<A: Disk, B: Disk>(test: &impl Test, disk: &mut A, wanted: &mut B) -> bool {
    let front_block = front(test, wanted);
    if front(test, disk) != front_block {
        return false;
    }
    let first = u64::from(get32(&front_block, FIRST));
    difference_below(test, disk, wanted, 1, first).is_none()
}
