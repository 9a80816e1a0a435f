//! A small image whose journal is on a disk of its own, or within the home blocks.

use crate::small::{BLOCKS, HOMES};
use jb_block::BlockSize;
use jb_disk::{Disk, MemoryDisk};
use jb_image::{Extents, ExtentsDisk, PairDisk};
use tests_support::{Bench, Must, Test, read_at, write_at, zeros};

/// Writes the blocks of a disk to another, and syncs.
fn fill<D: Disk>(test: &impl Test, disk: &mut D, whole: &mut MemoryDisk) {
    let mut block = [0; 1024];
    for place in 0..whole.blocks() {
        read_at(test, whole, place, &mut block);
        write_at(test, disk, place, &block);
    }
    disk.sync().must(test, "a sync")
}

/// The journal and the home blocks of an image, each on a disk of its own.
pub fn apart(test: &impl Bench, whole: &mut MemoryDisk) -> (MemoryDisk, MemoryDisk) {
    let (alloc, size) = (test.alloc(), BlockSize::OneKib);
    let homes = whole.blocks().saturating_sub(HOMES);
    let journal = zeros(test, alloc, size, HOMES);
    let mut pair = PairDisk::of(journal, zeros(test, alloc, size, homes));
    fill(test, &mut pair, whole);
    pair.into_parts()
}

/// An image with the journal in two extents after its home blocks, as one disk.
pub fn within<D: Disk>(test: &impl Bench, image: D) -> ExtentsDisk<D> {
    let extents = Extents::read(test.alloc(), b"(0-19):29-48, (20-32):16-28");
    ExtentsDisk::of(image, extents.must(test, "a list"), HOMES)
}

/// Such an image of the journal and the home blocks of another.
pub fn within_of(test: &impl Bench, whole: &mut MemoryDisk) -> MemoryDisk {
    let image = zeros(test, test.alloc(), BlockSize::OneKib, BLOCKS);
    let mut disk = within(test, image);
    fill(test, &mut disk, whole);
    disk.into_inner()
}
