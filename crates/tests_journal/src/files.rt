//! The file of an image, and how many blocks it has once it is opened or made.
use crate::checks::{By, FileHost};
use jb_image::{ImageFault, MakeFault, Opening, create_image, open_image};
use jb_journal::{BlockSize, Disk, FileDisk, ImageGeometry, JournalFault, open, open_or_create};
use std::fs;
use tests_support::Must;

/// The image, and the name under which it is made.
pub const NAME: &str = "image.img";

pub const UNFINISHED: &str = "image.img.jb-unfinished";

/// A journal of 33 blocks, and sixteen homes.
pub fn geometry() -> ImageGeometry {
    ImageGeometry::new(BlockSize::OneKib, 33, 16)
}

/// Removes what a test before may have left.
pub fn fresh(rt: &impl FileHost) {
    let _none = fs::remove_file(rt, NAME);
    let _none = fs::remove_file(rt, UNFINISHED);
}

/// Whether there is a file of this name.
pub fn exists(rt: &impl FileHost, name: &str) -> bool {
    fs::exists(rt, name).must(
        &By(rt, rt.alloc()),
        "the system does not say which files there are",
    )
}

/// How many blocks a disk has that was opened or made.
pub fn blocks_of<E>(disk: Result<FileDisk, E>) -> Result<u64, E> {
    match disk {
        Ok(disk) => Ok(disk.blocks()),
        Err(fault) => Err(fault),
    }
}

/// Opens the image for a journal.
pub fn opened(rt: &impl FileHost) -> Result<u64, JournalFault> {
    blocks_of(open(rt, NAME, BlockSize::OneKib))
}

/// Opens the image for a journal, or makes it.
pub fn opened_or_made(rt: &impl FileHost, geometry: ImageGeometry) -> Result<u64, JournalFault> {
    blocks_of(open_or_create(rt, NAME, geometry))
}

/// Opens the image as a disk.
pub fn looked_at(rt: &impl FileHost, opening: Opening) -> Result<u64, ImageFault> {
    blocks_of(open_image(rt, NAME, BlockSize::OneKib, opening))
}

/// Makes the image.
pub fn made(rt: &impl FileHost, geometry: ImageGeometry) -> Result<u64, MakeFault> {
    blocks_of(create_image(rt, NAME, geometry))
}
