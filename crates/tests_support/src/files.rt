//! Disks in files.
use crate::checks::{Must, Test};
use crate::disks::read_at;
use jb_disk::Disk;
use std::fs::{File, OpenOptions};
use std::io::Write;
use std::rt::Files;

/// Writes the blocks of a disk, of 1 KiB, from one place on and up to another, to a file of this name.
pub fn write_blocks(
    test: &impl Test,
    rt: &impl Files<File = File>,
    disk: &mut impl Disk,
    name: &str,
    from: u64,
    to: u64,
) {
    let mut file = File::create(rt, name).must(test, "a file");
    let mut block = [0; 1024];
    for place in from..to {
        read_at(test, disk, place, &mut block);
        file.write_all(&block).must(test, "a block of a file");
    }
}

/// A file that may be read and written.
pub fn opened(test: &impl Test, rt: &impl Files<File = File>, name: &str) -> File {
    let file = OpenOptions::new().read(true).write(true).open(rt, name);
    file.must(test, "a file is not opened")
}
