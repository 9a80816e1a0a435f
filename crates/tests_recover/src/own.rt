//! A file system's own journal, found in its image.

use crate::checks::By;
use jb_block::BlockSize;
use jb_disk::MemoryDisk;
use jb_ext::{FindFault, InodeFault, MapSource, OwnFault, OwnJournal, find_journal};
use jb_super::Checksums;
use tests_support::{Bench, Test, check, write_at, zeros};

/// Bytes of a block, from this one on.
type Field = (usize, &'static [u8]);

/// The superblock of a file system of 1,200 blocks of 1 KiB, in one group with eight inodes, of which the last has the
/// journal.
static SUPERBLOCK: [Field; 11] = [
    (0x00, &[8]),
    (0x04, &[0xB0, 4]),
    (0x14, &[1]),
    (0x20, &[0, 0x20]),
    (0x28, &[8]),
    (0x38, &[0x53, 0xEF]),
    (0x4C, &[1]),
    (0x58, &[128]),
    (0x5C, &[4]),
    (0x60, &[0x40]),
    (0xE0, &[8]),
];

/// The descriptor of its group: the inodes are in block 3.
static DESCRIPTOR: [Field; 1] = [(8, &[3])];

/// The last of these inodes: a regular file of 1,024 blocks from block 20 on, by an extent.
static INODE: [Field; 6] = [
    (896, &[0x80, 0x81]),
    (900, &[0, 0, 0x10]),
    (896 + 0x1A, &[1]),
    (896 + 0x22, &[8]),
    (896 + 0x28, &[0x0A, 0xF3, 1, 0, 4]),
    (896 + 0x34, &[0, 0, 0, 0, 0, 4, 0, 0, 20]),
];

/// The same without a name.
static UNLINKED: [Field; 1] = [(896, &[0x80, 0x81])];

/// The superblock of a journal of 33 blocks.
static JOURNAL: [Field; 3] = [
    (0, &[0xC0, 0x3B, 0x39, 0x98, 0, 0, 0, 4]),
    (12, &[0, 0, 4, 0, 0, 0, 0, 33, 0, 0, 0, 1, 0, 0, 0, 2]),
    (0x40, &[0, 0, 0, 1]),
];

/// Puts a field into a block.
fn put_field(block: &mut [u8; 1024], field: &Field) {
    let (at, bytes) = field;
    if *at < 1024 && bytes.len() <= 1024 - *at {
        block[*at..*at + bytes.len()].copy_from_slice(bytes);
    }
}

/// Writes a block of these fields, and zeros.
fn put_fields(test: &impl Test, disk: &mut MemoryDisk, place: u64, fields: &[Field]) {
    let mut block = [0u8; 1024];
    for field in fields {
        put_field(&mut block, field)
    }
    write_at(test, disk, place, &block)
}

/// Whether this is the journal of 33 blocks from block 20 on.
fn is_found(found: &Result<OwnJournal, FindFault>) -> bool {
    match found {
        Ok(own) => is_own(own),
        Err(_) => false,
    }
}

fn is_own(own: &OwnJournal) -> bool {
    if own.extents.len() != 1 || own.sb.maxlen() != 33 {
        return false;
    }
    let extent = own.extents[0];
    extent.first == 20 && extent.last == 52 && matches!(own.by, MapSource::Inode)
}

/// Whether its inode is refused, since no folder has a name of it.
fn is_unlinked(found: &Result<OwnJournal, FindFault>) -> bool {
    matches!(
        found,
        Err(FindFault::Own(OwnFault::Inode(InodeFault::NoLink)))
    )
}

fn check_own(test: &impl Bench) {
    let mut disk = zeros(test, test.alloc(), BlockSize::OneKib, 1200);
    put_fields(test, &mut disk, 1, &SUPERBLOCK);
    put_fields(test, &mut disk, 2, &DESCRIPTOR);
    put_fields(test, &mut disk, 3, &INODE);
    put_fields(test, &mut disk, 20, &JOURNAL);
    let found = find_journal(test.alloc(), &mut disk, Checksums::Refused);
    check(test, is_found(&found), "the journal");
    put_fields(test, &mut disk, 3, &UNLINKED);
    let found = find_journal(test.alloc(), &mut disk, Checksums::Refused);
    check(test, is_unlinked(&found), "an inode without a name")
}

#[test]
fn a_file_systems_own_journal_is_found(rt: HostRuntime) {
    check_own(&By(&rt, rt.alloc()))
}
