//! The superblock at the front of a disk, where checksums are allowed: what is read, what is refused, and what
//! cleaning writes.

use crate::checks::By;
use crate::checksums::{FORMS, Form};
use crate::superblocks::block_of_words;
use jb_block::{BlockSize, MOST_BYTES, Sums};
use jb_disk::Disk;
use jb_format::{CheckedFrontFault, clean_checked, sync_checked};
use jb_sums::put_super_sum;
use jb_super::{CheckedSuperFault, SuperFault};
use std::alloc::Global;
use tests_support::{Must, Test, check_row, fail, put_text, read_at, zeros};

/// The superblock of a journal of 33 blocks with one transaction, of number 2, and what recovering it leaves.
#[derive(Drop)]
struct Front {
    name: &'static str,
    size: BlockSize,
    sums: Sums,
    words: [&'static str; 2],
}

/// Those that are not among the forms of checksums that e2fsck wrote.
static OTHERS: [Front; 2] = [
    Front {
        name: "without checksums",
        size: BlockSize::OneKib,
        sums: Sums::Absent,
        words: [
            "0:c03b3998 4 0 400 21 1 2 1 28:1 30:10203 4050607 8090a0b c0d0e0f 1 50:3000000 fc:1020304",
            "0:c03b3998 4 0 400 21 1 3 0 28:1 30:10203 4050607 8090a0b c0d0e0f 1 50:3000000 fc:1020304",
        ],
    },
    // the bytes after the first 1,024 do not count
    Front {
        name: "blocks of 4,096 bytes",
        size: BlockSize::FourKib,
        sums: Sums::Whole,
        words: [
            "0:c03b3998 4 0 1000 21 1 2 1 28:13 30:10203 4050607 8090a0b c0d0e0f 1 50:4000000 fc:78f64da0 400:1",
            "0:c03b3998 4 0 1000 21 1 3 0 28:13 30:10203 4050607 8090a0b c0d0e0f 1 50:4000000 fc:ddf39ec7 400:1",
        ],
    },
];

/// A name, the superblock on a disk of 33 blocks of 1,024 bytes, whether its checksum is then made anew, and why it is
/// refused.
struct Refused(&'static str, &'static str, bool, CheckedSuperFault);

static REFUSED: [Refused; 5] = [
    Refused(
        "both forms",
        "0:c03b3998 4 0 400 21 1 2 1 28:19 30:10203 4050607 8090a0b c0d0e0f 1 50:4000000",
        true,
        CheckedSuperFault::Super(SuperFault::Feature(2, 24)),
    ),
    Refused(
        "another type",
        "0:c03b3998 4 0 400 21 1 2 1 28:11 30:10203 4050607 8090a0b c0d0e0f 1 50:1000000",
        true,
        CheckedSuperFault::ChecksumType(1),
    ),
    Refused(
        "a wrong checksum",
        "0:c03b3998 4 0 400 21 1 3 1 28:11 30:10203 4050607 8090a0b c0d0e0f 1 50:4000000 fc:2557addb",
        false,
        CheckedSuperFault::Checksum,
    ),
    Refused(
        "a smaller disk",
        "0:c03b3998 4 0 400 22 1 2 1 28:11 30:10203 4050607 8090a0b c0d0e0f 1 50:4000000",
        true,
        CheckedSuperFault::Super(SuperFault::Geometry),
    ),
    Refused(
        "another size",
        "0:c03b3998 4 0 800 21 1 2 1 28:11 30:10203 4050607 8090a0b c0d0e0f 1 50:4000000",
        true,
        CheckedSuperFault::Super(SuperFault::BlockSize(2048)),
    ),
];

/// The bytes of a block with these words.
fn bytes_of_words(words: &str) -> [u8; MOST_BYTES] {
    let mut bytes = [0; MOST_BYTES];
    put_text(&mut bytes, 0, words);
    bytes
}

/// Checks that a superblock is read, and what cleaning its journal leaves.
fn check_front(test: &impl Test, alloc: Global, front: &Front) {
    let mut disk = zeros(test, alloc, front.size, 33);
    let mut buf = bytes_of_words(front.words[0]);
    let block = &mut buf[..front.size.bytes() as usize];
    disk.write(0, block).must(test, "a write");
    let found = sync_checked(&mut disk, block).must(test, front.name);
    check_row(test, found.sums == front.sums, front.name, "its checksums");
    clean_checked(&mut disk, found.sums, 3, block).must(test, front.name);
    read_at(test, &mut disk, 0, block);
    let is_left = buf == bytes_of_words(front.words[1]);
    check_row(test, is_left, front.name, "what is left")
}

/// The superblock of a form of checksums, before a recovery and after it.
fn front_of(form: &Form) -> Front {
    Front {
        name: form.name,
        size: BlockSize::OneKib,
        sums: form.tags.layout.sums,
        words: form.supers,
    }
}

/// Checks why a superblock is refused.
fn check_refused(test: &impl Test, alloc: Global, refused: &Refused) {
    let Refused(name, words, is_summed, fault) = *refused;
    let mut disk = zeros(test, alloc, BlockSize::OneKib, 33);
    let mut block = block_of_words(words);
    if is_summed {
        put_super_sum(&mut block);
    }
    disk.write(0, &block).must(test, "a write");
    match sync_checked(&mut disk, &mut block) {
        Ok(_) => fail(test, name),
        Err(found) => {
            let is_told = found == CheckedFrontFault::Super(fault);
            check_row(test, is_told, name, "why it is refused")
        }
    }
}

fn check_fronts(test: &impl Test, alloc: Global) {
    for form in &FORMS {
        check_front(test, alloc, &front_of(form))
    }
    for front in &OTHERS {
        check_front(test, alloc, front)
    }
    for refused in &REFUSED {
        check_refused(test, alloc, refused)
    }
}

#[test]
fn superblocks_on_disks(rt: HostRuntime) {
    check_fronts(&By(&rt), rt.alloc())
}
