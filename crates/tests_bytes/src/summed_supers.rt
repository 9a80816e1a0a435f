//! Superblocks where checksums are allowed: what is taken, and what is refused.

use crate::checks::By;
use crate::superblocks::block_of_words;
use jb_block::{Sums, put32};
use jb_sums::put_super_sum;
use jb_super::Super;
use std::fmt::InlineText;
use tests_support::{Test, check_in};

/// A superblock with CSUM_V3 and its checksum.
const SUMMED: &str =
    "0:c03b3998 4 0 400 21 1 2 1 28:11 30:10203 4050607 8090a0b c0d0e0f 1 50:4000000 fc:2557addb";

/// An offset, the word there, where all others are as they were; whether the checksum is then written anew; and what
/// is printed.
struct Changed(usize, u32, bool, &'static str);

static CHANGED: [Changed; 17] = [
    Changed(0x18, 2, false, "V3"),
    Changed(0x18, 9, false, "Checksum"),
    Changed(0x18, 9, true, "V3"),
    Changed(0xFC, 0, false, "Checksum"),
    Changed(0x28, 0x13, true, "V3"),
    Changed(0x28, 0x8, true, "V2"),
    Changed(0x28, 0xB, false, "Checksum"),
    Changed(0x28, 0x1, false, "none"),
    Changed(0x28, 0x19, false, "Feature 2 24"),
    Changed(0x28, 0x3C, true, "Feature 2 36"),
    Changed(0x24, 1, true, "Feature 1 1"),
    Changed(0x2C, 0x40, true, "Feature 3 64"),
    Changed(0x50, 0x100_0000, true, "ChecksumType 1"),
    Changed(0x50, 0x4FF_FFFF, true, "V3"),
    Changed(0x1C, 33, false, "Geometry"),
    Changed(0x0C, 512, false, "BlockSize 512"),
    Changed(0x00, 0, false, "NoMagic"),
];

/// What is printed of a block: the form of its checksums, or why it is refused.
fn told(block: &[u8]) -> InlineText<64> {
    match Super::read_checked(block) {
        Ok(found) => InlineText::of(form_of(found.sums)),
        Err(fault) => InlineText::of(fault),
    }
}

fn form_of(sums: Sums) -> &'static str {
    match sums {
        Sums::Absent => "none",
        Sums::Short => "V2",
        Sums::Whole => "V3",
    }
}

/// The superblock with the word of a row.
fn changed_block(changed: &Changed) -> [u8; 1024] {
    let mut block = block_of_words(SUMMED);
    if changed.0 <= 1020 {
        put32(&mut block, changed.0, changed.1);
    }
    if changed.2 {
        put_super_sum(&mut block);
    }
    block
}

/// Checks what is printed of a block.
fn check_printed(test: &impl Test, block: &[u8], wanted: &'static str, row: u64) {
    let text = told(block);
    check_in(test, text.as_str() == wanted, wanted, "of row", row)
}

fn check_changed(test: &impl Test) {
    for (row, changed) in CHANGED.iter().enumerate() {
        check_printed(test, &changed_block(changed), changed.3, row as u64)
    }
    check_printed(test, &[0; 1023], "ShortBlock", 17)
}

#[test]
fn superblocks_with_checksums(rt: HostRuntime) {
    check_changed(&By(&rt))
}
