//! Checksums: those that RFC 3720 gives, and those of a transaction in each form of tags, which e2fsck of e2fsprogs
//! 1.47.0 accepts and replays.

use crate::blocks::{DATA, UUID};
use crate::checks::By;
use crate::summed_tags::{TagsOf, check_most_tags, check_summed_tag};
use crate::superblocks::block_of_words;
use jb_block::{Layout, Sums, Width, put32};
use jb_crc::crc32c;
use jb_sums::{Seed, is_super_right, put_super_sum};
use tests_support::{Test, block_of, check, check_at, check_row};

/// Bytes, and their checksum as it is outside a journal: inverted at the end.
struct Sum(&'static [u8], u32);

static SUMS: [Sum; 5] = [
    Sum(b"123456789", 0xE306_9283),
    Sum(&[0; 32], 0x8A91_36AA),
    Sum(&[0xFF; 32], 0x62A8_AB43),
    Sum(
        &[
            0, 1, 2, 3, 4, 5, 6, 7, 8, 9, 10, 11, 12, 13, 14, 15, 16, 17, 18, 19, 20, 21, 22, 23,
            24, 25, 26, 27, 28, 29, 30, 31,
        ],
        0x46DD_794E,
    ),
    Sum(
        &[
            31, 30, 29, 28, 27, 26, 25, 24, 23, 22, 21, 20, 19, 18, 17, 16, 15, 14, 13, 12, 11, 10,
            9, 8, 7, 6, 5, 4, 3, 2, 1, 0,
        ],
        0x113F_DB5C,
    ),
];

/// The blocks of a journal with one transaction, of number 2: it frees home 7, and copies escaped data to home 5; what
/// its tags are; and its superblock, with the transaction and after its recovery.
pub struct Form {
    pub name: &'static str,
    pub tails: [&'static str; 2],
    pub tags: TagsOf,
    pub supers: [&'static str; 2],
}

pub static FORMS: [Form; 4] = [
    Form {
        name: "V3, narrow",
        tails: [
            "0:c03b3998 5 2 14 7 3fc:863e8dbd",
            "0:c03b3998 1 2 5 9 0 408b7374 10203 4050607 8090a0b c0d0e0f 3fc:4b753ea6",
        ],
        tags: TagsOf {
            layout: Layout {
                width: Width::Narrow,
                sums: Sums::Whole,
            },
            sum: 0x408B_7374,
            most: 63,
        },
        supers: [
            "0:c03b3998 4 0 400 21 1 2 1 28:11 30:10203 4050607 8090a0b c0d0e0f 1 50:4000000 fc:2557addb",
            "0:c03b3998 4 0 400 21 1 3 0 28:11 30:10203 4050607 8090a0b c0d0e0f 1 50:4000000 fc:80527ebc",
        ],
    },
    Form {
        name: "V3, wide",
        tails: [
            "0:c03b3998 5 2 18 0 7 3fc:c4410aef",
            "0:c03b3998 1 2 5 9 0 408b7374 10203 4050607 8090a0b c0d0e0f 3fc:4b753ea6",
        ],
        tags: TagsOf {
            layout: Layout {
                width: Width::Wide,
                sums: Sums::Whole,
            },
            sum: 0x408B_7374,
            most: 63,
        },
        supers: [
            "0:c03b3998 4 0 400 21 1 2 1 28:13 30:10203 4050607 8090a0b c0d0e0f 1 50:4000000 fc:1cf2358e",
            "0:c03b3998 4 0 400 21 1 3 0 28:13 30:10203 4050607 8090a0b c0d0e0f 1 50:4000000 fc:b9f7e6e9",
        ],
    },
    Form {
        name: "V2, narrow",
        tails: [
            "0:c03b3998 5 2 14 7 3fc:863e8dbd",
            "0:c03b3998 1 2 5 73740009 1 2030405 6070809 a0b0c0d e0f0000 3fc:c5c9ed73",
        ],
        tags: TagsOf {
            layout: Layout {
                width: Width::Narrow,
                sums: Sums::Short,
            },
            sum: 0x7374,
            most: 100,
        },
        supers: [
            "0:c03b3998 4 0 400 21 1 2 1 28:9 30:10203 4050607 8090a0b c0d0e0f 1 50:4000000 fc:0b0178d6",
            "0:c03b3998 4 0 400 21 1 3 0 28:9 30:10203 4050607 8090a0b c0d0e0f 1 50:4000000 fc:ae04abb1",
        ],
    },
    Form {
        name: "V2, wide",
        tails: [
            "0:c03b3998 5 2 18 0 7 3fc:c4410aef",
            "0:c03b3998 1 2 5 73740009 0 1 2030405 6070809 a0b0c0d e0f0000 3fc:2fb7103d",
        ],
        tags: TagsOf {
            layout: Layout {
                width: Width::Wide,
                sums: Sums::Short,
            },
            sum: 0x7374,
            most: 72,
        },
        supers: [
            "0:c03b3998 4 0 400 21 1 2 1 28:b 30:10203 4050607 8090a0b c0d0e0f 1 50:4000000 fc:32a4e083",
            "0:c03b3998 4 0 400 21 1 3 0 28:b 30:10203 4050607 8090a0b c0d0e0f 1 50:4000000 fc:97a133e4",
        ],
    },
];

/// Commit blocks of number 2, and whether each has its checksum: as it was written, with old bytes in its second
/// sector, and with another number.
static COMMITS: [(&str, bool); 3] = [
    ("0:c03b3998 2 2 0 240377d2", true),
    ("0:c03b3998 2 2 0 240377d2 200:c03b3998 5 1", true),
    ("0:c03b3998 2 3 0 240377d2", false),
];

/// Checks the checksums of bytes.
fn check_rfc_sums(test: &impl Test) {
    for (row, sum) in SUMS.iter().enumerate() {
        let found = !crc32c(u32::MAX, sum.0);
        check_at(test, found == sum.1, "the checksum of row", row as u64)
    }
}

/// Checks that a descriptor or revoke block has its checksum, and that just this one is written into it.
fn check_summed_tail(test: &impl Test, seed: Seed, name: &'static str, words: &str) {
    let wanted = block_of_words(words);
    check_row(test, seed.is_tail_right(&wanted), name, "a right block");
    let mut block = wanted;
    put32(&mut block, 1020, 1);
    check_row(test, !seed.is_tail_right(&block), name, "a wrong block");
    seed.put_tail_sum(&mut block);
    check_row(test, block == wanted, name, "what is written")
}

/// The same of a superblock.
fn check_summed_super(test: &impl Test, name: &'static str, words: &str) {
    let wanted = block_of_words(words);
    check_row(test, is_super_right(&wanted), name, "a right superblock");
    let mut block = wanted;
    put32(&mut block, 0xFC, 1);
    check_row(test, !is_super_right(&block), name, "a wrong superblock");
    put_super_sum(&mut block);
    check_row(test, block == wanted, name, "what is written into it")
}

/// Checks the blocks of each form.
fn check_each_form(test: &impl Test, seed: Seed) {
    for form in &FORMS {
        check_summed_tail(test, seed, form.name, form.tails[0]);
        check_summed_tail(test, seed, form.name, form.tails[1]);
        check_summed_super(test, form.name, form.supers[0]);
        check_summed_super(test, form.name, form.supers[1]);
        check_summed_tag(test, &form.tags, form.name, form.tails[1]);
        check_most_tags(test, &form.tags, form.name)
    }
}

/// Checks which commit blocks have their checksum.
fn check_commits(test: &impl Test, seed: Seed) {
    for (row, (words, is_right)) in COMMITS.iter().enumerate() {
        let found = seed.is_commit_right(&block_of_words(words));
        check_at(test, found == *is_right, "the commit of row", row as u64)
    }
}

fn check_checksums(test: &impl Test) {
    let seed = Seed::of(&UUID);
    check_rfc_sums(test);
    check_each_form(test, seed);
    check_commits(test, seed);
    let data = block_of(&DATA);
    check(test, seed.data_sum(2, &data) == 0x408B_7374, "of the data");
    check(test, seed.short_data_sum(2, &data) == 0x7374, "its half")
}

#[test]
fn checksums_of_blocks(rt: HostRuntime) {
    check_checksums(&By(&rt))
}
