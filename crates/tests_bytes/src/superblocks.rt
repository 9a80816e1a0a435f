//! Superblocks as e2fsprogs 1.47.0 makes them, and what is read of them; the README says how they were made.

use crate::checks::By;
use jb_block::Width;
use jb_super::Super;
use tests_support::{Must, Test, check_in, put_text};

/// The UUID of each, in bytes.
static UUID_BYTES: [u8; 16] = [
    0x6A, 0x0B, 0x1C, 0x2D, 0x3E, 0x4F, 0x40, 0x51, 0x82, 0x63, 0x74, 0x85, 0x96, 0xA7, 0xB8, 0xC9,
];

/// debugfs, after it logged a block with checksums of transactions, and else as the last of the images.
pub const SUMMED: &str =
    "0:c03b3998 4 0 400 1000 1 1 1 0 1 2 0 6a0b1c2d 3e4f4051 82637485 96a7b8c9 1 0 0 0";

/// A superblock: its words, and what is read of it.
struct Image {
    name: &'static str,
    words: &'static str,
    width: Width,
    /// The header's number, the block size, `s_maxlen`, `s_first`, `s_sequence`, `s_start`, `s_errno`, the words of
    /// features, `s_nr_users`, `s_dynsuper`, `s_max_transaction`, `s_max_trans_data`; how many blocks the log has, and
    /// the most blocks of a transaction.
    fields: [u32; 16],
}

static IMAGES: [Image; 5] = [
    Image {
        name: "mke2fs, blocks of 1,024 bytes",
        words: "0:c03b3998 4 0 400 1000 1 1 30:6a0b1c2d 3e4f4051 82637485 96a7b8c9 1",
        width: Width::Narrow,
        fields: [0, 1024, 4096, 1, 1, 0, 0, 0, 0, 0, 1, 0, 0, 0, 4095, 1023],
    },
    // no feature of the journal names the fast commits yet, which it has room for
    Image {
        name: "mke2fs, blocks of 4,096 bytes and room for fast commits",
        words: "0:c03b3998 4 0 1000 410 1 1 30:6a0b1c2d 3e4f4051 82637485 96a7b8c9 1 54:10",
        width: Width::Narrow,
        fields: [0, 4096, 1040, 1, 1, 0, 0, 0, 0, 0, 1, 0, 0, 0, 1039, 259],
    },
    Image {
        name: "mke2fs, a journal on a device of its own",
        words: "0:c03b3998 4 0 400 10000 3 1 30:6a0b1c2d 3e4f4051 82637485 96a7b8c9",
        width: Width::Narrow,
        fields: [
            0, 1024, 65536, 3, 1, 0, 0, 0, 0, 0, 0, 0, 0, 0, 65533, 16383,
        ],
    },
    Image {
        name: "debugfs, after it revoked a block",
        words: "0:c03b3998 4 0 400 1000 1 1 1 0 0 1 0 6a0b1c2d 3e4f4051 82637485 96a7b8c9 1",
        width: Width::Narrow,
        fields: [0, 1024, 4096, 1, 1, 1, 0, 0, 1, 0, 1, 0, 0, 0, 4095, 1023],
    },
    Image {
        name: "debugfs, after it logged a block with 64-bit block numbers",
        words: "0:c03b3998 4 0 400 1000 1 1 1 0 0 2 0 6a0b1c2d 3e4f4051 82637485 96a7b8c9 1",
        width: Width::Wide,
        fields: [0, 1024, 4096, 1, 1, 1, 0, 0, 2, 0, 1, 0, 0, 0, 4095, 1023],
    },
];

/// A block of zeros with these words.
pub fn block_of_words(words: &str) -> [u8; 1024] {
    let mut block = [0; 1024];
    put_text(&mut block, 0, words);
    block
}

/// The fields of a superblock, in the order of an image's.
fn fields_of(sb: &Super) -> [u32; 16] {
    [
        sb.number(),
        sb.block_size().bytes(),
        sb.maxlen(),
        sb.first(),
        sb.sequence(),
        sb.start(),
        sb.errno(),
        sb.compat(),
        sb.incompat(),
        sb.ro_compat(),
        sb.nr_users(),
        sb.dynsuper(),
        sb.max_transaction(),
        sb.max_trans_data(),
        sb.usable(),
        sb.limit(),
    ]
}

/// Checks what is read of an image, that it is written back as it is, and the feature of revokes.
fn check_image(test: &impl Test, image: &Image, at: u64) {
    let name = image.name;
    let mut block = block_of_words(image.words);
    let sb = Super::read(&block).must(test, name);
    check_in(test, fields_of(&sb) == image.fields, name, "fields", at);
    check_in(test, sb.width() == image.width, name, "width", at);
    check_in(test, sb.uuid() == UUID_BYTES, name, "UUID", at);
    sb.write_into(&mut block);
    let is_same = block == block_of_words(image.words);
    check_in(test, is_same, name, "what is written", at);
    let revoking = sb.with_revoke();
    let is_revoking = revoking.incompat() == image.fields[8] | 1;
    check_in(test, is_revoking, name, "revokes", at);
    let is_same = revoking.width() == image.width;
    check_in(test, is_same, name, "its width with revokes", at)
}

fn check_images(test: &impl Test) {
    for (at, image) in IMAGES.iter().enumerate() {
        check_image(test, image, at as u64)
    }
}

#[test]
fn superblocks_of_e2fsprogs(rt: HostRuntime) {
    check_images(&By(&rt))
}
