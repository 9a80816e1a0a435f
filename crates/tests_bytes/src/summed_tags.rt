//! Tags of logs with checksums.

use crate::superblocks::block_of_words;
use jb_block::Layout;
use jb_tags::{Tag, Waiting};
use tests_support::{Test, check_row};

/// What a descriptor's tags are by the form of its log.
pub struct TagsOf {
    /// How the blocks of the log are laid out.
    pub layout: Layout,
    /// The checksum that its tag keeps.
    pub sum: u32,
    /// How many tags without a UUID fit into a block of 1,024 bytes, before its own checksum.
    pub most: u32,
}

/// Checks that a descriptor has one tag, for home 5, which is escaped and the last, and keeps this checksum.
pub fn check_summed_tag(test: &impl Test, of: &TagsOf, name: &'static str, words: &str) {
    let mut waiting = Waiting::none();
    waiting.fill(&block_of_words(words), of.layout);
    let wanted = Tag {
        home: 5,
        flags: 9,
        sum: of.sum,
    };
    check_row(test, waiting.pop() == Some(wanted), name, "the tag");
    check_row(test, waiting.is_empty(), name, "one tag alone")
}

/// Checks how many tags a full block has.
pub fn check_most_tags(test: &impl Test, of: &TagsOf, name: &'static str) {
    let mut waiting = Waiting::none();
    waiting.fill(&[2; 1024], of.layout);
    for _ in 0..of.most {
        check_row(test, waiting.pop().is_some(), name, "the tags that fit");
    }
    check_row(test, waiting.is_empty(), name, "no more than fit")
}
