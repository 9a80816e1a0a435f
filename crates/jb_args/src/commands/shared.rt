//! Words and options that several commands have.

use super::word::{CommandWord, WordKind};

/// The file of a command over one image.
pub(super) const IMAGE: CommandWord = CommandWord {
    name: "IMAGE",
    kind: WordKind::Word,
    help: "A journal and the home blocks after it, or an ext2, ext3 or\next4 file system, whose journal is found",
};

/// The file of a command over one queue text.
pub(super) const FILE: CommandWord = CommandWord {
    name: "FILE",
    kind: WordKind::Word,
    help: "A queue text, or - for standard input",
};

/// The option for the file with the journal.
pub(super) const JOURNAL: CommandWord = CommandWord {
    name: "journal",
    kind: WordKind::Text("FILE"),
    help: "The file with the journal; IMAGE has the home blocks\nalone then",
};

/// The option for where the journal is within the image.
pub(super) const EXTENTS: CommandWord = CommandWord {
    name: "extents",
    kind: WordKind::Text("LIST"),
    help: "Where the journal stands within IMAGE, as debugfs\nlists its blocks; - or @FILE has it",
};

/// The same of `jb dump`, whose image is FILE.
pub(super) const DUMP_JOURNAL: CommandWord = CommandWord {
    name: "journal",
    kind: WordKind::Text("JOURNAL"),
    help: "The file with the journal; FILE has the home blocks\nalone then",
};

/// The same.
pub(super) const DUMP_EXTENTS: CommandWord = CommandWord {
    name: "extents",
    kind: WordKind::Text("LIST"),
    help: "Where the journal stands within FILE, as debugfs\nlists its blocks; - or @FILE has it",
};

/// The option by which a journal with checksums is taken.
pub(super) const CHECKSUMS: CommandWord = CommandWord {
    name: "checksums",
    kind: WordKind::Flag,
    help: "Takes a journal with checksums, too, and judges it\nby them",
};

/// What `--uuid` is where it is not given.
pub(super) const NO_UUID: &str = "00000000000000000000000000000000";
