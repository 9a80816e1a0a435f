//! The commands, each with its words and options in the order of the help.

use super::shared::{
    CHECKSUMS, DUMP_EXTENTS, DUMP_JOURNAL, EXTENTS, FILE, IMAGE, JOURNAL, NO_UUID,
};
use super::word::{CommandWord, WordKind};
use super::{CommandRow, RowKind, texts};

/// `jb cost`.
pub(super) static COST: CommandRow = CommandRow {
    name: "cost",
    kind: RowKind::Command,
    about: "Prints the log blocks that the queue takes as one group",
    more: texts::COST,
    words: &[FILE],
};

/// `jb plan`.
pub(super) static PLAN: CommandRow = CommandRow {
    name: "plan",
    kind: RowKind::Command,
    about: "Prints a least cut of the queue into groups, with its prices",
    more: texts::PLAN,
    words: &[FILE],
};

/// `jb check`.
pub(super) static CHECK: CommandRow = CommandRow {
    name: "check",
    kind: RowKind::Command,
    about: "Checks a certificate of the queue, whoever made it",
    more: texts::CHECK,
    words: &[
        CommandWord {
            name: "FILE",
            kind: WordKind::Word,
            help: "A queue text",
        },
        CommandWord {
            name: "CERT",
            kind: WordKind::Word,
            help: "A certificate, as jb plan prints it",
        },
    ],
};

/// `jb dump`.
pub(super) static DUMP: CommandRow = CommandRow {
    name: "dump",
    kind: RowKind::Command,
    about: "Prints the committed transactions of a journal, block by block",
    more: texts::DUMP,
    words: &[
        CommandWord {
            name: "FILE",
            kind: WordKind::Word,
            help: "A journal, or an ext2, ext3 or ext4 file system, whose journal\nis found; - for standard input",
        },
        CommandWord {
            name: "home",
            kind: WordKind::Number,
            help: "Only the lines that speak of home block N",
        },
        CommandWord {
            name: "last",
            kind: WordKind::Number,
            help: "Of the transactions only the last N",
        },
        CommandWord {
            name: "super",
            kind: WordKind::Flag,
            help: "Every field of the superblock alone, also of one\nthat is refused",
        },
        CommandWord {
            name: "summary",
            kind: WordKind::Flag,
            help: "The journal at a glance, in place of its lines",
        },
        CommandWord {
            name: "draw",
            kind: WordKind::Flag,
            help: "Draws the log, and the homes written most;\nfor --summary alone",
        },
        DUMP_JOURNAL,
        DUMP_EXTENTS,
        CHECKSUMS,
        CommandWord {
            name: "ring",
            kind: WordKind::Flag,
            help: "Searches the rest of the log for a lost transaction;\nfor --checksums alone",
        },
    ],
};

/// `jb cat`.
pub(super) static CAT: CommandRow = CommandRow {
    name: "cat",
    kind: RowKind::Command,
    about: "Writes home blocks of an image as recovery would leave them",
    more: texts::CAT,
    words: &[
        IMAGE,
        CommandWord {
            name: "HOME",
            kind: WordKind::NumberWord,
            help: "The number of the first home block",
        },
        CommandWord {
            name: "n",
            kind: WordKind::Count,
            help: "How many home blocks",
        },
        CommandWord {
            name: "hex",
            kind: WordKind::Flag,
            help: "Writes lines of hexadecimal digits, as xxd does",
        },
        JOURNAL,
        EXTENTS,
        CHECKSUMS,
    ],
};

/// `jb format`.
pub(super) static FORMAT: CommandRow = CommandRow {
    name: "format",
    kind: RowKind::Command,
    about: "Makes an image: a new journal, and home blocks of zeros after it",
    more: texts::FORMAT,
    words: &[
        CommandWord {
            name: "IMAGE",
            kind: WordKind::Word,
            help: "The file to make; an existing file is not overwritten",
        },
        CommandWord {
            name: "bs",
            kind: WordKind::RequiredNumber,
            help: "Bytes of a block: 1024, 2048 or 4096",
        },
        CommandWord {
            name: "journal",
            kind: WordKind::RequiredNumber,
            help: "Blocks of the journal, its superblock counted",
        },
        CommandWord {
            name: "homes",
            kind: WordKind::RequiredNumber,
            help: "Home blocks after the journal",
        },
        CommandWord {
            name: "max",
            kind: WordKind::NumberOr("N", "0"),
            help: "The most log blocks of a transaction; 0 for a quarter\nof the log",
        },
        CommandWord {
            name: "uuid",
            kind: WordKind::TextOr("HEX", NO_UUID),
            help: "The UUID in hex",
        },
        CommandWord {
            name: "wide",
            kind: WordKind::Flag,
            help: "Block numbers of 64 bits",
        },
        CommandWord {
            name: "sparse",
            kind: WordKind::Flag,
            help: "Takes no room for a block before it is first written",
        },
    ],
};

/// `jb load`.
pub(super) static LOAD: CommandRow = CommandRow {
    name: "load",
    kind: RowKind::Command,
    about: "Commits the handles of a queue text to an image, run by threads",
    more: texts::LOAD,
    words: &[
        IMAGE,
        CommandWord {
            name: "FILE",
            kind: WordKind::Word,
            help: "A queue text of the image's block size",
        },
        JOURNAL,
        EXTENTS,
        CommandWord {
            name: "threads",
            kind: WordKind::NumberOr("N", "1"),
            help: "How many threads run the handles, 1 to 64",
        },
        CommandWord {
            name: "hold",
            kind: WordKind::Flag,
            help: "Commits once all handles have run, as one batch",
        },
        CommandWord {
            name: "stamp",
            kind: WordKind::NumberOr("SEC", "0"),
            help: "The time of the commit blocks, in seconds since\n1970",
        },
        CommandWord {
            name: "checkpoint",
            kind: WordKind::Flag,
            help: "Writes home what is committed, too",
        },
    ],
};

/// `jb recover`.
pub(super) static RECOVER: CommandRow = CommandRow {
    name: "recover",
    kind: RowKind::Command,
    about: "Writes home what a journal has committed, and empties its log",
    more: texts::RECOVER,
    words: &[
        IMAGE,
        EXTENTS,
        JOURNAL,
        CommandWord {
            name: "force",
            kind: WordKind::Flag,
            help: "Recovers though the journal seems not its file\nsystem's own, or mounts are unknown",
        },
        CommandWord {
            name: "dry-run",
            kind: WordKind::Flag,
            help: "Says what would be done, and writes nothing",
        },
        CommandWord {
            name: "list",
            kind: WordKind::Flag,
            help: "With --dry-run: lists the home blocks that would be\nwritten",
        },
        CHECKSUMS,
    ],
};

/// `jb renumber`.
pub(super) static RENUMBER: CommandRow = CommandRow {
    name: "renumber",
    kind: RowKind::Command,
    about: "Restarts the transaction numbers of a clean journal at 1",
    more: texts::RENUMBER,
    words: &[IMAGE, EXTENTS],
};

/// `jb widen`.
pub(super) static WIDEN: CommandRow = CommandRow {
    name: "widen",
    kind: RowKind::Command,
    about: "Gives a clean journal block numbers of 64 bits",
    more: texts::WIDEN,
    words: &[IMAGE, EXTENTS],
};

/// `jb completions`.
pub(super) static COMPLETIONS: CommandRow = CommandRow {
    name: "completions",
    kind: RowKind::Command,
    about: "Prints a script by which a shell completes the words of jb",
    more: texts::COMPLETIONS,
    words: &[CommandWord {
        name: "SHELL",
        kind: WordKind::Word,
        help: "bash, zsh or fish",
    }],
};
