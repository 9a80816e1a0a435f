/// A command with its words, each command of `jb` that runs by itself, without threads.
#[derive(Clone, Copy)]
pub enum Plain<'a> {
    /// `jb cost FILE`: the log blocks that the whole queue takes as one group.
    Cost {
        /// The queue text, or `-` for standard input.
        file: &'a str,
    },
    /// `jb plan FILE`: a cut of the queue into groups that no other cut beats, with its certificate.
    Plan {
        /// The queue text, or `-` for standard input.
        file: &'a str,
    },
    /// `jb check FILE CERT`: whether a certificate of the queue is right, or its first fault.
    Check {
        /// The queue text.
        file: &'a str,
        /// The text of the certificate.
        cert: &'a str,
    },
    /// `jb dump FILE ..`: the text of a journal.
    Dump {
        /// The file with the whole journal at its front, or a file system with its journal in it, or the home blocks
        /// alone.
        file: &'a str,
        /// Which lines of the text, and where the journal is.
        options: DumpOptions<'a>,
    },
    /// `jb cat IMAGE HOME ..`: home blocks of an image, as recovery would leave them.
    Cat {
        /// The file with the journal and the home blocks, or the home blocks alone.
        image: &'a str,
        /// Which blocks, and how.
        options: CatOptions<'a>,
    },
    /// `jb format IMAGE ..`: a new file with a journal and home blocks.
    Format {
        /// The file to make.
        image: &'a str,
        /// What it is to be.
        options: FormatOptions<'a>,
    },
    /// `jb recover IMAGE ..`: the home blocks of an image as the committed transactions of its journal leave them.
    Recover {
        /// The file with the journal and the home blocks, or the home blocks alone.
        image: &'a str,
        /// Where the journal is, and what is to be done.
        options: RecoverOptions<'a>,
    },
    /// `jb renumber IMAGE ..`: the journal of an image, clean, with its first number again.
    Renumber {
        /// The file with the journal and the home blocks.
        image: &'a str,
        /// `--extents`: where the journal is within the image.
        extents: Option<&'a str>,
    },
    /// `jb widen IMAGE ..`: the journal of an image, clean, with block numbers of 64 bits.
    Widen {
        /// The file with the journal and the home blocks.
        image: &'a str,
        /// `--extents`: where the journal is within the image.
        extents: Option<&'a str>,
    },
}

/// The options of `jb dump` as they were given, not checked yet.
#[derive(Clone, Copy)]
pub struct DumpOptions<'a> {
    /// `--home`: the home block whose lines alone are printed.
    pub home: Option<u64>,
    /// `--last`: how many last transactions alone have their lines printed.
    pub last: Option<u64>,
    /// `--super`: whether the superblock alone is shown.
    pub superblock: bool,
    /// `--summary`: whether the journal at a glance is printed in place of all lines.
    pub summary: bool,
    /// `--draw`: whether after the journal at a glance its log is drawn, and the homes that are written most.
    pub drawn: bool,
    /// `--journal`: the file with the journal, where the file has the home blocks alone.
    pub journal: Option<&'a str>,
    /// `--extents`: where the journal is within the file.
    pub extents: Option<&'a str>,
    /// `--checksums`: whether a journal with checksums is taken, too.
    pub checksums: bool,
    /// `--ring`: whether the rest of its log is searched for a transaction that it has lost.
    pub ring: bool,
}

/// The words and options of `jb cat` after the image, as they were given, not checked yet.
#[derive(Clone, Copy)]
pub struct CatOptions<'a> {
    /// The number of the first home block.
    pub home: u64,
    /// `-n`: how many home blocks.
    pub count: u64,
    /// `--hex`: whether their bytes are written in hexadecimal digits.
    pub hex: bool,
    /// `--journal`: the file with the journal, where the image has the home blocks alone.
    pub journal: Option<&'a str>,
    /// `--extents`: where the journal is within the image.
    pub extents: Option<&'a str>,
    /// `--checksums`: whether a journal with checksums is taken, too.
    pub checksums: bool,
}

/// The options of `jb recover` as they were given, not checked yet.
#[derive(Clone, Copy)]
pub struct RecoverOptions<'a> {
    /// `--journal`: the file with the journal, where the image has the home blocks alone.
    pub journal: Option<&'a str>,
    /// `--extents`: where the journal is within the image.
    pub extents: Option<&'a str>,
    /// `--force`: whether a journal that seems not to be the file system's own is recovered.
    pub force: bool,
    /// `--dry-run`: whether nothing is written, and only said what would be done.
    pub dry_run: bool,
    /// `--list`: whether the home blocks that would be written are listed.
    pub list: bool,
    /// `--checksums`: whether a journal with checksums is taken, too.
    pub checksums: bool,
}

/// The options of `jb format` as they were given, not checked yet.
#[derive(Clone, Copy)]
pub struct FormatOptions<'a> {
    /// `--bs`: how many bytes a block has.
    pub bs: u64,
    /// `--journal`: how many blocks the journal has, its superblock counted.
    pub journal: u64,
    /// `--homes`: how many home blocks come after the journal.
    pub homes: u64,
    /// `--max`: the most log blocks of a transaction, 0 for a quarter of the log.
    pub max: u64,
    /// `--uuid`: the journal's UUID in hexadecimal digits.
    pub uuid: &'a str,
    /// `--wide`: whether the journal has block numbers of 64 bits.
    pub wide: bool,
    /// `--sparse`: whether a block gets room only when it is first written.
    pub sparse: bool,
}
