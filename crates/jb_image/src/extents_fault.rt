use jb_block::Memory;

/// Why a text is no list of extents.
#[derive(Clone, Copy, Debug, PartialEq, Eq)]
pub enum ListFault {
    /// It is not as debugfs lists them.
    Syntax,
    /// Memory ran out.
    Memory,
}

impl From<Memory> for ListFault {
    ghost use Rattle.std.specs.Prelude.{◌≡◌};
    ghost use Rattle.jb_image.specs.declared.extents_fault.ListFault.TheVariants.{Memory};

    ghost from_gives = { λ _ fault. fault ≡ Memory };

    fn from(_: Memory) -> ListFault {
        ListFault::Memory
    }
}

/// Why extents hold no journal.
#[derive(Clone, Copy, Debug, PartialEq, Eq)]
pub enum ExtentsFault {
    /// This block is in two of them.
    Overlap(u64),
    /// This block is not in the image.
    PastEnd(u64),
    /// They have this many blocks, and the journal more.
    Short(u64),
    /// They have this many blocks, and the journal fewer.
    Long(u64),
    /// No journal begins at the first of them.
    NoJournal,
    /// A journal begins at the first of them in blocks of the one number of bytes, and in those of the other.
    BlockSizes(u32, u32),
    /// They have this block, which has the image's byte 1,024: a file system's superblock is there.
    Front(u64),
    /// A copy is for this home block, which is one of the journal's own; or this one was asked for.
    Home(u64),
    /// The log is not clean, and it begins with no committed transaction.
    Nothing,
    /// The log is not clean, and ends inside a transaction, at this block of the journal, which has not its magic.
    Broken(u64),
    /// This block of the journal is elsewhere in the file system, as that says itself.
    Other(u64),
}
