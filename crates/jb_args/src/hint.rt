ghost use Rattle.std.specs.Prelude.{◌≡◌};
ghost use Rattle.jb_args.specs.Advice.{advice_of, beside_of, finer_of};

use crate::diagnostics;
use crate::holder::Holder;
use crate::option_name::OptionName;
use jb_disk::Failure;

/// The line on standard error that a second line is about, with what that one says beside the words of the table: what
/// the first line has not.
#[derive(Clone, Copy)]
pub enum Hint {
    /// The first line of a queue text is not that of the block size.
    QueueBlockSizeLine,
    /// The second line of a queue text is not that of the limit.
    QueueLimitLine,
    /// A line of a queue text is not that of a handle.
    QueueHandleLine,
    /// A handle's word is none.
    QueueOpWord,
    /// The bytes of a word are none, or too many.
    QueueDataWord,
    /// A certificate's text breaks its form.
    CertificateSyntax,
    /// A certificate has not one price more than its queue has handles.
    CertificateLength,
    /// The first option that is bad.
    BadOption(OptionName),
    /// A file was not made; the number of the system's error, where it has one.
    CannotMake(Option<i32>),
    /// A file was not opened or read; the number of the system's error, where it has one.
    CannotRead(Option<i32>),
    /// A file is locked by another program, or mounted: by this process, or at this place, where the system says it.
    InUse(Option<Holder>),
    /// The system does not say whether a file is mounted.
    MountsUnknown,
    /// A file was not made, since its file system has no links.
    NoLinks,
    /// The image is the file of the journal, too.
    SameFile,
    /// A text is longer than it may be.
    TooLong,
    /// A read of a journal failed; the number of the system's error, where it has one.
    ReadFault(Option<i32>),
    /// A superblock is cut short.
    SuperShortBlock,
    /// A superblock has not the magic number.
    SuperNoMagic,
    /// A superblock is of another version.
    SuperNotVersion2,
    /// A superblock has another block size.
    SuperBlockSize,
    /// A superblock's numbers make no journal, or the file is too short for it.
    SuperGeometry,
    /// The journal's own file has too many blocks.
    JournalLength,
    /// A superblock has a feature that is not taken.
    SuperFeature,
    /// A superblock has a feature that is taken where checksums are.
    SuperSummed,
    /// A superblock has another type of checksums.
    SuperChecksumType,
    /// A superblock has a wrong checksum.
    SuperChecksum,
    /// A file system has another block size than the journal.
    FileSystemBlockSize,
    /// A file system has another UUID than the journal.
    FileSystemUuid,
    /// A file system needs no recovery.
    FileSystemClean,
    /// A file system was mounted after the latest commit of a copy of its journal.
    FileSystemNewer,
    /// A file system needs recovery, and a copy of its journal does not.
    FileSystemUnrecovered,
    /// A block is in two extents.
    ExtentsOverlap,
    /// An extent is not in the image.
    ExtentsPastEnd,
    /// The extents have fewer blocks than the journal.
    ExtentsShort,
    /// The extents have more blocks than the journal.
    ExtentsLong,
    /// No journal begins in the extents.
    ExtentsNoJournal,
    /// A journal begins in the extents in blocks of two sizes.
    ExtentsBlockSizes,
    /// The extents have the block of a file system's superblock.
    ExtentsFront,
    /// A home block holds the journal.
    ExtentsHome,
    /// The log of a journal in extents begins with no committed transaction.
    ExtentsNothing,
    /// The log of a journal in extents ends inside a transaction, at a block that is none of a journal.
    ExtentsBroken,
    /// The file system says another place of a block of the journal than the extents.
    ExtentsOther,
    /// The image is a journal, of a file system that is elsewhere.
    OwnDevice,
    /// A file system has features that are not known.
    OwnFeature,
    /// A file system has no journal.
    OwnNone,
    /// A file system's journal is on another device.
    OwnExternal,
    /// An image has no superblock of a file system.
    OwnNoSystem,
    /// A field of a file system's superblock is refused.
    OwnField,
    /// A group's descriptor is outside of the file system.
    OwnDescriptor,
    /// A group's table of inodes is outside of the file system.
    OwnTable,
    /// The inode of a journal is refused.
    OwnInode,
    /// The map of a journal's blocks is damaged.
    OwnMap,
    /// The superblock's copy of the map has other blocks.
    OwnDiffers,
    /// No journal begins at the first block of a journal's file.
    OwnNoSuper,
    /// A journal has more blocks than its file.
    OwnShort,
    /// A journal may not have this many blocks.
    Geometry,
    /// A block of the journal has a wrong checksum.
    BadChecksum,
    /// A commit block of a later transaction is after the end of a log.
    Lost,
    /// A revoke block is damaged.
    BadRevoke,
    /// A copy is for a home block that the image has not; how many it has, where that is known.
    HomeOutOfRange(Option<u64>),
    /// The image has not this home block; how many it has, where that is known.
    NoHome(Option<u64>),
    /// The log is not clean.
    NeedsRecovery,
    /// The journal has no number left for a transaction.
    NumbersSpent,
    /// A queue text has another block size than the image.
    BlockSize,
    /// A handle touches more blocks than one may.
    HandleTooManyCredits,
    /// A handle names a home block that the image has not; how many it has.
    HandleOutOfRange(u64),
    /// A handle found no room in the log.
    HandleFull,
    /// Memory ran out for a handle.
    HandleMemory,
    /// The journal had failed before a handle; the call of the disk that failed, where it is known.
    HandleAborted(Option<Failure>),
    /// No number is left for a group.
    CommitRefused,
    /// Memory ran out for the commits.
    CommitMemory,
    /// The journal failed under the commits; the call of the disk that failed, where it is known.
    CommitAborted(Option<Failure>),
    /// Memory ran out for the checkpoints.
    CheckpointMemory,
    /// The checkpoints stopped with the commits.
    CheckpointStopped,
    /// The journal failed under the checkpoints; the call of the disk that failed, where it is known.
    CheckpointAborted(Option<Failure>),
    /// The accounts of a load do not agree.
    Accounts,
    /// A call on an image failed: this one, where it is known.
    DeviceFault(Option<Failure>),
    /// Memory ran out.
    Memory,
    /// Standard output was not written.
    WriteFault,
}

/// A `match` of a hint with its finer status in each arm.
macro_rules! status_in {
    (
        $of:ident
        lines {
            $($hint:ident, $status:literal, $begins:literal, $rest:literal,
              $advice:literal $($more:literal)* $(: $beside:literal)?;)*
        }
        options { $($option:ident, $name:literal, $values:literal $($rest_values:literal)*;)* }
    ) => {
        match $of { $(Hint::$hint { .. } => $status),* }
    };
}

/// What a second line says beside the words of the table.
#[derive(Clone, Copy)]
pub(crate) enum HintArg {
    /// Nothing.
    Nothing,
    /// An option that is bad.
    BadOption(OptionName),
    /// The number of the system's error, whose text the library has.
    System(i32),
    /// A call of a disk that failed, with its reason.
    Failed(Failure),
    /// How many home blocks the image has.
    Homes(u64),
    /// Who has the file.
    Held(Holder),
}

/// A `match` of a hint with what to do in each arm.
macro_rules! advice_in {
    (
        $of:ident
        lines {
            $($hint:ident, $status:literal, $begins:literal, $rest:literal,
              $advice:literal $($more:literal)* $(: $beside:literal)?;)*
        }
        options { $($option:ident, $name:literal, $values:literal $($rest_values:literal)*;)* }
    ) => {
        match $of { $(Hint::$hint { .. } => concat!($advice $(, $more)*)),* }
    };
}

impl Hint {
    /// What to do, in the words of the table.
    #[tactic(auto, unfolding(crate::specs::Advice::advice_of))]
    pub fn advice(self) -> &'static str
        /// What to do, in the words of the hint's row.
        ensures { result.now ≡ advice_of self }
    {
        let hint = self;
        diagnostics!(advice_in, hint)
    }

    /// The finer status of a run that ends with this line: 2 for words, files and texts that cannot be taken, 3 for
    /// what is refused, 4 for a failed read or write, and 5 for want of memory.
    #[tactic(auto, unfolding(crate::specs::Advice::finer_of))]
    pub fn finer_status(self) -> u8
        ensures { result ≡ finer_of self }
    {
        let hint = self;
        diagnostics!(status_in, hint)
    }

    /// What is said beside the words of the table.
    pub(crate) fn beside(self) -> HintArg
        ensures { result ≡ beside_of self }
    {
        match self {
            Hint::BadOption(option) => HintArg::BadOption(option),
            Hint::CannotMake(Some(code))
            | Hint::CannotRead(Some(code))
            | Hint::ReadFault(Some(code)) => HintArg::System(code),
            Hint::InUse(Some(holder)) => HintArg::Held(holder),
            Hint::HomeOutOfRange(Some(homes)) | Hint::NoHome(Some(homes)) => HintArg::Homes(homes),
            Hint::HandleOutOfRange(homes) => HintArg::Homes(homes),
            Hint::HandleAborted(Some(failure)) | Hint::CommitAborted(Some(failure)) => {
                HintArg::Failed(failure)
            }
            Hint::CheckpointAborted(Some(failure)) | Hint::DeviceFault(Some(failure)) => {
                HintArg::Failed(failure)
            }
            _ => HintArg::Nothing,
        }
    }
}
