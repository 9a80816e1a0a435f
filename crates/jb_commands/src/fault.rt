ghost use Rattle.std.specs.Prelude.{◌≡◌};

use jb_args::{Holder, OptionName};
use jb_disk::Failure;
use jb_dump::DumpFault;
use jb_ext::OwnFault;
use jb_format::{ChangeFault, FormatFault};
use jb_image::{ExtentsFault, FileSystemFault};
use jb_recover::{CheckedFault, CheckedPeekFault};
use jb_scan::Summed;
use jb_super::{CheckedSuperFault, SuperFault};
use jb_text::WriteFault;
use std::alloc::AllocError;

/// Why a command ends without an answer of its own.
#[derive(Clone, Copy)]
pub enum CommandFault<'a> {
    /// The file of this name, or standard input for `-`, could not be opened or read; with the number of the system's
    /// error, where it has one.
    CannotRead(&'a str, Option<i32>),
    /// Another program has locked the image of this name, or it would be changed and is mounted; with which program or
    /// where, as far as the system says it.
    InUse(&'a str, Option<Holder>),
    /// The image of this name would be changed, and the system does not say whether it is mounted.
    MountsUnknown(&'a str),
    /// The file of this name was not made: its file system has no links.
    NoLinks(&'a str),
    /// The image of this name is the file of the journal, too.
    SameFile(&'a str),
    /// The file of this name could not be made: it is there already, or the system refuses it; with the number of the
    /// system's error, where it has one.
    CannotMake(&'a str, Option<i32>),
    /// This option is the first that has a value that it may not have.
    BadOption(OptionName),
    /// The file of this name has more bytes than a text may have.
    TooLong(&'a str),
    /// A read of the journal failed; with the number of the system's error, where it has one.
    ReadFault(Option<i32>),
    /// Journal block 0 is refused for this; `Geometry` also where there are fewer blocks than `s_maxlen`.
    Super(SuperFault),
    /// The journal's `s_checksum_type` is this, and not 4, CRC-32C.
    ChecksumType(u8),
    /// The journal's `s_checksum` is not the checksum of its superblock.
    SuperChecksum,
    /// The journal's own file has this many blocks, more than its superblock says (`s_maxlen`), which is the second
    /// number.
    JournalLength(u64, u32),
    /// The journal is not recovered into this file system.
    FileSystem(FileSystemFault),
    /// The extents do not hold the journal.
    Extents(ExtentsFault),
    /// The file system's own journal is not found.
    Own(OwnFault),
    /// The block at this place of the journal, of a committed transaction, has a wrong checksum.
    BadChecksum(Summed, u64),
    /// The block at this place of the journal, after the end of its log, is the commit block of the next transaction
    /// or of a later one.
    Lost(u64),
    /// The block at this place of the journal, of a committed transaction, is a revoke block whose `r_count` is above
    /// the block size.
    BadRevoke(u64),
    /// A copy that is not revoked is for this home block, which the image does not have; its transaction has this
    /// number. Last how many home blocks the image has, where that is known.
    HomeOutOfRange(u64, u32, Option<u64>),
    /// The image does not have this home block. Last how many it has, where that is known.
    NoHome(u64, Option<u64>),
    /// The log of the journal is not clean, and it is to be recovered first.
    NeedsRecovery,
    /// The journal has no number left for a transaction, and it is to be renumbered first.
    NumbersSpent,
    /// The block size of a queue text is not that of the image.
    BlockSize,
    /// The accounts of a load do not agree. This cannot happen.
    Accounts,
    /// The options make no journal: fewer than 9 blocks, or more than 2^31 - 1.
    Geometry,
    /// A call on an image that is used as a disk failed: this one, where it is known.
    DeviceFault(Option<Failure>),
    /// Memory ran out.
    Memory,
    /// Standard output could not be written.
    WriteFault,
}

impl<'a> From<AllocError> for CommandFault<'a> {
    ghost use Rattle.std.specs.Prelude.{◌≡◌};
    ghost use Rattle.jb_commands.specs.declared.fault.CommandFault.TheVariants.{Memory};

    ghost from_gives = { λ _ stop. stop ≡ Memory };

    fn from(_: AllocError) -> CommandFault<'a> {
        CommandFault::Memory
    }
}

impl<'a> From<WriteFault> for CommandFault<'a> {
    ghost use Rattle.std.specs.Prelude.{◌≡◌};
    ghost use Rattle.jb_commands.specs.declared.fault.CommandFault.TheVariants.{WriteFault as CommandWriteFault};

    ghost from_gives = { λ _ stop. stop ≡ CommandWriteFault };

    fn from(_: WriteFault) -> CommandFault<'a> {
        CommandFault::WriteFault
    }
}

impl<'a> From<DumpFault> for CommandFault<'a> {
    ghost use Rattle.std.specs.Prelude.{◌≡◌};
    ghost use Rattle.jb_commands.specs.Faults.{dump_fault};

    ghost from_gives = { λ fault stop. stop ≡ dump_fault fault };

    fn from(fault: DumpFault) -> CommandFault<'a> {
        match fault {
            DumpFault::ReadFault => CommandFault::ReadFault(None),
            DumpFault::WriteFault => CommandFault::WriteFault,
            DumpFault::Super(fault) => CommandFault::of_super(fault),
            DumpFault::BadChecksum(what, place) => CommandFault::BadChecksum(what, place),
            DumpFault::BadRevoke(place) => CommandFault::BadRevoke(place),
            DumpFault::Memory => CommandFault::Memory,
        }
    }
}

impl<'a> From<FormatFault> for CommandFault<'a> {
    ghost use Rattle.std.specs.Prelude.{◌≡◌};
    ghost use Rattle.jb_commands.specs.Faults.{format_fault};

    ghost from_gives = { λ fault stop. stop ≡ format_fault fault };

    fn from(fault: FormatFault) -> CommandFault<'a> {
        match fault {
            FormatFault::DeviceFault => CommandFault::DeviceFault(None),
            FormatFault::Geometry => CommandFault::Geometry,
        }
    }
}

impl<'a> From<ChangeFault> for CommandFault<'a> {
    ghost use Rattle.std.specs.Prelude.{◌≡◌};
    ghost use Rattle.jb_commands.specs.Faults.{change_fault};

    ghost from_gives = { λ fault stop. stop ≡ change_fault fault };

    fn from(fault: ChangeFault) -> CommandFault<'a> {
        match fault {
            ChangeFault::DeviceFault => CommandFault::DeviceFault(None),
            ChangeFault::Super(fault) => CommandFault::Super(fault),
            ChangeFault::NeedsRecovery => CommandFault::NeedsRecovery,
        }
    }
}

impl<'a> CommandFault<'a> {
    ghost use Rattle.jb_commands.specs.Faults.{peek_fault, recover_fault, super_fault, with_code, with_failure};

    /// The fault, with this call of the disk where one of it failed that is not known yet.
    pub fn with_failure(self, failure: Option<Failure>) -> CommandFault<'a>
        ensures value { result ≡ with_failure failure self.entry }
    {
        match self {
            CommandFault::DeviceFault(None) => CommandFault::DeviceFault(failure),
            fault => fault,
        }
    }

    /// The fault, with this number of the system's error where a read failed of which none is known yet.
    pub(crate) fn with_code(self, code: Option<i32>) -> CommandFault<'a>
        ensures value { result ≡ with_code code self.entry }
    {
        match self {
            CommandFault::ReadFault(None) => CommandFault::ReadFault(code),
            fault => fault,
        }
    }

    /// A fault of a recovery of an image with this many home blocks, where that is known.
    pub(crate) fn of_recovery(fault: CheckedFault, homes: Option<u64>) -> CommandFault<'a>
        ensures value { result ≡ recover_fault homes fault }
    {
        match fault {
            CheckedFault::DeviceFault => CommandFault::DeviceFault(None),
            CheckedFault::Super(fault) => CommandFault::of_super(fault),
            CheckedFault::BadChecksum(what, place) => CommandFault::BadChecksum(what, place),
            CheckedFault::BadRevoke(place) => CommandFault::BadRevoke(place),
            CheckedFault::HomeOutOfRange(home, number) => {
                CommandFault::HomeOutOfRange(home, number, homes)
            }
            CheckedFault::Memory => CommandFault::Memory,
        }
    }

    /// A fault of a peek into an image with this many home blocks, where that is known.
    pub(crate) fn of_peek(fault: CheckedPeekFault, homes: Option<u64>) -> CommandFault<'a>
        ensures value { result ≡ peek_fault homes fault }
    {
        match fault {
            CheckedPeekFault::DeviceFault => CommandFault::DeviceFault(None),
            CheckedPeekFault::Super(fault) => CommandFault::of_super(fault),
            CheckedPeekFault::BadChecksum(what, place) => CommandFault::BadChecksum(what, place),
            CheckedPeekFault::BadRevoke(place) => CommandFault::BadRevoke(place),
            CheckedPeekFault::HomeOutOfRange(home) => CommandFault::NoHome(home, homes),
        }
    }

    /// Why a superblock is refused, where a journal may have checksums.
    pub(crate) fn of_super(fault: CheckedSuperFault) -> CommandFault<'a>
        ensures value { result ≡ super_fault fault }
    {
        match fault {
            CheckedSuperFault::Super(fault) => CommandFault::Super(fault),
            CheckedSuperFault::ChecksumType(kind) => CommandFault::ChecksumType(kind),
            CheckedSuperFault::Checksum => CommandFault::SuperChecksum,
        }
    }
}
