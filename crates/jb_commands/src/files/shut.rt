//! Why an image is not opened. These faults name no file, so that what only passes them on borrows nothing; they become
//! a `CommandFault` where the words of the command are.
ghost use Rattle.std.specs.Prelude.{◌≡◌, IfErr, IfOk, List, Some, ℕ};
ghost use Rattle.jb_super.specs.declared.checked.Checksums.{Checksums};
ghost use Rattle.jb_commands.specs.Files.{IsShut, IsUnread};
ghost use Rattle.jb_commands.specs.JournalPlace.{IsShutWithin};
ghost use Rattle.jb_commands.specs.OpenRefusals.{IsFileShut, IsListShut, IsOwnShut, IsPairShut};
ghost use Rattle.jb_commands.specs.OwnPlace.{IsFrontShut, of_find};

use crate::fault::CommandFault;
use jb_args::{Holder, OptionName};
use jb_disk::Start;
use jb_ext::FindFault;
use jb_image::{ExtentsFault, FileSystemFault};
use jb_super::SuperFault;

/// Why a file is not opened as an image, or has no journal at its front.
#[derive(Clone, Copy)]
pub(crate) enum FileFault {
    /// It could not be opened or read; with the number of the system's error, where it has one.
    Unread(Option<i32>),
    /// Another program has locked it, or it would be changed and is mounted; with who has it, where that is known.
    InUse(Option<Holder>),
    /// It would be changed, and the system does not say whether it is mounted.
    MountsUnknown,
    /// Bytes of it are refused as a superblock.
    Super(SuperFault),
    /// Memory ran out.
    Memory,
}

/// Why an image that may be a file system is not opened.
#[derive(Clone, Copy)]
pub(crate) enum OwnShut {
    /// Its file is not opened, or its first bytes are refused.
    File(FileFault),
    /// The file system's own journal is not found.
    Find(FindFault),
}

/// Why an image in two files is not opened.
#[derive(Clone, Copy)]
pub(crate) enum PairFault {
    /// The two are one file.
    SameFile,
    /// The journal's file is not opened.
    Journal(FileFault),
    /// The journal's file has fewer blocks than the journal.
    Short,
    /// The journal's file has this many blocks, more than its superblock says, which is the second number.
    Long(u64, u32),
    /// The file of the home blocks is not opened.
    Homes(FileFault),
}

/// Why an image with its journal within the home blocks is not opened.
#[derive(Clone, Copy)]
pub(crate) enum WithinFault {
    /// The list is none of extents.
    List,
    /// The image's file is not opened.
    File(FileFault),
    /// The file system's blocks are none that a journal may have.
    System(FileSystemFault),
    /// The extents do not hold the journal.
    Extents(ExtentsFault),
}

/// What was opened, or the fault of the file of this name.
pub(crate) fn named<'a, V>(
    opened: Result<V, FileFault>,
    name: &'a str,
) -> Result<V, CommandFault<'a>>
    ensures opened { IfOk result (λ value. opened ≡ Ok value) }
    ensures shut { IfErr opened IsFileShut → IfErr result (IsUnread name.entry.now) }
{
    match opened {
        Ok(value) => Ok(value),
        Err(fault) => Err(fault_of(fault, name)),
    }
}

/// The same of an image that may be a file system.
pub(crate) fn named_front<'a, S: Start, V>(
    opened: Result<V, OwnShut>,
    name: &'a str,
) -> Result<V, CommandFault<'a>>
    ensures opened { IfOk result (λ value. opened ≡ Ok value) }
    ensures shut { (sums : Checksums) → IfErr opened (IsOwnShut sums S.Start)
        → IfErr result (IsFrontShut sums S.Start name.entry.now) }
{
    match opened {
        Ok(value) => Ok(value),
        Err(OwnShut::File(fault)) => Err(fault_of(fault, name)),
        Err(OwnShut::Find(fault)) => Err(fault_of_find(fault)),
    }
}

/// The fault of a command over a file system whose own journal is not found.
pub(crate) fn fault_of_find<'a>(fault: FindFault) -> CommandFault<'a>
    ensures { result ≡ of_find fault }
{
    match fault {
        FindFault::Own(fault) => CommandFault::Own(fault),
        FindFault::Super(fault) => CommandFault::Super(fault),
        FindFault::DeviceFault => CommandFault::DeviceFault(None),
        FindFault::Memory => CommandFault::Memory,
    }
}

/// The same of an image in two files: the home blocks in that of the first name.
pub(crate) fn named_pair<'a, V>(
    opened: Result<V, PairFault>,
    name: &'a str,
    journal: &'a str,
) -> Result<V, CommandFault<'a>>
    ensures opened { IfOk result (λ value. opened ≡ Ok value) }
    ensures shut { IfErr opened IsPairShut → IfErr result (IsShut name.entry.now (Some journal.entry.now)) }
{
    match opened {
        Ok(value) => Ok(value),
        Err(fault) => Err(fault_of_pair(fault, name, journal)),
    }
}

/// The same of an image with its journal within the home blocks.
pub(crate) fn named_within<'a, V>(
    opened: Result<V, WithinFault>,
    name: &'a str,
) -> Result<V, CommandFault<'a>>
    ensures opened { IfOk result (λ value. opened ≡ Ok value) }
    ensures shut { (list : List ℕ) → IfErr opened (IsListShut list)
        → IfErr result (IsShutWithin name.entry.now list) }
{
    match opened {
        Ok(value) => Ok(value),
        Err(fault) => Err(fault_within(fault, name)),
    }
}

/// The fault of a command over the file of this name.
fn fault_of<'a>(fault: FileFault, name: &'a str) -> CommandFault<'a>
    ensures { IsFileShut fault → IsUnread name.entry.now result }
{
    match fault {
        FileFault::Unread(code) => CommandFault::CannotRead(name, code),
        FileFault::InUse(holder) => CommandFault::InUse(name, holder),
        FileFault::MountsUnknown => CommandFault::MountsUnknown(name),
        FileFault::Super(fault) => CommandFault::Super(fault),
        FileFault::Memory => CommandFault::Memory,
    }
}

/// The fault of a command over two files.
fn fault_of_pair<'a>(fault: PairFault, name: &'a str, journal: &'a str) -> CommandFault<'a>
    ensures { IsPairShut fault → IsShut name.entry.now (Some journal.entry.now) result }
{
    match fault {
        PairFault::SameFile => CommandFault::SameFile(name),
        PairFault::Journal(fault) => fault_of(fault, journal),
        PairFault::Short => CommandFault::Super(SuperFault::Geometry),
        PairFault::Long(blocks, maxlen) => CommandFault::JournalLength(blocks, maxlen),
        PairFault::Homes(fault) => fault_of(fault, name),
    }
}

/// The fault of a command over a file with its journal within the home blocks.
fn fault_within<'a>(fault: WithinFault, name: &'a str) -> CommandFault<'a>
    ensures { (list : List ℕ) → IsListShut list fault → IsShutWithin name.entry.now list result }
{
    match fault {
        WithinFault::List => CommandFault::BadOption(OptionName::Extents),
        WithinFault::File(fault) => fault_of(fault, name),
        WithinFault::System(fault) => CommandFault::FileSystem(fault),
        WithinFault::Extents(fault) => CommandFault::Extents(fault),
    }
}

impl From<FileFault> for WithinFault {
    ghost use Rattle.std.specs.Prelude.{◌≡◌};
    ghost use Rattle.jb_commands.specs.declared.files.shut.WithinFault.TheVariants.{File};

    ghost from_gives = { λ fault stop. stop ≡ File fault };

    fn from(fault: FileFault) -> WithinFault {
        WithinFault::File(fault)
    }
}
