//! What a second line is about, of each fault of a command and of a load.

use crate::checks::fail;
use crate::hints::check_hint;
use crate::runs::Host;
use jb_args::{Hint, OptionName};
use jb_desk::Ended;
use jb_disk::Unknown;
use jb_ext::{FieldName, InodeFault, OwnFault};
use jb_image::{ExtentsFault, FileSystemFault};
use jb_map::{MapFault, NodeFault};
use jb_scan::Summed;
use jb_super::SuperFault;
use jb_tool::{AnswerForm, CommandFault, LoadDone, LoadReport, Loaded, QueueHandleFault, Refused};

/// Each fault of a command, with what the second line says beside the words of its row.
static FAULTS: [(CommandFault<'static>, &str); 69] = [
    (
        CommandFault::CannotRead("a", Some(2)),
        ": No such file or directory (os error 2)",
    ),
    (CommandFault::CannotRead("a", None), ""),
    (CommandFault::InUse("a", None), ""),
    (CommandFault::MountsUnknown("a"), ""),
    (CommandFault::NoLinks("a"), ""),
    (CommandFault::SameFile("a"), ""),
    (
        CommandFault::CannotMake("a", Some(17)),
        ": File exists (os error 17)",
    ),
    (CommandFault::CannotMake("a", None), ""),
    (
        CommandFault::BadOption(OptionName::List),
        ": --list is for --dry-run alone",
    ),
    (
        CommandFault::BadOption(OptionName::Extents),
        ": --extents is a list as debugfs prints it, as (0-1023):8193-9216, (1024):9300, or - or @FILE \
         for its text; not with --journal",
    ),
    (CommandFault::TooLong("a"), ""),
    (CommandFault::ReadFault(None), ""),
    (
        CommandFault::ReadFault(Some(5)),
        ": Input/output error (os error 5)",
    ),
    (CommandFault::Super(SuperFault::ShortBlock), ""),
    (CommandFault::Super(SuperFault::NoMagic), ""),
    (CommandFault::Super(SuperFault::NotVersion2(3)), ""),
    (CommandFault::Super(SuperFault::BlockSize(512)), ""),
    (CommandFault::Super(SuperFault::Geometry), ""),
    (CommandFault::Super(SuperFault::Feature(2, 8)), ""),
    (CommandFault::Super(SuperFault::Feature(2, 16)), ""),
    (CommandFault::Super(SuperFault::Feature(2, 32)), ""),
    (CommandFault::ChecksumType(1), ""),
    (CommandFault::SuperChecksum, ""),
    (CommandFault::JournalLength(34, 33), ""),
    (
        CommandFault::FileSystem(FileSystemFault::BlockSize(4096)),
        "",
    ),
    (CommandFault::FileSystem(FileSystemFault::Uuid), ""),
    (CommandFault::FileSystem(FileSystemFault::Clean), ""),
    (CommandFault::FileSystem(FileSystemFault::Newer), ""),
    (CommandFault::FileSystem(FileSystemFault::Unrecovered), ""),
    (CommandFault::Extents(ExtentsFault::Overlap(9)), ""),
    (CommandFault::Extents(ExtentsFault::PastEnd(9)), ""),
    (CommandFault::Extents(ExtentsFault::Short(9)), ""),
    (CommandFault::Extents(ExtentsFault::Long(9)), ""),
    (CommandFault::Extents(ExtentsFault::NoJournal), ""),
    (
        CommandFault::Extents(ExtentsFault::BlockSizes(1024, 4096)),
        "",
    ),
    (CommandFault::Extents(ExtentsFault::Front(1)), ""),
    (CommandFault::Extents(ExtentsFault::Home(9)), ""),
    (CommandFault::Extents(ExtentsFault::Nothing), ""),
    (CommandFault::Extents(ExtentsFault::Broken(9)), ""),
    (CommandFault::Extents(ExtentsFault::Other(9)), ""),
    (CommandFault::Own(OwnFault::NoSystem), ""),
    (CommandFault::Own(OwnFault::Device), ""),
    (CommandFault::Own(OwnFault::Feature(4096)), ""),
    (CommandFault::Own(OwnFault::NoJournal), ""),
    (CommandFault::Own(OwnFault::External), ""),
    (
        CommandFault::Own(OwnFault::Field(FieldName::InodeSize, 130)),
        "",
    ),
    (CommandFault::Own(OwnFault::Descriptor(9)), ""),
    (CommandFault::Own(OwnFault::Table(9)), ""),
    (CommandFault::Own(OwnFault::Inode(InodeFault::NoLink)), ""),
    (
        CommandFault::Own(OwnFault::Map(MapFault::Node(9, NodeFault::Depth(6)))),
        "",
    ),
    (CommandFault::Own(OwnFault::Map(MapFault::Twice(9))), ""),
    (CommandFault::Own(OwnFault::Differs), ""),
    (CommandFault::Own(OwnFault::NoSuper(9)), ""),
    (CommandFault::Own(OwnFault::Short), ""),
    (CommandFault::BadChecksum(Summed::Commit, 2), ""),
    (CommandFault::Lost(2), ""),
    (CommandFault::BadRevoke(2), ""),
    (CommandFault::HomeOutOfRange(20, 2, Some(16)), ": 16"),
    (CommandFault::HomeOutOfRange(20, 2, None), ""),
    (CommandFault::NoHome(20, Some(16)), ": 16"),
    (CommandFault::NoHome(20, None), ""),
    (CommandFault::NeedsRecovery, ""),
    (CommandFault::NumbersSpent, ""),
    (CommandFault::BlockSize, ""),
    (CommandFault::Accounts, ""),
    (CommandFault::Geometry, ""),
    (CommandFault::DeviceFault(None), ""),
    (CommandFault::Memory, ""),
    (CommandFault::WriteFault, ""),
];

/// Why a handle was refused, if one was, how the commits and the checkpoints ended, and what the second line says
/// beside the words of its row, if there is to be one.
type Load = (
    Option<QueueHandleFault>,
    Ended,
    Option<Ended>,
    Option<&'static str>,
);

static LOADS: [Load; 17] = [
    (
        Some(QueueHandleFault::TooManyCredits(8)),
        Ended::Refused,
        None,
        Some(""),
    ),
    (
        Some(QueueHandleFault::OutOfRange(20)),
        Ended::Refused,
        None,
        Some(": 16"),
    ),
    (
        Some(QueueHandleFault::Full(8)),
        Ended::Memory,
        None,
        Some(""),
    ),
    (
        Some(QueueHandleFault::Memory),
        Ended::Aborted,
        None,
        Some(""),
    ),
    (
        Some(QueueHandleFault::Aborted),
        Ended::Aborted,
        Some(Ended::Aborted),
        Some(""),
    ),
    (
        Some(QueueHandleFault::Full(8)),
        Ended::Refused,
        None,
        Some(""),
    ),
    (Some(QueueHandleFault::Closed), Ended::Aborted, None, None),
    (Some(QueueHandleFault::Busy), Ended::Aborted, None, None),
    (
        Some(QueueHandleFault::NoCredit(8)),
        Ended::Aborted,
        None,
        None,
    ),
    (Some(QueueHandleFault::Length), Ended::Aborted, None, None),
    (Some(QueueHandleFault::NotOpen), Ended::Aborted, None, None),
    (None, Ended::Aborted, None, Some("")),
    (None, Ended::Aborted, Some(Ended::Aborted), Some("")),
    (None, Ended::Memory, None, Some("")),
    (None, Ended::Memory, Some(Ended::Aborted), Some("")),
    (None, Ended::Refused, None, Some("")),
    (None, Ended::Refused, Some(Ended::Aborted), Some("")),
];

/// The same of loads in which the commits had stopped the handle that was refused: it is about their line.
static STOPPED: [Load; 3] = [
    (
        Some(QueueHandleFault::Aborted),
        Ended::Refused,
        None,
        Some(""),
    ),
    (
        Some(QueueHandleFault::Aborted),
        Ended::Memory,
        None,
        Some(""),
    ),
    (
        Some(QueueHandleFault::Aborted),
        Ended::Refused,
        Some(Ended::Refused),
        Some(""),
    ),
];

/// Checks what a second line is about after the line of a fault.
fn check_fault(rt: &impl Host, fault: CommandFault<'static>, beside: &str, row: usize) {
    let mut err = Vec::new(rt.alloc());
    fault.tell(None, &mut err);
    let (hint, beside) = (Some(fault.hint()), Some(beside));
    check_hint(rt, hint, &err, beside, "the hint of fault", row)
}

/// A load of three handles that ended so.
fn loaded(refused: Option<QueueHandleFault>, commit: Ended, checkpoint: Option<Ended>) -> Loaded {
    Loaded {
        queued: 3,
        handles: 2,
        changes: 5,
        settled: 1,
        groups: 1,
        blocks: 4,
        refused: match refused {
            Some(fault) => Some(Refused { handle: 12, fault }),
            None => None,
        },
        commit,
        checkpoint,
    }
}

/// The lines of a text without the first one.
fn more_lines(text: &[u8]) -> &[u8] {
    for at in 0..text.len() {
        if text[at] == b'\n' {
            return text.split_at(at + 1).1;
        }
    }
    text
}

/// What a load says of itself that ended so, into an image of 16 home blocks, and what its second line is about.
fn said(rt: &impl Host, load: &Load) -> (Vec<u8>, Option<Hint>) {
    let (refused, commit, checkpoint, _) = *load;
    let (mut out, mut err) = (Vec::new(rt.alloc()), Vec::new(rt.alloc()));
    let done = LoadDone::<Unknown, Unknown> {
        image: None,
        end: Ok(LoadReport::Loaded(loaded(refused, commit, checkpoint), 16)),
    };
    let hint = match done.tell(AnswerForm::Text, &mut out, &mut err) {
        Ok(ended) => ended.hint,
        Err(_) => fail(rt, "a load is told"),
    };
    (err, hint)
}

/// Checks what a second line is about after the lines of a load: the first of them, or the one after it.
fn check_load(rt: &impl Host, load: &Load, stopped: bool, row: usize) {
    let (err, hint) = said(rt, load);
    let lines = if stopped {
        more_lines(&err)
    } else {
        err.as_slice()
    };
    check_hint(rt, hint, lines, load.3, "the hint of load", row)
}

/// Checks each fault.
fn check_faults(rt: &impl Host) {
    for (row, (fault, beside)) in FAULTS.iter().enumerate() {
        check_fault(rt, *fault, beside, row);
    }
}

#[test]
fn a_hint_is_about_the_line_of_its_fault(rt: HostRuntime) {
    check_faults(&rt)
}

/// Checks each of these loads.
fn check_each(rt: &impl Host, loads: &[Load], stopped: bool) {
    for (row, load) in loads.iter().enumerate() {
        check_load(rt, load, stopped, row);
    }
}

/// Checks all loads.
fn check_loads(rt: &impl Host) {
    check_each(rt, &LOADS, false);
    check_each(rt, &STOPPED, true)
}

#[test]
fn a_hint_is_about_the_lines_of_its_load(rt: HostRuntime) {
    check_loads(&rt)
}
