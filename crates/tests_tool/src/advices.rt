//! The line of each hint.

use crate::checks::{check_at, check_text};
use jb_args::{Hint, Holder, OptionName, put_hint, put_reason};
use jb_disk::{FailedCall, Failure, FailureReason, SystemFault};
use jb_tool::CommandFault;
use std::alloc::Global;
use std::process::Abort;

/// Calls of a disk that failed.
const NO_ROOM: Option<Failure> = Some(Failure {
    call: FailedCall::Write(17),
    reason: FailureReason::System(SystemFault { code: Some(28) }),
});

const NOT_SYNCED: Option<Failure> = Some(Failure {
    call: FailedCall::Sync,
    reason: FailureReason::System(SystemFault { code: Some(5) }),
});

const SHORTER: Option<Failure> = Some(Failure {
    call: FailedCall::Read(18446744073709551615),
    reason: FailureReason::Short,
});

/// A hint, and its line.
type Row = (Hint, &'static str);

static ROWS: [Row; 13] = [
    (
        Hint::NeedsRecovery,
        "jb:  run jb recover on the image first\n",
    ),
    (
        Hint::QueueBlockSizeLine,
        "jb:  the first line is bs 1024, bs 2048 or bs 4096, with or without the word wide after it\n",
    ),
    (
        Hint::WriteFault,
        "jb:  standard output is closed or full; what the command does to an image may be done\n",
    ),
    (
        Hint::HandleOutOfRange(18446744073709551615),
        "jb:  home blocks are numbered from 0, and the image has so many: 18446744073709551615\n",
    ),
    (
        Hint::NoHome(None),
        "jb:  home blocks are numbered from 0; jb widen gives numbers past 4294967295; the image has so many\n",
    ),
    (
        Hint::BadOption(OptionName::Uuid),
        "jb:  what the first bad option may be: --uuid is 32 hexadecimal digits\n",
    ),
    (
        Hint::CannotMake(Some(17)),
        "jb:  take another name, or see to its folder, the permission and the room, and to a file of the \
         name with .jb-unfinished after it: File exists (os error 17)\n",
    ),
    (
        Hint::CannotMake(Some(-1)),
        "jb:  take another name, or see to its folder, the permission and the room, and to a file of the \
         name with .jb-unfinished after it: Unknown error -1 (os error -1)\n",
    ),
    (
        Hint::CannotMake(None),
        "jb:  take another name, or see to its folder, the permission and the room, and to a file of the \
         name with .jb-unfinished after it\n",
    ),
    (
        Hint::DeviceFault(None),
        "jb:  run the command again, once its device is well\n",
    ),
    (
        Hint::DeviceFault(NO_ROOM),
        "jb:  make room on its file system; then run the command again, once its device is well: write at \
         block 17: No space left on device (os error 28)\n",
    ),
    (
        Hint::CommitAborted(NOT_SYNCED),
        "jb:  look at the system's log, and copy the image to another device if this one fails; then run \
         jb recover on the image, and see what it holds: sync: Input/output error (os error 5)\n",
    ),
    (
        Hint::CheckpointAborted(SHORTER),
        "jb:  the file is shorter than it was: put back a copy of it; then run jb recover on the image, and \
         see what it holds: read at block 18446744073709551615: fewer bytes were moved than asked for\n",
    ),
];

/// Hints, and the line that has the reason of each alone.
static REASONS: [Row; 6] = [
    (Hint::NeedsRecovery, ""),
    (Hint::NoHome(Some(16)), ""),
    (Hint::CannotRead(None), ""),
    (
        Hint::CannotRead(Some(2)),
        "jb:  No such file or directory (os error 2)\n",
    ),
    (
        Hint::HandleAborted(NO_ROOM),
        "jb:  write at block 17: No space left on device (os error 28)\n",
    ),
    (
        Hint::DeviceFault(SHORTER),
        "jb:  read at block 18446744073709551615: fewer bytes were moved than asked for\n",
    ),
];

/// Checks the line of each hint.
fn check_rows(rt: &impl Abort, alloc: Global) {
    for (row, (hint, wanted)) in ROWS.iter().enumerate() {
        let mut told = Vec::new(alloc);
        check_at(
            rt,
            put_hint(&mut told, *hint).is_ok(),
            "the hint of row",
            row,
        );
        check_text(rt, &told, wanted, "the hint of row", row)
    }
}

/// Checks the line that has the reason of each hint alone.
fn check_reasons(rt: &impl Abort, alloc: Global) {
    for (row, (hint, wanted)) in REASONS.iter().enumerate() {
        let mut told = Vec::new(alloc);
        check_at(
            rt,
            put_reason(&mut told, *hint).is_ok(),
            "the reason of row",
            row,
        );
        check_text(rt, &told, wanted, "the reason of row", row)
    }
}

/// Checks both lines of who has a file that is in use, and that words which are too long are none.
fn check_holder(rt: &impl Abort, alloc: Global) {
    let holder = Holder::new(b"mounted at /mnt");
    check_at(rt, holder.is_some(), "a holder", 0);
    let (mut told, mut reason) = (Vec::new(alloc), Vec::new(alloc));
    let hint = Hint::InUse(holder);
    check_at(rt, put_hint(&mut told, hint).is_ok(), "a holder", 1);
    check_text(
        rt,
        &told,
        "jb:  it is mounted, or another jb works on it: unmount it, or run the command again when that one \
         has ended: mounted at /mnt\n",
        "a holder",
        2,
    );
    check_at(rt, put_reason(&mut reason, hint).is_ok(), "a holder", 3);
    check_text(rt, &reason, "jb:  mounted at /mnt\n", "a holder", 4);
    check_at(rt, Holder::new(&[b'a'; 256]).is_none(), "a holder", 5)
}

/// Checks that a failed call is put into a fault of the disk, and into no other.
fn check_failures(rt: &impl Abort) {
    let failed = CommandFault::DeviceFault(None).with_failure(NO_ROOM);
    let met = matches!(failed, CommandFault::DeviceFault(told) if told == NO_ROOM);
    check_at(rt, met, "a fault of the disk", 0);
    let other = CommandFault::Memory.with_failure(NO_ROOM);
    let same = matches!(other, CommandFault::Memory);
    check_at(rt, same, "another fault", 1)
}

#[test]
fn each_hint_has_its_line(rt: HostRuntime) {
    check_rows(&rt, rt.alloc());
    check_reasons(&rt, rt.alloc());
    check_holder(&rt, rt.alloc());
    check_failures(&rt)
}
