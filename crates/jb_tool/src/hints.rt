//! What a second line is about after the lines of a load on standard error: the first of them that says why.
ghost use Rattle.std.specs.Prelude.{◌≡◌};
ghost use Rattle.jb_tool.specs.Hints.{aborted_hint as aborted_hinted};
ghost use Rattle.jb_tool.specs.Hints.{checkpoint_hint as checkpoint_hinted, commit_hint as commit_hinted};
ghost use Rattle.jb_tool.specs.Hints.{handle_hint as handle_hinted, load_hint as load_hinted};

use crate::{Loaded, QueueHandleFault};
use jb_args::Hint;
use jb_disk::Failure;
use jb_journal::Ended;

/// What a second line is about after a load into an image of this many home blocks, whose last call that failed was
/// this one: the line of the handle that was refused, or of the committer, or of the checkpointer, whichever is the
/// first. Of a handle that the commits have stopped it is their line.
pub(crate) fn load_hint(loaded: &Loaded, homes: u64, failure: Option<Failure>) -> Option<Hint>
    ensures { result ≡ load_hinted failure homes loaded.now }
{
    match loaded.refused {
        Some(refused) => handle_hint(refused.fault, loaded.commit, homes, failure),
        None => commit_hint(loaded.commit, loaded.checkpoint, failure),
    }
}

/// The same of a handle that was refused, where the committer ended so; the table has no row for a fault that no text
/// has.
fn handle_hint(
    fault: QueueHandleFault,
    commit: Ended,
    homes: u64,
    failure: Option<Failure>,
) -> Option<Hint>
    ensures { result ≡ handle_hinted failure homes commit fault }
{
    match fault {
        QueueHandleFault::TooManyCredits(_) => Some(Hint::HandleTooManyCredits),
        QueueHandleFault::OutOfRange(_) => Some(Hint::HandleOutOfRange(homes)),
        QueueHandleFault::Full(_) => Some(Hint::HandleFull),
        QueueHandleFault::Memory => Some(Hint::HandleMemory),
        QueueHandleFault::Aborted => Some(aborted_hint(commit, failure)),
        QueueHandleFault::Closed | QueueHandleFault::Busy | QueueHandleFault::NoCredit(_) => None,
        QueueHandleFault::Length | QueueHandleFault::NotOpen => None,
    }
}

/// The same of a handle that found the journal stopped: by a failed call of the disk, or by a committer that gave up
/// before one.
fn aborted_hint(commit: Ended, failure: Option<Failure>) -> Hint
    ensures { result ≡ aborted_hinted failure commit }
{
    match commit {
        Ended::Refused => Hint::CommitRefused,
        Ended::Memory => Hint::CommitMemory,
        Ended::Aborted | Ended::Shut(_) => Hint::HandleAborted(failure),
    }
}

/// The same of the committer, and where it ended well, of the checkpointer.
fn commit_hint(commit: Ended, checkpoint: Option<Ended>, failure: Option<Failure>) -> Option<Hint>
    ensures { result ≡ commit_hinted failure commit checkpoint }
{
    match commit {
        Ended::Shut(_) => checkpoint_hint(checkpoint, failure),
        Ended::Aborted => Some(Hint::CommitAborted(failure)),
        Ended::Memory => Some(Hint::CommitMemory),
        Ended::Refused => Some(Hint::CommitRefused),
    }
}

/// The same of the checkpointer, which no commit has stopped.
fn checkpoint_hint(checkpoint: Option<Ended>, failure: Option<Failure>) -> Option<Hint>
    ensures { result ≡ checkpoint_hinted failure checkpoint }
{
    match checkpoint {
        None | Some(Ended::Shut(_)) => None,
        Some(Ended::Aborted) => Some(Hint::CheckpointAborted(failure)),
        Some(Ended::Memory) => Some(Hint::CheckpointMemory),
        Some(Ended::Refused) => None,
    }
}
