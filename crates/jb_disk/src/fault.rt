use thiserror::Error;

/// A read, a write or a sync that did not succeed. The disk counts it, and tells the last one by
/// [`failure`](crate::Disk::failure) where it knows why. The program is to end, and to be started anew, so that a file
/// is opened anew: after a sync that failed nothing is known of one that stays open. Where there was no room, that is
/// made first.
#[derive(Clone, Copy, Debug, PartialEq, Eq, Error)]
#[error("the disk failed; see to the cause, then start the program anew and recover the journal")]
pub struct Fault;
