//! Disks of whole blocks: what a read gives, what a crash may leave, and disks for tests.
#![tactic(auto)]

mod clock;
mod disk;
mod failure;
mod fault;
mod file;
mod fuse;
mod host;
pub mod laws;
mod memory;
mod one_fault;
mod read_ahead;
mod record;
mod run;
mod sector;
mod start;
mod write_behind;

pub use clock::{Clock, FixedClock};
pub use disk::Disk;
pub use failure::{FailedCall, Failure, FailureCause, FailureReason, SystemFault};
pub use fault::Fault;
pub use file::FileDisk;
pub use fuse::FuseDisk;
pub use memory::MemoryDisk;
pub use one_fault::OneFaultDisk;
pub use read_ahead::ReadAhead;
pub use sector::SECTOR;
pub use start::{Start, Unknown};
pub use write_behind::WriteBehind;
