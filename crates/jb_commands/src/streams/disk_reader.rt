//! A disk as a reader of its blocks.

use jb_block::MOST_BYTES;
use jb_disk::{Disk, Failure, FailureReason};
use std::io::{self, Error, ErrorKind, Read};

/// The bytes of a disk from its first block on. They are read a block at a time, and no more of them than are asked for
/// but the rest of a block.
#[derive(Drop)]
pub(crate) struct DiskReader<D: Disk> {
    disk: D,
    /// How many bytes were given.
    given: u64,
}

impl<D: Disk> DiskReader<D> {
    /// The reader of a disk.
    pub(crate) fn of(disk: D) -> DiskReader<D> {
        DiskReader { disk, given: 0 }
    }
}

/// A read of the disk that fails is an error.
impl<D: Disk> Read for DiskReader<D> {
    fn read(&mut self, buf: &mut [u8]) -> io::Result<usize> {
        let size = u64::from(self.disk.block_size().bytes());
        let place = self.given / size;
        if place >= self.disk.blocks() {
            return Ok(0);
        }
        let mut block = [0u8; MOST_BYTES];
        let block = &mut block[..size as usize];
        if self.disk.read(place, block).is_err() {
            return Err(error_of(self.disk.failure()));
        }
        let rest = &block[(self.given % size) as usize..];
        let len = rest.len().min(buf.len());
        buf[..len].copy_from_slice(&rest[..len]);
        self.given = self.given.saturating_add(len as u64);
        Ok(len)
    }
}

/// The error of a read of a disk that tells this of its last failed call.
fn error_of(failure: Option<Failure>) -> Error {
    let Some(failure) = failure else {
        return Error::from(ErrorKind::Other);
    };
    match failure.reason {
        FailureReason::System(fault) => match fault.code {
            Some(code) => Error::from_raw_os_error(code),
            None => Error::from(ErrorKind::Other),
        },
        FailureReason::Short => Error::from(ErrorKind::UnexpectedEof),
    }
}
