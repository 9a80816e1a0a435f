//! Homes as a reader gives them, and as a peek does.

use jb_block::BlockSize;
use jb_disk::Disk;
use jb_reader::{HomeReader, ReaderFault};
use jb_recover::{PeekFault, peek};
use tests_support::{Bench, fail};

/// What is answered of a home, and the bytes, which were zeros.
#[derive(Drop)]
pub struct Home {
    pub answer: Result<(), PeekFault>,
    pub bytes: [u8; 1024],
}

/// What a reader answers of a home; its disk has to have blocks of 1 KiB.
pub fn home_read<D: Disk>(reader: &mut HomeReader<D>, home: u64) -> Home {
    let mut bytes = [0; 1024];
    if reader.block_size() != BlockSize::OneKib {
        let answer = Err(PeekFault::DeviceFault);
        return Home { answer, bytes };
    }
    let answer = reader.read(home, &mut bytes);
    Home { answer, bytes }
}

/// What a peek answers of a home; the disk has to have blocks of 1 KiB.
pub fn home_peeked<D: Disk>(disk: &mut D, home: u64) -> Home {
    let mut bytes = [0; 1024];
    if disk.block_size() != BlockSize::OneKib {
        let answer = Err(PeekFault::DeviceFault);
        return Home { answer, bytes };
    }
    let answer = peek(disk, home, &mut bytes);
    Home { answer, bytes }
}

/// The first home, up to the one after the last, that a reader gives otherwise than a peek at another disk.
pub fn misread<D: Disk, E: Disk>(reader: &mut HomeReader<D>, disk: &mut E) -> Option<u64> {
    for home in 0..reader.homes().saturating_add(1) {
        let read = home_read(reader, home);
        let peeked = home_peeked(disk, home);
        if read.answer != peeked.answer || read.bytes != peeked.bytes {
            return Some(home);
        }
    }
    None
}

/// A reader of a disk that can be read.
pub fn reader_of<D: Disk + Drop>(test: &impl Bench, disk: D) -> HomeReader<D> {
    let Ok(reader) = HomeReader::open(test.alloc(), disk) else {
        return fail(test, "a reader");
    };
    reader
}

/// Why there is no reader of a disk, with the disk; or no fault.
pub fn refused<D: Disk>(test: &impl Bench, disk: D) -> (D, Option<ReaderFault>) {
    match HomeReader::open(test.alloc(), disk) {
        Ok(reader) => (reader.close(), None),
        Err((disk, fault)) => (disk, Some(fault)),
    }
}
