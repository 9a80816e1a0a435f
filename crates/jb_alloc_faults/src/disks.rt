//! Disks in memory, their recovery and their text.

use crate::journals::{HOME_5, committed, formatted, put_word, read_block, word_at};
use crate::met::{Met, ample, met_if, refusing, tried};
use jb_block::{BlockSize, MAGIC, Memory};
use jb_disk::{Disk, MemoryDisk};
use jb_dump::{DumpFault, DumpFilter, dump, dump_chosen};
use jb_recover::{RecoverFault, Recovered, recover};
use std::alloc::Global;
use std::fs::File;
use std::rt::Files;

/// What recovery of the committed handle reports.
const RECOVERED: Recovered = Recovered {
    transactions: 1,
    copies: 1,
    revoked: 0,
    next: 4,
};

/// The text of the journal with the committed handle.
const TEXT: &str =
    "super bs=1024 maxlen=33 first=1 sequence=2 start=1 errno=0 compat=00000000 incompat=00000001 \
     rocompat=00000000 max=0 limit=8
uuid 00000000000000000000000000000000
1 revoke number=2 count=20 homes=7
2 descriptor number=2 tags=1
3 copy home=5 flags=9 head=0000000001020304
4 commit number=2 sec=0 nsec=0
end transactions=1 expected=3
";

/// Its superblock, shown alone.
const SHOWN: &str =
    "super bs=1024 maxlen=33 first=1 sequence=2 start=1 errno=0 compat=00000000 incompat=00000001 \
     rocompat=00000000 max=0 limit=8
uuid 00000000000000000000000000000000
more number=0 nr_users=1 dynsuper=0 max_trans_data=0 checksum_type=0 num_fc_blks=0 head=0 checksum=00000000
";

/// Whether a new disk has blocks of zeros.
fn is_new(alloc: Global) -> Result<bool, Memory> {
    let mut disk = MemoryDisk::new(alloc, BlockSize::OneKib, 49)?;
    Ok(disk.blocks() == 49 && word_at(&mut disk, 48) == Some(0))
}

/// A new disk.
pub fn new_row(rt: &impl Files<File = File>, alloc: Global) -> Option<Met> {
    tried(rt, || is_new(alloc))
}

/// Whether of two blocks that were written since the last sync a crash leaves the first one.
fn is_left(disk: &MemoryDisk) -> Result<bool, Memory> {
    let mut left = disk.crash(&[1])?;
    let is_first = word_at(&mut left, HOME_5) == Some(MAGIC);
    Ok(is_first && word_at(&mut left, HOME_5 + 1) == Some(0))
}

/// A crash of a disk with two blocks that were written since the last sync.
fn crash(rt: &impl Files<File = File>, disk: &mut MemoryDisk) -> Option<Met> {
    put_word(disk, HOME_5, MAGIC)?;
    put_word(disk, HOME_5 + 1, MAGIC)?;
    let met = tried(rt, || is_left(disk));
    if word_at(disk, HOME_5 + 1) == Some(MAGIC) {
        met
    } else {
        None
    }
}

/// A crash leaves the disk as it was.
pub fn crash_row(rt: &impl Files<File = File>, alloc: Global) -> Option<Met> {
    let mut disk = formatted(alloc)?;
    crash(rt, &mut disk)
}

/// How a recovery met refused memory.
fn met_by<D: Disk>(
    alloc: Global,
    disk: &mut D,
    first: Result<Recovered, RecoverFault>,
) -> Option<Met> {
    match first {
        Ok(found) => met_if(found == RECOVERED, Met::Ample),
        Err(RecoverFault::Memory) => {
            let is_kept = word_at(disk, HOME_5) == Some(0);
            let is_found = recover(alloc, disk) == Ok(RECOVERED);
            met_if(is_kept && is_found, Met::Memory)
        }
        Err(RecoverFault::DeviceFault) => match recover(alloc, disk) {
            Ok(found) => met_if(found == RECOVERED || found.next == 4, Met::Fault),
            Err(_) => None,
        },
        Err(_) => None,
    }
}

/// The disk of a recovery that ran out of memory is as it was. One that failed is recovered by the next call.
pub fn recover_row(rt: &impl Files<File = File>, alloc: Global) -> Option<Met> {
    let mut disk = committed(alloc)?;
    refusing(rt);
    let first = recover(alloc, &mut disk);
    ample(rt);
    let met = met_by(alloc, &mut disk, first);
    if word_at(&mut disk, HOME_5) == Some(MAGIC) {
        met
    } else {
        None
    }
}

/// Reads the journal's blocks. None where that fails.
fn read<D: Disk>(disk: &mut D, bytes: &mut Vec<u8>) -> Option<()> {
    let mut block = [0; 1024];
    for place in 0..33 {
        read_block(disk, place, &mut block)?;
        bytes.extend_from_slice(&block).ok()?;
    }
    Some(())
}

/// The bytes of the journal with the committed handle; none where it is not read.
fn journal(alloc: Global) -> Vec<u8> {
    let mut bytes = Vec::new(alloc);
    if let Some(mut disk) = committed(alloc) {
        let _read = read(&mut disk, &mut bytes);
    }
    bytes
}

/// Whether the text of a journal is dumped. A dump that ran out of memory has written nothing.
fn is_dumped(alloc: Global, bytes: &[u8], text: &mut Vec<u8>) -> Result<bool, Memory> {
    let mut reader = bytes;
    match dump(alloc, &mut reader, text) {
        Ok(()) => Ok(text.as_slice() == TEXT.as_bytes()),
        Err(DumpFault::Memory) if text.is_empty() => Err(Memory),
        Err(_) => Ok(false),
    }
}

/// Whether its superblock is shown, with the same text.
fn is_shown(alloc: Global, bytes: &[u8], text: &mut Vec<u8>) -> Result<bool, Memory> {
    let mut reader = bytes;
    let filter = DumpFilter {
        superblock: true,
        ..DumpFilter::every_line()
    };
    match dump_chosen(alloc, &mut reader, text, filter) {
        Ok(()) => Ok(text.as_slice() == SHOWN.as_bytes()),
        Err(DumpFault::Memory) if text.is_empty() => Err(Memory),
        Err(_) => Ok(false),
    }
}

/// The superblock of a journal, shown.
pub fn shown_row(rt: &impl Files<File = File>, alloc: Global) -> Option<Met> {
    let bytes = journal(alloc);
    let mut text = Vec::new(alloc);
    let _refused = text.reserve(1024);
    tried(rt, || is_shown(alloc, &bytes, &mut text))
}

/// The dump of a journal.
pub fn dump_row(rt: &impl Files<File = File>, alloc: Global) -> Option<Met> {
    let bytes = journal(alloc);
    let mut text = Vec::new(alloc);
    let _refused = text.reserve(1024);
    tried(rt, || is_dumped(alloc, &bytes, &mut text))
}
