//! Blocks that are filled, and what is seen of them; a place that the disk does not have is a fault too.

use jb_block::BlockSize;
use jb_disk::{Disk, Fault};
use tests_support::{Test, check_in, read_block, write_block};

/// Fills a block with one byte.
pub fn fill<D: Disk>(disk: &mut D, place: u64, byte: u8) -> Result<(), Fault> {
    let size = disk.block_size().bytes() as usize;
    write_block(disk, place, &[byte; 4096][..size])
}

/// The first and the last byte of the first two sectors of a block.
pub fn look<D: Disk>(disk: &mut D, place: u64) -> Result<[u8; 4], Fault> {
    let size = disk.block_size().bytes() as usize;
    let mut bytes = [0; 4096];
    read_block(disk, place, &mut bytes[..size])?;
    Ok([bytes[0], bytes[511], bytes[512], bytes[1023]])
}

/// Up to four blocks of 1 KiB in a row, read by one call, and zeros after them.
pub fn read_run<D: Disk>(disk: &mut D, place: u64, blocks: usize) -> Result<[u8; 4096], Fault> {
    let count = disk.blocks();
    if blocks == 0 || 4 < blocks || count < place || count - place < blocks as u64 {
        return Err(Fault);
    }
    if disk.block_size() != BlockSize::OneKib {
        return Err(Fault);
    }
    let mut bytes = [0; 4096];
    disk.read_run(place, blocks, &mut bytes[..1024 * blocks])?;
    Ok(bytes)
}

/// The first and the last byte of each of up to three blocks of 1 KiB in a row, read by one call.
pub fn look_run<D: Disk>(disk: &mut D, place: u64, blocks: usize) -> Result<[u8; 6], Fault> {
    let bytes = read_run(disk, place, blocks)?;
    Ok([
        bytes[0],
        bytes[1023],
        bytes[1024],
        bytes[2047],
        bytes[2048],
        bytes[3071],
    ])
}

/// Fills up to four blocks of 1 KiB in a row, by one call, with this byte and the next ones.
pub fn fill_run<D: Disk>(disk: &mut D, place: u64, blocks: usize, first: u8) -> Result<(), Fault> {
    let count = disk.blocks();
    if blocks == 0 || 4 < blocks || count < place || count - place < blocks as u64 {
        return Err(Fault);
    }
    if disk.block_size() != BlockSize::OneKib {
        return Err(Fault);
    }
    disk.write_run(place, blocks, &four(first)[..1024 * blocks])
}

/// Four blocks of 1 KiB, of this byte and the next ones.
fn four(first: u8) -> [u8; 4096] {
    let mut bytes = [0; 4096];
    for (i, byte) in bytes.iter_mut().enumerate() {
        *byte = first.wrapping_add((i / 1024) as u8);
    }
    bytes
}

/// The first five blocks of a disk, each as `look` sees it.
pub fn look_each<D: Disk>(disk: &mut D) -> Result<[[u8; 4]; 5], Fault> {
    let mut blocks = [[0; 4]; 5];
    for place in 0..5 {
        blocks[place] = look(disk, place as u64)?;
    }
    Ok(blocks)
}

/// Fills each of the first five blocks of a disk with its place and one more.
pub fn number<D: Disk>(disk: &mut D) -> Result<(), Fault> {
    for byte in 1..6u8 {
        fill(disk, u64::from(byte) - 1, byte)?;
    }
    Ok(())
}

/// Which of three calls, a write, a sync and a read, succeed.
pub fn three_calls<D: Disk>(disk: &mut D) -> [bool; 3] {
    let written = fill(disk, 1, 7).is_ok();
    let synced = disk.sync().is_ok();
    let read = look(disk, 1).is_ok();
    [written, synced, read]
}

/// The place of a run, how many blocks it has, and the first and the last byte of each, where blocks are numbered.
struct Run(u64, usize, [u8; 6]);

static RUNS: [Run; 4] = [
    Run(0, 1, [1, 1, 0, 0, 0, 0]),
    Run(0, 3, [1, 1, 2, 2, 3, 3]),
    Run(1, 3, [2, 2, 3, 3, 4, 4]),
    Run(3, 2, [4, 4, 5, 5, 0, 0]),
];

/// Checks what is read of a run.
fn check_run<D: Disk>(test: &impl Test, disk: &mut D, run: &Run, what: &'static str, row: u64) {
    let Run(place, blocks, ends) = *run;
    let is_read = look_run(disk, place, blocks) == Ok(ends);
    check_in(test, is_read, what, "run", row)
}

/// Numbers the blocks of a disk, and checks what is read of each run.
pub fn check_runs<D: Disk>(test: &impl Test, disk: &mut D, what: &'static str) {
    let is_numbered = number(disk).is_ok();
    check_in(test, is_numbered, what, "the blocks are not filled", 0);
    for (row, run) in RUNS.iter().enumerate() {
        check_run(test, disk, run, what, row as u64)
    }
}
