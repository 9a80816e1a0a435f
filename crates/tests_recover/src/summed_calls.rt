//! How many calls of the disk are made where checksums are allowed, and that a sync comes before block 0 is read.

use crate::checks::By;
use crate::small::{BLOCKS, small};
use crate::summed::peeked;
use crate::summed_logs::V3;
use jb_block::{BlockSize, Sums};
use jb_disk::{Disk, FuseDisk, MemoryDisk};
use jb_format::{clean_checked, read_checked, sync_checked};
use jb_recover::{foresee_checked, foresee_unread};
use tests_support::{Bench, check_row, crashed, read_at, write_at};

/// Whether block 0 of a disk of blocks of 1 KiB is read.
fn reads<D: Disk>(disk: &mut D) -> bool {
    if disk.block_size() != BlockSize::OneKib {
        return false;
    }
    read_checked(disk, &mut [0; 1024]).is_ok()
}

/// Whether it is read after a sync.
fn syncs<D: Disk>(disk: &mut D) -> bool {
    if disk.block_size() != BlockSize::OneKib {
        return false;
    }
    sync_checked(disk, &mut [0; 1024]).is_ok()
}

/// Whether its journal is cleaned.
fn cleans<D: Disk>(disk: &mut D) -> bool {
    if disk.block_size() != BlockSize::OneKib || disk.blocks() == 0 {
        return false;
    }
    clean_checked(disk, Sums::Whole, 2, &mut [0; 1024]).is_ok()
}

/// A journal with checksums, of which this many calls succeed.
fn fused(test: &impl Bench, calls: u64) -> FuseDisk<MemoryDisk> {
    FuseDisk::of(small(test, &V3, &[]), calls)
}

/// Whether home 5, of which the log has a copy, is peeked at by this many.
fn is_peeked(test: &impl Bench, calls: u64) -> bool {
    peeked(&mut fused(test, calls), 5).0.is_ok()
}

/// Whether a recovery is foreseen by this many.
fn is_foreseen(test: &impl Bench, calls: u64) -> bool {
    foresee_checked(test.alloc(), &mut fused(test, calls)).is_ok()
}

/// Whether that is so without the data of its copies.
fn is_unread(test: &impl Bench, calls: u64) -> bool {
    foresee_unread(test.alloc(), &mut fused(test, calls)).is_ok()
}

/// Checks that each ends by this many calls of the disk, and not by one less.
fn check_counts(test: &impl Bench) {
    let are_read = !reads(&mut fused(test, 0)) && reads(&mut fused(test, 1));
    check_row(test, are_read, "read_checked", "its calls");
    let are_synced = !syncs(&mut fused(test, 1)) && syncs(&mut fused(test, 2));
    check_row(test, are_synced, "sync_checked", "its calls");
    let are_cleaned = !cleans(&mut fused(test, 2)) && cleans(&mut fused(test, 3));
    check_row(test, are_cleaned, "clean_checked", "its calls");
    let are_peeked = !is_peeked(test, 10) && is_peeked(test, 11);
    check_row(test, are_peeked, "peek_checked", "its calls");
    let are_foreseen = !is_foreseen(test, 15) && is_foreseen(test, 16);
    check_row(test, are_foreseen, "foresee_checked", "its calls");
    let are_unread = !is_unread(test, 11) && is_unread(test, 12);
    check_row(test, are_unread, "foresee_unread", "its calls")
}

/// Checks that what was written before is durable where the read of block 0 fails.
fn check_order(test: &impl Bench) {
    let mut disk = small(test, &V3, &[]);
    write_at(test, &mut disk, BLOCKS - 1, &[7; 1024]);
    let mut fuse = FuseDisk::of(disk, 1);
    check_row(test, !syncs(&mut fuse), "sync_checked", "a read that fails");
    let mut block = [0; 1024];
    let mut left = crashed(test, &fuse.into_inner(), &[]);
    read_at(test, &mut left, BLOCKS - 1, &mut block);
    check_row(test, block == [7; 1024], "sync_checked", "its first call")
}

#[test]
fn calls_with_checksums_are_counted(rt: HostRuntime) {
    check_counts(&By(&rt, rt.alloc()));
    check_order(&By(&rt, rt.alloc()))
}
