//! How often a reader calls its disk, and a reader of which a call fails.

use crate::checks::By;
use crate::homes::{home_read, reader_of, refused};
use crate::logs::{CLEAN, ESCAPED, Laid, SAME, small};
use jb_disk::{FuseDisk, OneFaultDisk};
use jb_reader::ReaderFault;
use jb_recover::PeekFault;
use tests_support::{Bench, check, check_at};

/// The superblock, four blocks to the end of the log, and three of its transaction.
const CALLS: u64 = 8;

/// Checks that a small image is read by so many calls, and then each home by one: the first three alone succeed.
fn check_calls(test: &impl Bench, last: Laid, calls: u64) {
    let disk = FuseDisk::of(small(test, &ESCAPED, 0, last), calls.saturating_add(3));
    let mut reader = reader_of(test, disk);
    for home in 5..9 {
        let wanted = if home < 8 {
            Ok(())
        } else {
            Err(PeekFault::DeviceFault)
        };
        let is_so = home_read(&mut reader, home).answer == wanted;
        check_at(test, is_so, "the answer of home", home);
    }
}

/// Checks that a home which is not there takes no call.
fn check_none_made(test: &impl Bench) {
    let disk = FuseDisk::of(small(test, &ESCAPED, 0, SAME), CALLS);
    let mut reader = reader_of(test, disk);
    let answer = home_read(&mut reader, 16).answer;
    let is_out = answer == Err(PeekFault::HomeOutOfRange(16));
    check(test, is_out, "the answer of a home that is not there")
}

/// Checks a reader that is not made since this call fails: the disk is handed back, of which one is made then.
fn check_fault(test: &impl Bench, call: u64) {
    let faulty = OneFaultDisk::of(small(test, &ESCAPED, 0, SAME), call);
    let (disk, fault) = refused(test, faulty);
    let is_fault = fault == Some(ReaderFault::Peek(PeekFault::DeviceFault));
    check_at(test, is_fault, "a reader where a call fails:", call);
    let (_disk, fault) = refused(test, disk);
    check_at(test, fault.is_none(), "the next reader after call", call)
}

#[test]
fn a_reader_reads_its_log_once(rt: HostRuntime) {
    check_calls(&By(&rt, rt.alloc()), SAME, CALLS);
    check_calls(&By(&rt, rt.alloc()), CLEAN, 1);
    check_none_made(&By(&rt, rt.alloc()));
    for call in 0..CALLS {
        check_fault(&By(&rt, rt.alloc()), call);
    }
}
