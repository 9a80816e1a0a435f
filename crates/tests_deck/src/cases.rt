//! Journals that are called by a script, the blocks that are then on the disk and those that a crash leaves, and what
//! recovery makes of these.

use crate::groups::{Laid, lay_group};
use crate::images::{BLOCKS, Label, Row, Stands, put, small};
use crate::scripts::{Step, check_steps, opening};
use jb_disk::{Disk, MemoryDisk, OneFaultDisk};
use jb_recover::{Recovered, recover};
use std::alloc::Global;
use tests_support::{Bench, Test, check_in, check_none, check_row, crashed, difference};

/// What recovery reports: transactions, copies, revoked copies and the next number.
pub type Report = (u32, u32, u32, u64);

/// A journal that is recovered and opened, the calls, the blocks of the disk after them, and what recovery then
/// reports and changes.
pub struct Case {
    pub name: &'static str,
    pub image: &'static [Row],
    pub steps: &'static [Step],
    pub groups: &'static [Laid],
    pub rows: Stands,
    pub recovered: Report,
    pub after: Stands,
}

/// The disk of the journal of a row after these calls.
pub fn called<D: Disk + Drop>(test: &impl Bench, row: Label, disk: D, steps: &[Step]) -> D {
    let mut deck = opening(test, disk);
    check_steps(test, row, &mut deck, steps);
    deck.close()
}

/// The small image after these calls of its journal, on a disk of which the call of this number fails.
pub fn called_with_fault(test: &impl Bench, row: Label, call: u64, steps: &[Step]) -> MemoryDisk {
    let disk = OneFaultDisk::of(small(test, BLOCKS, &[], &[]), call);
    called(test, row, disk, steps).into_inner()
}

/// The image of a case, of this many blocks, once it is recovered.
fn recovered(test: &impl Bench, blocks: u64, case: &Case) -> MemoryDisk {
    let mut disk = small(test, blocks, case.image, &[]);
    let is_so = is_recovered(test.alloc(), &mut disk);
    check_row(test, is_so, case.name, "it is not recovered");
    disk
}

/// Checks the calls of a case and what they leave.
fn check_case(test: &impl Bench, blocks: u64, case: &Case) {
    let disk = recovered(test, blocks, case);
    let mut disk = called(test, case.name, disk, case.steps);
    check_left(test, case, &mut disk)
}

/// Lays what a case's calls are to leave over its image.
fn lay(test: &impl Test, case: &Case, disk: &mut MemoryDisk) {
    for group in case.groups {
        lay_group(test, disk, group);
    }
    put(test, disk, &case.rows)
}

/// Checks the disk that the calls of a case left, and what a crash leaves of it: all that is on the disk, since
/// every call that changes it ends with a sync. Then it is recovered.
fn check_left(test: &impl Bench, case: &Case, disk: &mut MemoryDisk) {
    let mut wanted = small(test, disk.blocks(), case.image, &[]);
    lay(test, case, &mut wanted);
    let place = difference(test, disk, &mut wanted, 0);
    check_none(test, case.name, "block", place);
    let mut left = crashed(test, disk, &[]);
    let place = difference(test, &mut left, &mut wanted, 0);
    check_none(test, case.name, "block that a crash leaves", place);
    check_home(test, case, &mut left, &mut wanted)
}

/// What recovery reports.
fn report(told: Report) -> Recovered {
    let (transactions, copies, revoked, next) = told;
    Recovered {
        transactions,
        copies,
        revoked,
        next,
    }
}

/// Whether recovery of a disk reports this.
pub fn recovers<D: Disk>(alloc: Global, disk: &mut D, told: Report) -> bool {
    recover(alloc, disk) == Ok(report(told))
}

/// Whether a disk is recovered.
pub fn is_recovered<D: Disk>(alloc: Global, disk: &mut D) -> bool {
    recover(alloc, disk).is_ok()
}

/// Checks what a crash left of a case once it is recovered.
fn check_home(test: &impl Bench, case: &Case, left: &mut MemoryDisk, wanted: &mut MemoryDisk) {
    let is_told = recovers(test.alloc(), left, case.recovered);
    let next = case.recovered.3;
    check_in(test, is_told, case.name, "what is recovered, at", next);
    put(test, wanted, &case.after);
    let place = difference(test, left, wanted, 0);
    check_none(test, case.name, "block after recovery", place)
}

/// Checks each of these cases, on disks of this many blocks.
pub fn check_cases(test: &impl Bench, blocks: u64, cases: &[Case]) {
    for case in cases {
        check_case(test, blocks, case);
    }
}
