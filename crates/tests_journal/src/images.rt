//! Images in files: opened, locked, and read while no journal runs.
use crate::checks::{By, FileHost};
use crate::files::{
    NAME, UNFINISHED, blocks_of, exists, fresh, geometry, looked_at, made, opened, opened_or_made,
};
use jb_image::{ImageFault, MakeFault, Opening, create_image, open_image};
use jb_journal::{
    BlockSize, Disk, HomeFault, ImageGeometry, JournalFault, PeekFault, RecoverFault, Unknown,
    open, open_holding, open_or_create_holding, read_home,
};
use jb_super::SuperFault;
use std::fs;
use tests_support::{Must, Test, check, check_at};

/// What is answered of an image that another process has open.
static IN_USE: Result<u64, JournalFault> = Err(JournalFault::Image(ImageFault::InUse));

/// Checks an image that is made once there is none, and held: the lock lies on the open file, so that a second open in
/// this process is one of another.
fn check_held<R: FileHost>(rt: &R) {
    let test = By(rt, rt.alloc());
    let is_missing = matches!(
        opened(rt),
        Err(JournalFault::Image(ImageFault::System(fault))) if fault.is_not_found()
    );
    check(&test, is_missing, "an image that is not there");
    let held = open_or_create_holding::<Unknown, R>(rt, NAME, geometry());
    let held = held.must(&test, "an image is not made");
    check(&test, held.blocks() == 49, "how many blocks are made");
    check(
        &test,
        held.block_size() == BlockSize::OneKib,
        "the size of a block",
    );
    check(
        &test,
        opened_or_made(rt, geometry()) == IN_USE,
        "an image in use, which could be made",
    );
    check(&test, opened(rt) == IN_USE, "an image in use");
    let read = looked_at(rt, Opening::Read);
    check(
        &test,
        read == Err(ImageFault::InUse),
        "a reader of an image in use",
    );
    drop(held);
}

/// Checks an image that is read, by more than one, and then opened for change.
fn check_read<R: FileHost>(rt: &R) {
    let test = By(rt, rt.alloc());
    let reader = open_image(rt, NAME, BlockSize::OneKib, Opening::Read).must(&test, "a reader");
    check(
        &test,
        looked_at(rt, Opening::Read) == Ok(49),
        "a second reader",
    );
    check(&test, opened(rt) == IN_USE, "an image that is read");
    drop(reader);
    let held = blocks_of(open_holding::<Unknown, R>(rt, NAME, BlockSize::OneKib));
    check(&test, held == Ok(49), "an image that is read no more");
}

/// Checks the other name of an image whose maker was killed when it had both.
fn check_names(rt: &impl FileHost) {
    let test = By(rt, rt.alloc());
    fs::hard_link(rt, NAME, UNFINISHED).must(&test, "a second name");
    check(
        &test,
        looked_at(rt, Opening::Read) == Ok(49),
        "a reader of two names",
    );
    check(
        &test,
        exists(rt, UNFINISHED),
        "the other name after a reader",
    );
    check(
        &test,
        looked_at(rt, Opening::Change) == Ok(49),
        "a writer of two names",
    );
    check(
        &test,
        !exists(rt, UNFINISHED),
        "the other name after a writer",
    );
}

fn check_opened(rt: &impl FileHost) {
    fresh(rt);
    check_held(rt);
    check_read(rt);
    check_names(rt);
    fresh(rt)
}

/// The size of a block and the homes that are asked for, and why an image with sixteen homes in blocks of 1 KiB is
/// refused.
type Unfit = (BlockSize, u64, JournalFault);

static UNFIT: [Unfit; 2] = [
    (BlockSize::OneKib, 17, JournalFault::FewerHomes),
    (
        BlockSize::TwoKib,
        16,
        JournalFault::Recover(RecoverFault::Super(SuperFault::BlockSize(1024))),
    ),
];

/// Checks that an image that does not fit is refused as its row says.
fn check_unfit_row(rt: &impl FileHost, row: &Unfit, at: u64) {
    let (size, homes, fault) = *row;
    let answer = opened_or_made(rt, ImageGeometry::new(size, 33, homes));
    let is_so = answer == Err(fault);
    check_at(&By(rt, rt.alloc()), is_so, "the answer of row", at)
}

/// The same of each row.
fn check_unfit_rows(rt: &impl FileHost) {
    for (at, row) in UNFIT.iter().enumerate() {
        check_unfit_row(rt, row, at as u64);
    }
}

/// Checks that an image that does not fit is refused.
fn check_unfit(rt: &impl FileHost) {
    fresh(rt);
    let test = By(rt, rt.alloc());
    check(
        &test,
        made(rt, geometry()) == Ok(49),
        "an image is not made",
    );
    check_unfit_rows(rt);
    check(
        &test,
        made(rt, geometry()) == Err(MakeFault::Exists),
        "an image that is there",
    );
    let other = blocks_of(open(rt, ".", BlockSize::OneKib));
    let kind = Err(JournalFault::Image(ImageFault::OtherKind));
    check(&test, other == kind, "a folder");
    fresh(rt)
}

/// Reads a home of an image into a buffer of a block, or of one byte less.
fn read(test: &impl Test, disk: &mut impl Disk, home: u64, len: usize) -> Result<u8, HomeFault> {
    let mut block = [9; 1024];
    let buf = block.get_mut(..len).must(test, "a block");
    read_home(disk, home, buf)?;
    Ok(block[0])
}

/// A home that is read, the length of the buffer, and what is read or answered.
static READS: [(u64, usize, Result<u8, HomeFault>); 4] = [
    (0, 1024, Ok(0)),
    (15, 1024, Ok(0)),
    (
        16,
        1024,
        Err(HomeFault::Peek(PeekFault::HomeOutOfRange(16))),
    ),
    (16, 1023, Err(HomeFault::Length)),
];

/// Checks what is read of a disk while no journal runs.
fn check_homes(test: &impl Test, disk: &mut impl Disk) {
    for (at, (home, len, found)) in READS.iter().enumerate() {
        let is_so = read(test, disk, *home, *len) == *found;
        check_at(test, is_so, "the answer of row", at as u64);
    }
}

fn check_reads(rt: &impl FileHost) {
    fresh(rt);
    let test = By(rt, rt.alloc());
    let mut disk = create_image(rt, NAME, geometry()).must(&test, "an image is not made");
    check_homes(&test, &mut disk);
    fresh(rt)
}

#[test]
fn an_image_is_opened_by_one_process_at_a_time(rt: HostRuntime) {
    check_opened(&rt)
}

#[test]
fn an_image_that_does_not_fit_is_refused(rt: HostRuntime) {
    check_unfit(&rt)
}

#[test]
fn a_home_is_read_without_a_run(rt: HostRuntime) {
    check_reads(&rt)
}
