//! Texts that are no queues: their first fault, and what is said of it.

use crate::texts::check_cost_told;
use jb_queue::{Cause, QueueFault, read_lines, read_queue};
use std::alloc::Global;
use tests_support::{Must, Test, check, check_at};

/// A text, the line of its first fault, and the cause.
struct Row(&'static [u8], u64, Cause);

static FAULTY: [Row; 51] = [
    Row(b"", 1, Cause::BlockSizeLine),
    Row(b"bs 512\nlimit 2\n", 1, Cause::BlockSizeLine),
    Row(b"bs 01024\n", 1, Cause::BlockSizeLine),
    Row(b"bs 1024\r\nlimit 7\n", 1, Cause::BlockSizeLine),
    Row(b"bs 1024\r\nlimit 7\r\nh\r\n", 1, Cause::BlockSizeLine),
    Row(b"bs 1024 \nlimit 7\n", 1, Cause::BlockSizeLine),
    Row(b"bs 1024 wide \nlimit 7\n", 1, Cause::BlockSizeLine),
    Row(b"bs 1024  wide\nlimit 7\n", 1, Cause::BlockSizeLine),
    Row(b"bs 1024 Wide\nlimit 7\n", 1, Cause::BlockSizeLine),
    Row(b"bs 1024 Wide\nlimit 7\nh\n", 1, Cause::BlockSizeLine),
    Row(b"bs 1024 narrow\nlimit 7\n", 1, Cause::BlockSizeLine),
    Row(b"bs 512 wide\nlimit 7\n", 1, Cause::BlockSizeLine),
    Row(b"bs 1024 wide", 2, Cause::LimitLine),
    Row(b"bs 1024", 2, Cause::LimitLine),
    Row(b"bs 1024\n", 2, Cause::LimitLine),
    Row(b"bs 1024\nlimit 2", 2, Cause::LimitLine),
    Row(b"bs 1024\nlimit 2\n", 2, Cause::LimitLine),
    Row(b"bs 2048\nlimit 2147483647\n", 2, Cause::LimitLine),
    Row(b"bs 4096\nlimit 7 \n", 2, Cause::LimitLine),
    Row(b"bs 1024\nlimit 7\nx\n", 3, Cause::HandleLine),
    Row(b"bs 1024\nlimit 7\n\n", 3, Cause::HandleLine),
    Row(b"bs 1024\nlimit 7\n\nh w01\n", 3, Cause::HandleLine),
    Row(b"bs 1024\nlimit 7\nh\th w1\n", 3, Cause::HandleLine),
    Row(b"bs 1024\nlimit 7\nh\tw1\n", 3, Cause::HandleLine),
    Row(b"bs 1024\nlimit 7\nhw1\n", 3, Cause::HandleLine),
    Row(b"bs 1024\nlimit 7\nh\0\n", 3, Cause::HandleLine),
    Row(b"bs 1024\nlimit 7\nh \n", 3, Cause::OpWord),
    Row(b"bs 1024\nlimit 7\nh w1\0\n", 3, Cause::OpWord),
    Row(b"bs 1024\nlimit 7\nh \xff\xfe\n", 3, Cause::OpWord),
    Row(b"bs 1024\nlimit 7\nh w01\n", 3, Cause::OpWord),
    Row(b"bs 1024\nlimit 7\nh x2\n", 3, Cause::OpWord),
    Row(b"bs 1024\nlimit 7\nh w1\r\n", 3, Cause::OpWord),
    Row(b"bs 1024\nlimit 7\nh  w1\n", 3, Cause::OpWord),
    Row(b"bs 1024\nlimit 7\nh w1  w2\n", 3, Cause::OpWord),
    Row(b"bs 1024\nlimit 7\nh w1 \n", 3, Cause::OpWord),
    Row(b"bs 1024\nlimit 7\nh w\n", 3, Cause::OpWord),
    Row(b"bs 1024\nlimit 7\nh w1 w", 3, Cause::OpWord),
    Row(b"bs 1024\nlimit 7\nh w1 r", 3, Cause::OpWord),
    Row(b"bs 1024\nlimit 7\nh r1=00\n", 3, Cause::OpWord),
    Row(
        b"bs 1024\nlimit 7\nh w18446744073709551616\n",
        3,
        Cause::OpWord,
    ),
    Row(
        b"bs 1024\nlimit 7\nh w18446744073709551617\n",
        3,
        Cause::OpWord,
    ),
    Row(
        b"bs 1024 wide\nlimit 7\nh r18446744073709551616\n",
        3,
        Cause::OpWord,
    ),
    Row(b"bs 1024\nlimit 7\nh w\xc3\xa9\n", 3, Cause::OpWord),
    Row(b"bs 1024\nlimit 7\nh w1=c\n", 3, Cause::DataWord),
    Row(b"bs 1024\nlimit 7\nh w1=\n", 3, Cause::DataWord),
    Row(b"bs 1024\nlimit 7\nh w1=0g\n", 3, Cause::DataWord),
    Row(b"bs 1024\nlimit 7\nh w1=00=00\n", 3, Cause::DataWord),
    Row(b"bs 1024\nlimit 7\nh w1=c x\n", 3, Cause::DataWord),
    Row(b"bs 1024\nlimit 7\nh w1 w2=0", 3, Cause::DataWord),
    Row(b"bs 1024\nlimit 7\nh w1\nh w1=\nx\n", 4, Cause::DataWord),
    Row(b"bs 1024\nlimit 7\nh\nh x w1=c\ny\n", 4, Cause::OpWord),
];

/// The name of a cause.
fn name_of(cause: Cause) -> &'static str {
    match cause {
        Cause::BlockSizeLine => "BlockSizeLine",
        Cause::LimitLine => "LimitLine",
        Cause::HandleLine => "HandleLine",
        Cause::OpWord => "OpWord",
        Cause::DataWord => "DataWord",
        Cause::Memory => "Memory",
    }
}

/// What is said of a fault in a line.
fn said(test: &impl Test, alloc: Global, fault: QueueFault) -> String {
    let (line, name) = (fault.line, name_of(fault.cause));
    format!(in alloc; "jb: queue line {line}: {name}\n").must(test, "memory")
}

/// The first fault of the lines of a text.
fn fault_of_lines(test: &impl Test, alloc: Global, text: &[u8]) -> Option<QueueFault> {
    let bytes = text.to_vec(alloc).must(test, "memory");
    read_lines(alloc, bytes).err()
}

/// Checks the first fault of a text, and what `jb cost` says of it.
fn check_fault(test: &impl Test, alloc: Global, text: &[u8], fault: QueueFault, row: u64) {
    let found = read_queue(alloc, text).err();
    check_at(test, found == Some(fault), "the fault of row", row);
    let found = fault_of_lines(test, alloc, text);
    check_at(test, found == Some(fault), "the lines' fault of row", row);
    let err = said(test, alloc, fault);
    check_cost_told(test, alloc, text, (2, "", err.as_str()), row)
}

/// Checks the fault of a row.
fn check_row(test: &impl Test, alloc: Global, wanted: &Row, row: u64) {
    let Row(text, line, cause) = wanted;
    let (line, cause) = (*line, *cause);
    check_fault(test, alloc, text, QueueFault { line, cause }, row)
}

/// Checks that a text is a queue without a handle.
fn check_none(test: &impl Test, alloc: Global, text: &[u8]) {
    let queue = read_queue(alloc, text).must(test, "a limit is refused");
    check(test, queue.handles.is_empty(), "a handle of none")
}

/// Checks texts with their first fault.
fn check_each_fault(test: &impl Test, alloc: Global) {
    for (row, wanted) in FAULTY.iter().enumerate() {
        check_row(test, alloc, wanted, row as u64)
    }
}

/// Checks texts with their first fault, and two queues without a handle.
pub fn check_faults(test: &impl Test, alloc: Global) {
    check_none(test, alloc, b"bs 2048\nlimit 3");
    check_none(test, alloc, b"bs 4096\nlimit 2147483646\n");
    check_each_fault(test, alloc)
}
