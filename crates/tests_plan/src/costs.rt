//! Costs of queues, by each call that counts them.
ghost use Rattle.jb_handle.specs.Size.{IsWithinSize};

use crate::checks::By;
use crate::texts::{check_cost_told, queue_of};
use jb_block::{BlockSize, Memory, Width};
use jb_cost::{Footprint, Geometry, LastTouches, group_cost, most_credits, worst_cost};
use jb_handle::{Payload, Stopped, Word, Words, is_within_size};
use jb_queue::QueueText;
use std::alloc::Global;
use tests_support::{Must, Test, check, check_at};

/// What a footprint says of the handles, put in from right to left.
fn by_footprint(alloc: Global, handles: &[Stopped], geometry: Geometry) -> Result<u64, Memory>
    requires size { IsWithinSize handles.now }
{
    let mut footprint = Footprint::new(alloc, geometry);
    let mut cost = 1;
    for start in (0..handles.len()).rev() {
        cost = footprint.add_left(&handles[start])?;
    }
    Ok(cost)
}

/// Whether the first handle of a queue is added to the last touches of none.
fn is_added(alloc: Global, handles: &[Stopped], geometry: Geometry) -> bool {
    let mut touches = LastTouches::new(alloc, geometry);
    match handles.first() {
        Some(handle) => touches.add(handle, Some(0)).is_ok(),
        None => true,
    }
}

/// Checks the cost of the handles of a queue, by each call that counts it.
fn check_counts(test: &impl Test, alloc: Global, queue: &QueueText, cost: u64, row: u64)
    requires { IsWithinSize queue.now.handles.items }
{
    let geometry = Geometry::of(queue.bs, queue.width);
    let whole = group_cost(alloc, &queue.handles, geometry).must(test, "memory");
    check_at(test, whole == cost, "the cost of row", row);
    let footprint = by_footprint(alloc, &queue.handles, geometry).must(test, "memory");
    check_at(test, footprint == cost, "the footprint of row", row);
    let is_added = is_added(alloc, &queue.handles, geometry);
    check_at(test, is_added, "the last touches of row", row)
}

/// Checks the cost of the handles of a text, and what `jb cost` says of it.
fn check_cost(test: &impl Test, alloc: Global, text: &[u8], wanted: &Cost, row: u64) {
    let Cost(cost, status, said) = wanted;
    let queue = queue_of(test, alloc, text);
    check_counts(test, alloc, &queue, *cost, row);
    check_cost_told(test, alloc, text, (*status, said, ""), row)
}

/// A cost; the status of `jb cost`, which is 1 where it is over the limit; and what it says.
struct Cost(u64, u8, &'static str);

const COST_1: Cost = Cost(1, 0, "cost 1 limit 3 fits\n");

const COST_4: Cost = Cost(4, 0, "cost 4 limit 7 fits\n");

/// The text of a queue, and its cost.
struct Row(&'static [u8], Cost);

static ROWS: [Row; 7] = [
    Row(
        b"bs 1024\nlimit 7\nh w1 w2 w3\nh w3 w4 w5\nh w1 w2\n",
        Cost(7, 0, "cost 7 limit 7 fits\n"),
    ),
    Row(
        b"bs 1024\nlimit 6\nh w1 w2 w3\nh w3 w4 w5\nh w1 w2\n",
        Cost(7, 1, "cost 7 limit 6 over\n"),
    ),
    Row(b"bs 1024\nlimit 3\n", COST_1),
    Row(b"bs 1024\nlimit 3", COST_1),
    Row(b"bs 4096\nlimit 3\nh\nh\n", COST_1),
    Row(b"bs 1024\nlimit 7\nh w1 w4294967295=aBcD", COST_4),
    Row(b"bs 1024 wide\nlimit 7\nh w4294967301 w5\n", COST_4),
];

/// The two lines of narrow blocks of 1,024 bytes, and what a handle begins with.
const NARROW: &str = "bs 1024\nlimit 128\nh";

/// The same of wide ones.
const WIDE: &str = "bs 1024 wide\nlimit 128\nh";

const COST_2: Cost = Cost(2, 0, "cost 2 limit 128 fits\n");

const COST_3: Cost = Cost(3, 0, "cost 3 limit 128 fits\n");

/// The text of one handle without its words, their letter and their number, and its cost.
struct Full(&'static str, &'static str, u32, Cost);

/// Full blocks end where the format says.
static FULL: [Full; 10] = [
    Full(NARROW, "w", 124, Cost(126, 0, "cost 126 limit 128 fits\n")),
    Full(NARROW, "w", 125, Cost(128, 0, "cost 128 limit 128 fits\n")),
    Full(NARROW, "w", 126, Cost(129, 1, "cost 129 limit 128 over\n")),
    Full(NARROW, "r", 252, COST_2),
    Full(NARROW, "r", 253, COST_3),
    Full(WIDE, "w", 83, Cost(85, 0, "cost 85 limit 128 fits\n")),
    Full(WIDE, "w", 84, Cost(87, 0, "cost 87 limit 128 fits\n")),
    Full(WIDE, "r", 126, COST_2),
    Full("bs 2048 wide\nlimit 128\nh", "r", 127, COST_2),
    Full(WIDE, "r", 127, COST_3),
];

/// The text of one handle, which begins with this and has these words on the home blocks from 0 on.
pub fn one_handle(
    test: &impl Test,
    alloc: Global,
    front: &str,
    letter: &str,
    count: u32,
) -> String {
    let mut text = String::from_str(alloc, front).must(test, "memory");
    for home in 0..count {
        write!(text, " {letter}{home}").must(test, "memory")
    }
    text
}

/// Checks the most that credits may cost, and the most credits that a limit takes.
fn check_credits(test: &impl Test) {
    let geometry = Geometry::of(BlockSize::OneKib, Width::Narrow);
    for (credits, cost) in [(0, 1), (6, 8), (125, 128)] {
        let is_so = worst_cost(credits, geometry) == cost;
        check_at(test, is_so, "the most that credits cost", cost)
    }
    check(test, most_credits(geometry, 8) == 6, "credits of 8 blocks");
    check(test, most_credits(geometry, 1) == 0, "credits of 1 block")
}

/// What a handle leaves at a home: nothing, a copy, or that it is free.
fn put_choice(alloc: Global, words: &mut Words, home: u64, choice: u32) -> Result<(), Memory> {
    match choice % 3 {
        0 => Ok(()),
        1 => words.put(home, Word::Copy(Payload::padded(Vec::new(alloc), 1024))),
        _ => words.put(home, Word::Free),
    }
}

/// One of the nine handles over two homes.
fn choice(test: &impl Test, alloc: Global, number: u32) -> Stopped {
    let mut words = Words::new(alloc);
    put_choice(alloc, &mut words, 0, number).must(test, "memory");
    put_choice(alloc, &mut words, 1, number / 3).must(test, "memory");
    Stopped { ticket: 0, words }
}

/// Checks that a footprint agrees on the cost of a queue.
fn check_footprint(test: &impl Test, alloc: Global, queue: &[Stopped], number: u64) {
    check(test, is_within_size(queue), "three handles are too many");
    let geometry = Geometry::of(BlockSize::FourKib, Width::Wide);
    let whole = group_cost(alloc, queue, geometry).must(test, "memory");
    let footprint = by_footprint(alloc, queue, geometry).must(test, "memory");
    check_at(test, footprint == whole, "queue", number)
}

/// Checks that a footprint agrees on each queue of three of them.
fn check_choices(test: &impl Test, alloc: Global) {
    for number in 0..729 {
        let queue = [
            choice(test, alloc, number),
            choice(test, alloc, number / 9),
            choice(test, alloc, number / 81),
        ];
        check_footprint(test, alloc, &queue, u64::from(number))
    }
}

/// Checks the costs of queues.
fn check_rows(test: &impl Test, alloc: Global) {
    for (row, wanted) in ROWS.iter().enumerate() {
        check_cost(test, alloc, wanted.0, &wanted.1, row as u64)
    }
}

/// Checks the cost of a handle of this many words.
fn check_words(test: &impl Test, alloc: Global, wanted: &Full, row: u64) {
    let Full(front, letter, count, cost) = wanted;
    let text = one_handle(test, alloc, front, letter, *count);
    check_cost(test, alloc, text.as_bytes(), cost, row)
}

/// Checks the costs of handles that fill blocks.
fn check_full(test: &impl Test, alloc: Global) {
    for (row, wanted) in FULL.iter().enumerate() {
        check_words(test, alloc, wanted, (row as u64).saturating_add(10))
    }
}

fn check_costs(test: &impl Test, alloc: Global) {
    check_rows(test, alloc);
    check_full(test, alloc);
    check_credits(test);
    check_choices(test, alloc)
}

#[test]
fn costs_are_those_worked_by_hand(rt: HostRuntime) {
    check_costs(&By(&rt), rt.alloc())
}
