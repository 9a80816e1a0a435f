//! Plans of many queues, which are those of a plain planner.

use crate::checks::By;
use crate::plain::{PlainPlan, plan_plainly};
use jb_block::{BlockSize, Width};
use jb_cost::Geometry;
use jb_handle::{Payload, Stopped, Word, Words, is_within_size};
use jb_plan::{Answer, Planned, plan};
use std::alloc::Global;
use tests_support::{Must, Seed, Test, check, check_at};

#[derive(Clone, Copy)]
enum Change {
    Nothing,
    Write,
    Revoke,
}

/// What a handle does to home blocks 0, 1 and 2.
type Changes = [Change; 3];

/// The change of a digit.
fn change_of(digit: u32) -> Change {
    match digit {
        0 => Change::Nothing,
        1 => Change::Write,
        _ => Change::Revoke,
    }
}

/// The handle of each number below 27: a digit to the base 3 for each home block.
fn changes_of(number: u32) -> Changes {
    [
        change_of(number % 3),
        change_of(number / 3 % 3),
        change_of(number / 9 % 3),
    ]
}

/// A copy of zeros.
fn copy(alloc: Global) -> Word {
    Word::Copy(Payload::padded(Vec::new(alloc), 1024))
}

fn handle_of(test: &impl Test, alloc: Global, ticket: u64, changes: &Changes) -> Stopped {
    let mut words = Words::new(alloc);
    for (home, change) in changes.iter().enumerate() {
        let home = home as u64;
        match change {
            Change::Nothing => {}
            Change::Write => words.put(home, copy(alloc)).must(test, "memory"),
            Change::Revoke => words.put(home, Word::Free).must(test, "memory"),
        }
    }
    Stopped { ticket, words }
}

/// The last change of a group to a home.
fn last_change(group: &[Changes], home: usize) -> Change {
    let mut last = Change::Nothing;
    for changes in group {
        match changes.get(home) {
            Some(Change::Write) => last = Change::Write,
            Some(Change::Revoke) => last = Change::Revoke,
            _ => {}
        }
    }
    last
}

/// The log blocks of a group with at most three homes: each home by the last change to it.
fn blocks(group: &[Changes]) -> u64 {
    let mut writes: u64 = 0;
    let mut revokes: u64 = 0;
    for home in 0..3 {
        match last_change(group, home) {
            Change::Write => writes = writes.saturating_add(1),
            Change::Revoke => revokes = revokes.saturating_add(1),
            Change::Nothing => {}
        }
    }
    writes.min(3) + writes.min(1) + revokes.min(1) + 1
}

/// What the cut with these bounds inside takes, or `None` where a group is over the limit.
fn total(queue: &[Changes], inside: [bool; 3], limit: u64) -> Option<u64> {
    let mut total: u64 = 0;
    let mut from = 0;
    for end in 1..queue.len() + 1 {
        if end == queue.len() || inside.get(end - 1) == Some(&true) {
            let cost = blocks(queue.get(from..end)?);
            if cost > limit {
                return None;
            }
            total = total.saturating_add(cost);
            from = end;
        }
    }
    Some(total)
}

/// The least total over all cuts of at most four handles.
fn least(queue: &[Changes], limit: u64) -> Option<u64> {
    let mut least: Option<u64> = None;
    for number in 0..8 {
        let inside = [number % 2 == 1, number / 2 % 2 == 1, number / 4 == 1];
        if let Some(total) = total(queue, inside, limit) {
            least = Some(least.map_or(total, |least| least.min(total)));
        }
    }
    least
}

fn queue_of(test: &impl Test, alloc: Global, changes: &[Changes]) -> Vec<Stopped> {
    let mut queue = Vec::new(alloc);
    for (ticket, changes) in changes.iter().enumerate() {
        let handle = handle_of(test, alloc, ticket as u64, changes);
        queue.push(handle).must(test, "memory")
    }
    queue
}

/// Whether an answer has the total of the plain planner, and its bounds.
fn is_answer(answer: &Answer, plain: &PlainPlan) -> bool {
    let price = plain.prices.last();
    match answer {
        Answer::Cut { bounds, total } => {
            price == Some(&Some(*total)) && comes_from(bounds, &plain.froms)
        }
        Answer::NoCut => price == Some(&None),
    }
}

/// Whether a plan has the prices of the plain planner, and its bounds.
fn agree(planned: &Planned, plain: &PlainPlan) -> bool {
    planned.prices == plain.prices && is_answer(&planned.answer, plain)
}

/// Whether the bounds begin with 0, end with the last end, and each comes from the one before it.
fn comes_from(bounds: &[usize], froms: &[usize]) -> bool {
    let mut before = 0;
    // the first bound, which is 0, comes from itself
    for bound in bounds {
        if froms.get(*bound) != Some(&before) {
            return false;
        }
        before = *bound;
    }
    bounds.first() == Some(&0) && before.saturating_add(1) == froms.len()
}

/// Checks that a plan is that of the plain planner.
fn check_plain(
    test: &impl Test,
    alloc: Global,
    queue: &[Stopped],
    limit: u32,
    number: u32,
) -> Option<u64> {
    let geometry = Geometry::of(BlockSize::OneKib, Width::Narrow);
    check(test, is_within_size(queue), "too many handles");
    let planned = plan(alloc, queue, geometry, limit).must(test, "memory");
    let plain = plan_plainly(test, alloc, queue, geometry, limit);
    check_at(test, agree(&planned, &plain), "queue", u64::from(number));
    planned.prices.last().copied().unwrap_or(None)
}

/// How many queues there are of no handle, of one, and so on.
static QUEUES: [u32; 5] = [1, 27, 729, 19_683, 531_441];

/// Checks that no cut of a queue of this many handles beats its plan.
fn check_short(test: &impl Test, alloc: Global, handles: usize, number: u32) {
    let numbers = [number, number / 27, number / 729, number / 19_683];
    let four = numbers.map(|number| changes_of(number % 27));
    let changes = four.get(..handles).must(test, "more than four handles");
    let queue = queue_of(test, alloc, changes);
    let limit = 2 + number / 7 % 4;
    let price = check_plain(test, alloc, &queue, limit, number);
    let is_least = price == least(changes, u64::from(limit));
    check_at(test, is_least, "the least of queue", u64::from(number))
}

fn check_each(test: &impl Test, alloc: Global) {
    for (handles, count) in QUEUES.iter().enumerate() {
        for number in 0..*count {
            check_short(test, alloc, handles, number)
        }
    }
}

#[test]
fn no_cut_of_a_short_queue_beats_the_plan(rt: HostRuntime) {
    check_each(&By(&rt), rt.alloc())
}

/// A handle of up to three words over this many homes.
fn chance_handle(test: &impl Test, alloc: Global, seed: &mut Seed, homes: u64) -> Stopped {
    let mut words = Words::new(alloc);
    for _ in 0..seed.below(4) {
        let home = seed.below(homes.max(1));
        let is_free = seed.below(3) == 0;
        let word = if is_free { Word::Free } else { copy(alloc) };
        words.put(home, word).must(test, "memory")
    }
    Stopped { ticket: 0, words }
}

/// Up to 29 handles over up to 12 homes.
fn chance_queue(test: &impl Test, alloc: Global, seed: &mut Seed) -> Vec<Stopped> {
    let homes = 1 + seed.below(12);
    let mut queue = Vec::new(alloc);
    for _ in 0..seed.below(30) {
        let handle = chance_handle(test, alloc, seed, homes);
        queue.push(handle).must(test, "memory")
    }
    queue
}

fn check_longer(test: &impl Test, alloc: Global) {
    let mut seed = Seed { state: 1 };
    for number in 0..400 {
        let queue = chance_queue(test, alloc, &mut seed);
        for limit in [2, 3, 5, 8, 13, 1000] {
            let _ = check_plain(test, alloc, &queue, limit, number);
        }
    }
}

#[test]
fn plans_of_longer_queues_are_those_of_a_plain_planner(rt: HostRuntime) {
    check_longer(&By(&rt), rt.alloc())
}
