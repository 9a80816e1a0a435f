//! Runs of the machine, with the answers that its table gives by hand.

use crate::checks::By;
use jb_block::{BlockSize, Width};
use jb_core::{CoreFault, Event, Reply, State, run, step};
use jb_handle::{Op, Payload, Shape};
use std::alloc::Global;
use tests_support::{Must, Test, check_at};

/// What happens in a step: a write is of this many zeros to a home block.
#[derive(Clone, Copy)]
enum Step {
    Open(u64, u32),
    Write(u64, u64, usize),
    Stop(u64),
    Abandon(u64),
    Take(&'static [usize]),
    Settle(usize),
    Checkpoint,
    Crash(usize),
    Restart,
}

type Answer = Result<Reply, CoreFault>;

const DONE: Answer = Ok(Reply::Plain);

/// The most log blocks of a group; the steps, with the answer to each; and what is left: the settled groups, those of
/// them that earlier lives settled, the taken groups, the queued handles, and the handles of the first group.
struct Row(u32, &'static [(Step, Answer)], [usize; 5]);

static ROWS: [Row; 8] = [
    // a crash keeps what was settled
    Row(
        8,
        &[
            (Step::Open(1, 1), DONE),
            (Step::Write(1, 1, 1024), DONE),
            (Step::Open(2, 1), DONE),
            (Step::Write(2, 2, 1024), DONE),
            (Step::Stop(1), Ok(Reply::Ticket(0))),
            (Step::Stop(2), Ok(Reply::Ticket(1))),
            (Step::Take(&[0, 1, 2]), Err(CoreFault::NotLeast)),
            (Step::Take(&[0, 2]), DONE),
            (Step::Take(&[0]), Err(CoreFault::Empty)),
            (Step::Settle(2), Err(CoreFault::Amount)),
            (Step::Settle(1), DONE),
            (Step::Crash(0), DONE),
            (Step::Open(1, 1), Err(CoreFault::Down)),
            (Step::Restart, DONE),
            (Step::Checkpoint, Err(CoreFault::Nothing)),
            (Step::Restart, Err(CoreFault::Up)),
        ],
        [1, 1, 0, 0, 2],
    ),
    // a life begins with no handle, and its tickets with 0
    Row(
        8,
        &[
            (Step::Open(1, 1), DONE),
            (Step::Stop(1), Ok(Reply::Ticket(0))),
            (Step::Open(2, 1), DONE),
            (Step::Crash(0), DONE),
            (Step::Restart, DONE),
            (Step::Open(2, 1), DONE),
            (Step::Stop(2), Ok(Reply::Ticket(0))),
        ],
        [0, 0, 0, 1, 0],
    ),
    // groups are of handles in the order of their stops: the first two of these do not fit together
    Row(
        5,
        &[
            (Step::Open(1, 3), DONE),
            (Step::Write(1, 1, 1024), DONE),
            (Step::Write(1, 2, 1024), DONE),
            (Step::Write(1, 3, 1024), DONE),
            (Step::Open(2, 2), DONE),
            (Step::Write(2, 4, 1024), DONE),
            (Step::Write(2, 5, 1024), DONE),
            (Step::Open(3, 1), DONE),
            (Step::Write(3, 6, 1024), DONE),
            (Step::Stop(1), Ok(Reply::Ticket(0))),
            (Step::Stop(2), Ok(Reply::Ticket(1))),
            (Step::Stop(3), Ok(Reply::Ticket(2))),
            (Step::Take(&[0, 2, 3]), Err(CoreFault::NotLeast)),
            (Step::Take(&[0, 1, 3]), DONE),
        ],
        [0, 0, 2, 0, 1],
    ),
    // credits are granted up to the largest log
    Row(
        2147483646,
        &[
            (Step::Open(1, 2000000000), DONE),
            (Step::Open(2, 147483647), Err(CoreFault::Full(2000000000))),
            (Step::Open(2, 147483646), DONE),
        ],
        [0, 0, 0, 0, 0],
    ),
    // the worst cost of 2000000000 credits is 2016129034 log blocks
    Row(
        2016129034,
        &[(Step::Open(1, 2000000000), DONE)],
        [0, 0, 0, 0, 0],
    ),
    Row(
        2016129033,
        &[(
            Step::Open(1, 2000000000),
            Err(CoreFault::TooManyCredits(1999999999)),
        )],
        [0, 0, 0, 0, 0],
    ),
    // a handle is within its credits and the journal
    Row(
        8,
        &[
            (Step::Open(1, 7), Err(CoreFault::TooManyCredits(6))),
            (Step::Open(1, 2), DONE),
            (Step::Open(1, 1), Err(CoreFault::Busy)),
            (Step::Write(2, 1, 1024), Err(CoreFault::NoHandle)),
            (Step::Write(1, 16, 1024), Err(CoreFault::OutOfRange(16))),
            (Step::Write(1, 15, 1023), Err(CoreFault::Length)),
            (Step::Write(1, 15, 1024), DONE),
            (Step::Write(1, 0, 1024), DONE),
            (Step::Write(1, 1, 1024), Err(CoreFault::NoCredit(2))),
            (Step::Write(1, 15, 1024), DONE),
        ],
        [0, 0, 0, 0, 0],
    ),
    // an abandoned handle leaves nothing, and its credits are free again
    Row(
        2147483646,
        &[
            (Step::Open(1, 2000000000), DONE),
            (Step::Write(1, 1, 1024), DONE),
            (Step::Abandon(1), DONE),
            (Step::Abandon(1), Err(CoreFault::NoHandle)),
            (Step::Stop(1), Err(CoreFault::NoHandle)),
            (Step::Take(&[0]), Err(CoreFault::Empty)),
            (Step::Open(2, 2000000000), DONE),
            (Step::Stop(2), Ok(Reply::Ticket(0))),
        ],
        [0, 0, 0, 1, 0],
    ),
];

/// A small journal whose groups take at most this many log blocks.
fn shape(limit: u32) -> Option<Shape> {
    if limit < 3 {
        return None;
    }
    if limit > 2147483646 {
        return None;
    }
    Some(Shape {
        bs: BlockSize::OneKib,
        homes: 16,
        limit,
        width: Width::Narrow,
    })
}

/// The event of a step.
fn event(test: &impl Test, alloc: Global, step: Step) -> Event {
    match step {
        Step::Open(seat, credits) => Event::Open { seat, credits },
        Step::Write(seat, home, len) => Event::Touch {
            seat,
            op: Op::Write(home, Payload::padded(Vec::new(alloc), len)),
        },
        Step::Stop(seat) => Event::Stop { seat },
        Step::Abandon(seat) => Event::Abandon { seat },
        Step::Take(bounds) => Event::Take {
            bounds: bounds.to_vec(alloc).must(test, "memory"),
        },
        Step::Settle(n) => Event::Settle { n },
        Step::Checkpoint => Event::Checkpoint,
        Step::Crash(n) => Event::Crash { n },
        Step::Restart => Event::Restart,
    }
}

/// What is left, as a row says it.
fn left(state: &State) -> [usize; 5] {
    let first = state.group(0).map_or(0, |handles| handles.len());
    [
        state.settled(),
        state.earlier(),
        state.taken(),
        state.queue().len(),
        first,
    ]
}

/// The events of steps.
fn events_of(test: &impl Test, alloc: Global, steps: &[(Step, Answer)]) -> Vec<Event> {
    let mut events = Vec::new(alloc);
    for (step, _) in steps {
        events.push(event(test, alloc, *step)).must(test, "memory")
    }
    events
}

/// Checks the answers to steps.
fn check_answers(test: &impl Test, answers: &[Answer], steps: &[(Step, Answer)], limit: u64) {
    check_at(test, answers.len() == steps.len(), "how many, limit", limit);
    for (answer, (_, wanted)) in answers.iter().zip(steps) {
        check_at(test, answer == wanted, "an answer, limit", limit)
    }
}

/// Checks the answers of a run, and what it leaves.
fn check_run(test: &impl Test, alloc: Global, wanted: &Row) {
    let Row(limit, steps, after) = wanted;
    let events = events_of(test, alloc, steps);
    let shape = shape(*limit).must(test, "a limit");
    let (state, answers) = run(alloc, shape, events).must(test, "memory");
    let at = u64::from(*limit);
    check_answers(test, &answers, steps, at);
    let is_left = state.is_up() && left(&state) == *after;
    check_at(test, is_left, "what is left, limit", at)
}

/// What is answered to the events of a handle that frees a home block.
fn answers_of_one(state: &mut State, seat: u64) -> [Answer; 3] {
    let opened = step(state, Event::Open { seat, credits: 1 });
    let touched = step(
        state,
        Event::Touch {
            seat,
            op: Op::Revoke(5),
        },
    );
    let stopped = step(state, Event::Stop { seat });
    [opened, touched, stopped]
}

/// Checks the events of a handle that gets this ticket.
fn check_handle(test: &impl Test, state: &mut State, ticket: u64) {
    let answers = answers_of_one(state, ticket);
    let wanted = [DONE, DONE, Ok(Reply::Ticket(ticket))];
    check_at(test, answers == wanted, "the answers to handle", ticket)
}

/// Checks the events of two handles, one after the other.
fn check_steps(test: &impl Test, alloc: Global) {
    let mut state = State::new(alloc, shape(8).must(test, "a limit"));
    check_handle(test, &mut state, 0);
    check_handle(test, &mut state, 1);
    let is_left = left(&state) == [0, 0, 0, 2, 0];
    check_at(test, is_left, "what is left, limit", 8)
}

fn check_runs(test: &impl Test, alloc: Global) {
    check_steps(test, alloc);
    for wanted in &ROWS {
        check_run(test, alloc, wanted)
    }
}

#[test]
fn runs_answer_as_worked_by_hand(rt: HostRuntime) {
    check_runs(&By(&rt), rt.alloc())
}
