//! Steps of the machine.

use crate::journals::SHAPE;
use crate::met::{Met, tried};
use jb_block::Memory;
use jb_core::{CoreFault, Event, Reply, State, run, step};
use jb_handle::{Op, Payload};
use std::alloc::Global;
use std::fs::File;
use std::rt::Files;

/// A row of a step: its name, what the step answers, and how many handles are then queued, and groups taken and
/// settled.
type Row = (&'static str, Reply, [usize; 3]);

/// A handle that is begun, changed, stopped and taken.
static STEPS: [Row; 4] = [
    ("step:Open", Reply::Plain, [0, 0, 0]),
    ("step:Touch", Reply::Plain, [0, 0, 0]),
    ("step:Stop", Reply::Ticket(0), [1, 0, 0]),
    ("step:Take", Reply::Plain, [0, 1, 0]),
];

/// The event of a step by seat 1: a write is of a block of zeros to home block 1.
fn event(alloc: Global, name: &str) -> Result<Event, Memory> {
    Ok(match name {
        "step:Open" => Event::Open {
            seat: 1,
            credits: 2,
        },
        "step:Touch" => Event::Touch {
            seat: 1,
            op: Op::Write(1, Payload::padded(Vec::new(alloc), 1024)),
        },
        "step:Stop" => Event::Stop { seat: 1 },
        _ => Event::Take {
            bounds: [0, 1].as_slice().to_vec(alloc)?,
        },
    })
}

/// How many handles are queued, and how many groups taken and settled.
fn left(state: &State) -> [usize; 3] {
    [state.queue().len(), state.taken(), state.settled()]
}

/// Whether a step answers and leaves what it must. A machine that ran out of memory is as it was.
fn is_made(state: &mut State, event: Option<Event>, row: &Row) -> Result<bool, Memory> {
    let Some(event) = event else {
        return Ok(false);
    };
    let was = left(state);
    let (_, reply, after) = row;
    match step(state, event) {
        Ok(answer) => Ok(answer == *reply && left(state) == *after),
        Err(CoreFault::Memory) if left(state) == was => Err(Memory),
        Err(_) => Ok(false),
    }
}

/// Whether a machine makes this step.
fn is_stepped(alloc: Global, state: &mut State, row: &Row) -> bool {
    match event(alloc, row.0) {
        Ok(event) => step(state, event) == Ok(row.1),
        Err(_) => false,
    }
}

/// Whether a new machine makes the first steps, this many of them.
fn are_stepped(alloc: Global, state: &mut State, count: usize) -> bool {
    for row in STEPS.iter().take(count) {
        if !is_stepped(alloc, state, row) {
            return false;
        }
    }
    true
}

/// The event of a step for a first call, and that for a second one.
fn two_events(alloc: Global, name: &str) -> Result<Vec<Event>, Memory> {
    let mut events = Vec::new(alloc);
    for _ in 0..2 {
        events.push(event(alloc, name)?)?;
    }
    Ok(events)
}

/// Makes this step.
fn made(rt: &impl Files<File = File>, alloc: Global, state: &mut State, row: &Row) -> Option<Met> {
    let mut events = two_events(alloc, row.0).ok()?;
    tried(rt, || is_made(state, events.pop(), row))
}

/// The step of this name, after those before it.
pub fn step_row(rt: &impl Files<File = File>, alloc: Global, name: &str) -> Option<Met> {
    let at = STEPS.iter().position(|row| row.0 == name)?;
    let row = STEPS.get(at)?;
    let mut state = State::new(alloc, SHAPE);
    if are_stepped(alloc, &mut state, at) {
        made(rt, alloc, &mut state, row)
    } else {
        None
    }
}

/// The events of all steps.
fn events(alloc: Global) -> Result<Vec<Event>, Memory> {
    let mut events = Vec::new(alloc);
    for (name, _, _) in &STEPS {
        events.push(event(alloc, name)?)?;
    }
    Ok(events)
}

/// The events for a first call, and those for a second one.
fn two_runs(alloc: Global) -> Result<Vec<Vec<Event>>, Memory> {
    let mut runs = Vec::new(alloc);
    for _ in 0..2 {
        runs.push(events(alloc)?)?;
    }
    Ok(runs)
}

/// Whether a run over the events of all steps ends as the last one does.
fn is_run(alloc: Global, events: Option<Vec<Event>>) -> Result<bool, Memory> {
    let Some(events) = events else {
        return Ok(false);
    };
    let (state, answers) = run(alloc, SHAPE, events)?;
    let is_answered = answers.len() == 4 && answers.iter().all(|answer| answer.is_ok());
    Ok(is_answered && left(&state) == [0, 1, 0])
}

/// A run over several events.
pub fn run_row(rt: &impl Files<File = File>, alloc: Global) -> Option<Met> {
    let mut runs = two_runs(alloc).ok()?;
    tried(rt, || is_run(alloc, runs.pop()))
}
