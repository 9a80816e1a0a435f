ghost use Rattle.std.specs.Prelude.{◌≡◌, ◌<◌, [], length, All, IfOk, OnErr};
ghost use Rattle.jb_core.specs.Steps.{MachineSteps};
ghost use Rattle.jb_core.specs.Lives.{log_from, IsKnown, IsWhole};
ghost use Rattle.jb_core.specs.MachineRuns.{RanFromStart};

use crate::event::{CoreFault, Event, Reply};
use crate::state::State;
use jb_block::Memory;
use jb_handle::Shape;
use std::alloc::Global;

/// Lets one event happen to the machine.
///
/// # Errors
///
/// The first refusal of the event, in the order of `CoreFault`, and the machine is as it was. `Memory`
/// where there is none for a handle that begins, changes a block or joins the queue, or for a Take.
pub fn step(state: &mut State, event: Event) -> Result<Reply, CoreFault>
    /// Each event is answered by the machine's table. Edit: `crash_turns_the_unsettled_handles_round`.
    ensures { MachineSteps event state.old result state.new }
{
    if !state.is_up() {
        return match event {
            Event::Restart => state.restart(),
            _ => Err(CoreFault::Down),
        };
    }
    match event {
        Event::Open { seat, credits } => state.open(seat, credits),
        Event::Touch { seat, op } => state.touch(seat, op),
        Event::Stop { seat } => state.stop(seat),
        Event::Abandon { seat } => state.abandon(seat),
        Event::Take { bounds } => state.take(&bounds),
        Event::Settle { n } => state.settle(n),
        Event::Checkpoint => state.checkpoint(),
        Event::Crash { n } => state.crash(n),
        Event::Restart => state.restart(),
    }
}

#[tactic(auto, using(crate::proofs::WholeLives::whole))]
/// Lets a list of events happen to a new machine, one after the other, and gives the machine and an
/// answer for each event.
///
/// # Errors
///
/// `Memory` where a step answers it, which ends the run, or where there is none for the answers; then
/// there is an event.
pub fn run(
    alloc: Global,
    shape: Shape,
    events: Vec<Event>,
) -> Result<(State, Vec<Result<Reply, CoreFault>>), Memory>
    ensures each { IfOk result (λ end. length end.1.items ≡ length events.items) }
    ensures known { IfOk result (λ end. All IsKnown end.1.items) }
    ensures ran { IfOk result (λ end. RanFromStart shape (log_from [] events.items end.1.items) end.0) }
    ensures grows { OnErr result (0 < length events.items) }
    /// With `ran`: Over every list of events the settled, taken and queued handles are those of the life's stops, each
    /// whole and once; once it has crashed, the settled ones are a prefix of them. Edit:
    /// `crash_turns_the_unsettled_handles_round`.
    ensures whole { IfOk result (λ end. IsWhole (log_from [] events.items end.1.items) end.0) }
{
    let mut state = State::new(alloc, shape);
    let mut answers = Vec::new(alloc);
    for event in events {
        let answer = step(&mut state, event);
        if answer == Err(CoreFault::Memory) {
            return Err(Memory);
        }
        let Ok(()) = answers.push(answer) else {
            return Err(Memory);
        };
    }
    Ok((state, answers))
}
