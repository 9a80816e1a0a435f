ghost use Rattle.std.specs.Prelude.{◌≡◌, ◌^◌, ◌<◌, [], IfOk, None, Some, length};
ghost use Rattle.jb_commands.specs.AnswerForms.{text_in};
ghost use Rattle.jb_commands.specs.AnswerSaid.{said};
ghost use Rattle.jb_commands.specs.Cost.{cost_facts, cost_line, cost_said};

use crate::command_output::CommandOutput;
use crate::queue_fault::fault_answer;
use jb_args::AnswerForm;
use jb_block::Memory;
use jb_cost::{Geometry, group_cost};
use jb_json::Field;
use jb_queue::read_queue;
use std::alloc::Global;

/// What `jb cost` says of the bytes of a queue text: the log blocks that all its handles take as one group, and whether
/// they fit the text's limit, status 0, or not, status 1; or the text's first fault, status 2.
///
/// # Errors
/// `Memory` where memory ran out.
pub fn cost_answer(alloc: Global, form: AnswerForm, text: &[u8]) -> Result<CommandOutput, Memory>
    requires { length text.now < 2 ^ 63 }
    /// What `cost` prints is a function of the text's bytes, and in JSON the same.
    ensures said { IfOk result (λ answer. cost_said form text.now ≡ Some (said answer)) }
{
    match read_queue(alloc, text) {
        Ok(queue) => {
            let geometry = Geometry::of(queue.bs, queue.width);
            let cost = group_cost(alloc, queue.handles.as_slice(), geometry)?;
            cost_told(alloc, form, cost, queue.limit)
        }
        Err(fault) => fault_answer(alloc, form, fault),
    }
}

/// What is said of a cost and a limit.
fn cost_told(
    alloc: Global,
    form: AnswerForm,
    cost: u64,
    limit: u32,
) -> Result<CommandOutput, Memory>
    ensures said { IfOk result (λ answer. said answer ≡ cost_line form cost limit) }
{
    if cost > u64::from(limit) {
        return cost_reported(alloc, form, 1, cost, limit, false);
    }
    cost_reported(alloc, form, 0, cost, limit, true)
}

/// The answer with this status of a cost that is within a limit or not.
fn cost_reported(
    alloc: Global,
    form: AnswerForm,
    status: u8,
    cost: u64,
    limit: u32,
    fits: bool,
) -> Result<CommandOutput, Memory>
    ensures { IfOk result (λ answer. said answer ≡ record {
      status = status;
      out = text_in form (cost_facts cost limit fits);
      err = [];
      hint = None;
    }) }
{
    let fields = [
        Field::Counted("cost", cost),
        Field::Counted("limit", u64::from(limit)),
        Field::Chosen("fits", fits, "fits", "over"),
    ];
    CommandOutput::told(alloc, form, status, &fields)
}
