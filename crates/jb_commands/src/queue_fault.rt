ghost use Rattle.std.specs.Prelude.{◌≡◌, IfOk, Some, option_map};
ghost use Rattle.jb_commands.specs.QueueFaults.{cause_told, queue_fault};
ghost use Rattle.jb_commands.specs.AnswerSaid.{said};

use crate::command_output::{CommandOutput, TextFault};
use itoa::Buffer;
use jb_args::{AnswerForm, Hint};
use jb_block::Memory;
use jb_queue::{Cause, QueueFault};
use std::alloc::Global;

/// What every command over a queue text says of its first fault in this form, status 2.
///
/// # Errors
/// `Memory` where that is the fault, and where memory ran out.
pub fn fault_answer(
    alloc: Global,
    form: AnswerForm,
    fault: QueueFault,
) -> Result<CommandOutput, Memory>
    ensures said { IfOk result (λ answer. queue_fault form fault ≡ Some (said answer)) }
{
    let Some((cause, hint)) = told_as(fault.cause) else {
        return Err(Memory);
    };
    let mut digits = Buffer::new();
    let reason = ["queue line ", digits.format(fault.line), ": ", cause];
    let numbers = [fault.line];
    let fault = TextFault {
        name: cause,
        numbers: &numbers,
        reason: &reason,
        hint,
    };
    CommandOutput::fault(alloc, form, fault)
}

/// The name of what is wrong with a line, and its hint; of memory that ran out there is none.
fn told_as(cause: Cause) -> Option<(&'static str, Hint)>
    ensures { option_map (λ told. (told.0.now, told.1)) result ≡ cause_told cause }
{
    match cause {
        Cause::BlockSizeLine => Some(("BlockSizeLine", Hint::QueueBlockSizeLine)),
        Cause::LimitLine => Some(("LimitLine", Hint::QueueLimitLine)),
        Cause::HandleLine => Some(("HandleLine", Hint::QueueHandleLine)),
        Cause::OpWord => Some(("OpWord", Hint::QueueOpWord)),
        Cause::DataWord => Some(("DataWord", Hint::QueueDataWord)),
        Cause::Memory => None,
    }
}
