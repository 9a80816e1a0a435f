ghost use Rattle.jb_commands.specs.AnswerForms.{text_in};
ghost use Rattle.jb_commands.specs.Format.{formatted_facts};
ghost use Rattle.jb_commands.specs.Outputs.{TellsLine, line_end};

use crate::program_end::ProgramEnd;
use crate::streams::telling::tell_fields;
use jb_args::AnswerForm;
use jb_json::Field;
use jb_text::WriteFault;
use std::io::Write;

/// Writes what is reported of a new journal with this limit.
pub(crate) fn tell_formatted<O: Write>(
    form: AnswerForm,
    limit: u32,
    out: &mut O,
) -> Result<ProgramEnd, WriteFault>
    ensures { TellsLine (text_in form (formatted_facts limit)) (O.contents out.old) (O.contents out.new)
        (line_end result) }
{
    let fields = [
        Field::Marked("formatted", true),
        Field::Counted("limit", u64::from(limit)),
    ];
    tell_fields(form, &fields, out)
}
