ghost use Rattle.jb_commands.specs.AnswerForms.{text_in};
ghost use Rattle.jb_commands.specs.Foresee.{foreseen_facts};
ghost use Rattle.jb_commands.specs.Outputs.{TellsLine, line_end};

use crate::program_end::ProgramEnd;
use crate::streams::recovering::tell_counts;
use jb_args::AnswerForm;
use jb_ext::MapSource;
use jb_recover::Foreseen;
use jb_text::WriteFault;
use std::io::Write;

/// Writes what a recovery would report, and with `list` the home blocks that it would write.
pub(crate) fn tell_foreseen<O: Write>(
    form: AnswerForm,
    told: &Foreseen,
    list: bool,
    found: Option<MapSource>,
    out: &mut O,
) -> Result<ProgramEnd, WriteFault>
    ensures { TellsLine (text_in form (foreseen_facts list found told.now)) (O.contents out.old) (O.contents out.new)
        (line_end result) }
{
    tell_counts(form, told.counts, found, told.homes.as_slice(), list, out)
}
