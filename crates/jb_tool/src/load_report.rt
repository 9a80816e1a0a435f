//! What came of a load, and how it is told.
ghost use Rattle.std.specs.Prelude.{◌≡◌};
ghost use Rattle.jb_tool.specs.Load.{TellsLoadReport, load_fault};

use crate::hints::load_hint;
use crate::{LoadFault, Loaded, tell_loaded};
use jb_args::AnswerForm;
use jb_commands::{CommandFault, CommandOutput, ProgramEnd, failure_of, tell};
use jb_disk::{Failure, FileDisk, Start, Unknown};
use jb_image::ImageDisk;
use jb_journal::OpenFault;
use std::io::Write;

/// What a load has to say once its image is closed.
#[derive(Drop)]
pub enum LoadReport {
    /// What it did, to an image of this many home blocks.
    Loaded(Loaded, u64),
    /// The first fault of its text.
    Text(CommandOutput),
}

/// How a load has ended. `S` and `T` are what is supposed of the image's files, of that with the home blocks and of
/// that with the journal alone.
#[derive(Drop)]
pub struct LoadDone<'a, S: Start = Unknown, T: Start = Unknown> {
    /// The image, as the load has left it; `None` where it was not opened, or was lost with the journal on it.
    pub image: Option<ImageDisk<FileDisk<S>, FileDisk<T>>>,
    /// What the load has to say, or why it ends without an answer.
    pub end: Result<LoadReport, CommandFault<'a>>,
}

impl<'a, S: Start, T: Start> LoadDone<'a, S, T> {
    ghost use Rattle.jb_commands.specs.Reports.{image_tells};
    ghost use Rattle.jb_tool.specs.Load.{TellsLoadEnd};

    /// Closes the image, and then writes what there is to say, in this form, and gives the program's end.
    ///
    /// # Errors
    /// The fault of a load that ended without an answer, with what the image tells of a call that failed, and then
    /// nothing was written; `CommandFault::WriteFault` where standard output took only the beginning of its line.
    pub fn tell<O: Write, E: Write>(
        self,
        form: AnswerForm,
        out: &mut O,
        err: &mut E,
    ) -> Result<ProgramEnd, CommandFault<'a>>
        /// What came of it, in its lines or in JSON, once the image is closed.
        ensures tells { TellsLoadEnd (image_tells self.entry.image) form self.entry.end
            (record { out = O.contents out.old; err = E.contents err.old })
            (record { out = O.contents out.new; err = E.contents err.new }) result }
    {
        let LoadDone { image, end } = self;
        let failure = failure_of(&image);
        // no line is written while an image is open
        drop(image);
        match end {
            Ok(report) => tell_report(form, &report, failure, out, err),
            Err(fault) => Err(fault.with_failure(failure)),
        }
    }
}

/// Writes what a load has to say of an image whose last call that failed was this one.
///
/// # Errors
/// `CommandFault::WriteFault` where standard output took only the beginning of its line.
fn tell_report<'a, O: Write, E: Write>(
    form: AnswerForm,
    report: &LoadReport,
    failure: Option<Failure>,
    out: &mut O,
    err: &mut E,
) -> Result<ProgramEnd, CommandFault<'a>>
    ensures tells { TellsLoadReport failure form report.now
        (record { out = O.contents out.old; err = E.contents err.old })
        (record { out = O.contents out.new; err = E.contents err.new }) result }
{
    match report {
        LoadReport::Loaded(loaded, homes) => {
            let hint = load_hint(loaded, *homes, failure);
            let status = tell_loaded(form, loaded, hint, out, err)?;
            Ok(ProgramEnd { status, hint })
        }
        LoadReport::Text(answer) => tell(answer, out, err),
    }
}

/// What a fault of a load is reported as.
pub(crate) fn fault_of<'a>(fault: LoadFault) -> CommandFault<'a>
    ensures { result ≡ load_fault fault }
{
    match fault {
        LoadFault::BlockSize => CommandFault::BlockSize,
        LoadFault::Open(OpenFault::DeviceFault, told) => CommandFault::DeviceFault(told),
        LoadFault::Open(OpenFault::Super(fault), _) => CommandFault::Super(fault),
        LoadFault::Open(OpenFault::NeedsRecovery, _) => CommandFault::NeedsRecovery,
        LoadFault::Open(OpenFault::NumbersSpent, _) => CommandFault::NumbersSpent,
        LoadFault::Open(OpenFault::Memory, _) => CommandFault::Memory,
        LoadFault::Memory => CommandFault::Memory,
        LoadFault::Accounts => CommandFault::Accounts,
    }
}
