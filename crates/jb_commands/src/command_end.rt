//! How a command has ended, with the image that it was over.
ghost use Rattle.std.specs.Prelude.{◌≡◌, None, IfSome};
ghost use Rattle.jb_commands.specs.Reports.{image_tells};

use crate::fault::CommandFault;
use crate::program_end::ProgramEnd;
use crate::report::{Report, said_end, status_end};
use jb_args::AnswerForm;
use jb_disk::{Disk, Failure, FileDisk, Start, Unknown};
use jb_image::ImageDisk;
use std::io::Write;

/// How a command has ended. `S` and `T` are what is supposed of the image's files, of that with the home blocks and of
/// that with the journal alone.
#[derive(Drop)]
pub struct CommandEnd<'a, S: Start = Unknown, T: Start = Unknown> {
    /// The image that the command was over, as it has left it; `None` where none was opened.
    pub image: Option<ImageDisk<FileDisk<S>, FileDisk<T>>>,
    /// What it has to say, or why it ends without an answer.
    pub end: Result<Report, CommandFault<'a>>,
}

impl<'a, S: Start, T: Start> CommandEnd<'a, S, T> {
    ghost use Rattle.std.specs.Prelude.{◌≡◌, None};
    ghost use Rattle.jb_commands.specs.Reports.{TellsEnd, image_tells, said_end as ends_saying};
    ghost use Rattle.jb_commands.specs.Reports.{status_end as ends_so};

    /// The end of a command that has no image open and has written all that it had to say, and ends so.
    pub(crate) fn said(end: Result<ProgramEnd, CommandFault<'a>>) -> CommandEnd<'a, S, T>
        ensures image { result.image ≡ None }
        ensures end { result.end ≡ ends_saying end.entry }
    {
        CommandEnd {
            image: None,
            end: said_end(end),
        }
    }

    /// The same of one that ends with this status.
    pub(crate) fn status(end: Result<u8, CommandFault<'a>>) -> CommandEnd<'a, S, T>
        ensures image { result.image ≡ None }
        ensures end { result.end ≡ ends_so end.entry }
    {
        CommandEnd {
            image: None,
            end: status_end(end),
        }
    }

    /// Closes the image, and then writes what there is to say, in this form, and gives the end of the program.
    ///
    /// # Errors
    /// The fault of a command that ended without an answer, with what the image tells of a call that failed, and then
    /// nothing was written; `CommandFault::WriteFault` where `out` took only the beginning of the text.
    pub fn tell<O: Write>(
        self,
        form: AnswerForm,
        out: &mut O,
    ) -> Result<ProgramEnd, CommandFault<'a>>
        ensures { TellsEnd (image_tells self.entry.image) form self.entry.end (O.contents out.old)
            (O.contents out.new) result }
    {
        let CommandEnd { image, end } = self;
        let failure = failure_of(&image);
        // no line is written while an image is open
        drop(image);
        match end {
            Ok(report) => report.tell(form, out),
            Err(fault) => Err(fault.with_failure(failure)),
        }
    }
}

/// What an image tells of its last call that failed; one that is not open tells nothing.
pub fn failure_of<S: Start, T: Start>(
    image: &Option<ImageDisk<FileDisk<S>, FileDisk<T>>>,
) -> Option<Failure>
    /// The reason that is told of a fault is what the image's own disk tells of its last failed call.
    ensures { IfSome result (image_tells image.now) }
{
    match image {
        Some(disk) => disk.failure(),
        None => None,
    }
}
