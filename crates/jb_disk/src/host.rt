//! Each method makes one call of the system, and then notes it with its answer.
ghost use Rattle.std.specs.Prelude.{◌≡◌, ◌==◌, [], ◌∷◌, is_ok, IfErr, IfOk};
ghost use Rattle.jb_disk.specs.Events.{Asked, Gave, Flushed, Measured};
ghost use Rattle.jb_disk.specs.Failures.{moved, system_reason};

use crate::record::Record;
use crate::{FailureReason, SystemFault};
use std::fs::File;
use std::io;
use std::io::{Seek, SeekFrom};
use std::os::unix::fs::FileExt;

const ASKED: u64 = 0;

const GAVE: u64 = 1;

const FLUSHED: u64 = 2;

const MEASURED: u64 = 3;

/// An open file, with a record of its calls.
#[derive(Drop)]
pub(crate) struct Host {
    file: File,
    log: Record,
}

impl Host {
    /// Takes a file, and asks for its length: the place of its end.
    pub(crate) fn of(mut file: File) -> io::Result<(Host, u64)>
        ensures { IfOk result (λ opened. opened.0.log.events ≡ Measured opened.1 ∷ []) }
    {
        let len = file.seek(SeekFrom::End(0))?;
        let mut log = Record::new();
        log.note(&[MEASURED, len, 1], &[]);
        Ok((Host { file, log }, len))
    }

    /// Fills the buffer from offset `at` on.
    ///
    /// # Errors
    /// Why it was not filled: the system's reason, or there were fewer bytes.
    pub(crate) fn read_at(&mut self, at: u64, buf: &mut [u8]) -> Result<(), FailureReason>
        ensures { self.new.log.events ≡ Asked at (is_ok result) buf.new ∷ self.old.log.events }
    {
        let len = buf.len();
        let answer = whole(self.file.read_at(buf, at), len);
        self.log.note(&[ASKED, at, as_number(&answer)], buf);
        answer
    }

    /// Writes the bytes from offset `at` on.
    ///
    /// # Errors
    /// Why not all of them were written: the system's reason, or it took a part.
    pub(crate) fn write_at(&mut self, at: u64, bytes: &[u8]) -> Result<(), FailureReason>
        ensures { self.new.log.events ≡ Gave at (is_ok result) bytes.now ∷ self.old.log.events }
    {
        let answer = whole(self.file.write_at(bytes, at), bytes.len());
        self.log.note(&[GAVE, at, as_number(&answer)], bytes);
        answer
    }

    /// Syncs the file.
    ///
    /// # Errors
    /// The system's reason.
    pub(crate) fn sync(&mut self) -> Result<(), FailureReason>
        ensures { self.new.log.events ≡ Flushed (is_ok result) ∷ self.old.log.events }
    {
        let answer = match self.file.sync_data() {
            Ok(()) => Ok(()),
            Err(error) => Err(reason_of(error)),
        };
        self.log.note(&[FLUSHED, 0, as_number(&answer)], &[]);
        answer
    }
}

/// Whether a call moved this many bytes, and no fewer, and if it did not why.
fn whole(answer: io::Result<usize>, len: usize) -> Result<(), FailureReason>
    ensures { result ≡ moved answer len }
{
    match answer {
        Ok(moved) if moved == len => Ok(()),
        Ok(_) => Err(FailureReason::Short),
        Err(error) => Err(reason_of(error)),
    }
}

/// The reason of a call that the system refused.
fn reason_of(error: io::Error) -> FailureReason
    ensures { result ≡ system_reason error }
{
    FailureReason::System(SystemFault {
        code: error.raw_os_error(),
    })
}

/// 1 for success.
fn as_number(answer: &Result<(), FailureReason>) -> u64
    ensures { (result == 1) ≡ is_ok answer.now }
{
    if answer.is_ok() { 1 } else { 0 }
}
