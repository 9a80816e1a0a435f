//! Standard output whose reader has gone, as that of `jb dump journal.bin | head -1`.

use std::cell::Cell;
use std::io::{self, ErrorKind, Write};

/// A writer that notes whether anybody reads it.
#[derive(Drop)]
pub(crate) struct Heard<'a, W: Write> {
    writer: W,
    gone: &'a Cell<bool>,
}

impl<'a, W: Write> Heard<'a, W> {
    /// A writer in front of this one, which sets `gone` where a write fails since nobody reads it any more.
    pub(crate) fn new(writer: W, gone: &'a Cell<bool>) -> Heard<'a, W> {
        Heard { writer, gone }
    }
}

impl<'a, W: Write> Write for Heard<'a, W> {
    ghost use Rattle.std.specs.Prelude.{None};

    ghost contents = { λ _. None };

    fn write(&mut self, buf: &[u8]) -> io::Result<usize> {
        match self.writer.write(buf) {
            Ok(n) => Ok(n),
            Err(error) => {
                self.gone.set(error.kind() == ErrorKind::BrokenPipe);
                Err(error)
            }
        }
    }

    fn flush(&mut self) -> io::Result<()> {
        self.writer.flush()
    }
}

/// A writer that passes on what it is given; where it heeds, only as long as `gone` is not set.
#[derive(Drop)]
pub(crate) struct Heeding<'a, W: Write> {
    writer: W,
    gone: &'a Cell<bool>,
    heeds: bool,
}

impl<'a, W: Write> Heeding<'a, W> {
    /// A writer in front of this one, which with `heeds` is silent once `gone` is set.
    pub(crate) fn new(writer: W, gone: &'a Cell<bool>, heeds: bool) -> Heeding<'a, W> {
        Heeding {
            writer,
            gone,
            heeds,
        }
    }
}

impl<'a, W: Write> Write for Heeding<'a, W> {
    ghost use Rattle.std.specs.Prelude.{None};

    ghost contents = { λ _. None };

    fn write(&mut self, buf: &[u8]) -> io::Result<usize> {
        if self.heeds && self.gone.get() {
            return Ok(buf.len());
        }
        self.writer.write(buf)
    }

    fn flush(&mut self) -> io::Result<()> {
        self.writer.flush()
    }
}
