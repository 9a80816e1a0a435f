use crate::progress::ShownProgress;
use std::io::{self, Read};
use std::time::Clock;

/// A reader that passes all reads on to another, and shows on a terminal how far they have come.
#[derive(Drop)]
pub(crate) struct WatchedReader<'a, I: Read, K: Clock> {
    reader: I,
    progress: ShownProgress<'a, K>,
    /// The number of the system's error of the last read, where that failed and has one.
    code: Option<i32>,
}

impl<'a, I: Read, K: Clock> WatchedReader<'a, I, K> {
    /// A reader that passes reads on to `reader`.
    pub(crate) fn of(reader: I, progress: ShownProgress<'a, K>) -> WatchedReader<'a, I, K> {
        WatchedReader {
            reader,
            progress,
            code: None,
        }
    }

    /// The reader that reads are passed on to, once nothing is shown any more; and the number of the system's error of
    /// the last read, where that failed and has one.
    pub(crate) fn into_inner(self) -> (I, Option<i32>) {
        let WatchedReader {
            reader,
            progress,
            code,
        } = self;
        progress.end();
        (reader, code)
    }
}

impl<'a, I: Read, K: Clock> Read for WatchedReader<'a, I, K> {
    fn read(&mut self, buf: &mut [u8]) -> io::Result<usize> {
        match self.reader.read(buf) {
            Ok(bytes) => {
                self.progress.read(bytes);
                self.code = None;
                Ok(bytes)
            }
            Err(error) => {
                self.code = error.raw_os_error();
                Err(error)
            }
        }
    }
}
