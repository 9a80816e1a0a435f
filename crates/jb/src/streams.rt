use std::fs::File;
use std::io;
use std::os::fd::{AsFd, AsRawFd};

/// The highest descriptor of a standard stream: 0 is standard input, 1 standard output, 2 standard error.
const LAST: i32 = 2;

/// Opens `/dev/null` in the place of each standard stream that is closed, for reading: a read of it gives no bytes, and
/// a write to it fails. Otherwise the next file that is opened gets the number of that stream, and takes what is
/// written to it. The streams stay so for as long as the files are kept.
///
/// # Errors
/// Those of the system, where a stream is closed and `/dev/null` cannot be opened.
pub(crate) fn fill_closed(rt: &HostRuntime) -> io::Result<[Option<File>; 3]> {
    let mut files = [None, None, None];
    if is_open(&rt.stdin()) && is_open(&rt.stdout()) && is_open(&rt.stderr()) {
        return Ok(files);
    }
    for place in &mut files {
        // a new file gets the lowest descriptor that is free
        let file = File::open(rt, "/dev/null")?;
        if file.as_raw_fd() > LAST {
            return Ok(files);
        }
        *place = Some(file);
    }
    Ok(files)
}

/// Whether the descriptor of a stream is open: the system can give another one of the same file, which is closed again.
fn is_open<S: AsFd>(stream: &S) -> bool {
    stream.as_fd().try_clone_to_owned().is_ok()
}
