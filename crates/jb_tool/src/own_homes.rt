//! Home blocks that the handles of a queue touch, and that are the journal's own.
ghost use Rattle.std.specs.Prelude.{◌≡◌, true, IfErr, IfOk};
ghost use Rattle.std.specs.FinMap as map;
ghost use Rattle.jb_image.specs.Images.{is_within, own_home};
ghost use Rattle.jb_queue.specs.QueueLines.{handles_of};
ghost use Rattle.jb_tool.specs.OwnTouched.{own_touched as first_touched};

use jb_block::Memory;
use jb_disk::Disk;
use jb_handle::Words;
use jb_image::ImageDisk;
use jb_queue::QueueLines;
use std::alloc::Global;

/// The first home block that is one of the journal's own and that a handle of a queue touches: of the first such
/// handle, the lowest. The words of one handle are read at a time, and none where the journal is not within its
/// home blocks.
///
/// # Errors
/// `Memory` where there is none for the words of a handle.
pub(crate) fn own_touched<D: Disk, E: Disk>(
    alloc: Global,
    disk: &ImageDisk<D, E>,
    queue: &QueueLines,
) -> Result<Option<u64>, Memory>
    ensures own { IfOk result (λ own. own ≡ first_touched disk.now (handles_of queue.now)) }
    ensures within { IfErr result (λ _. is_within disk.now ≡ true) }
{
    if !disk.is_within() {
        return Ok(None);
    }
    let mut reader = queue.reader();
    for at in 0..queue.len() {
        let Some(words) = reader.read(alloc, 0)? else {
            return Ok(None);
        };
        if let Some(home) = own_of(disk, &words) {
            return Ok(Some(home));
        }
    }
    Ok(None)
}

/// The lowest home block of these words that is one of the journal's own.
fn own_of<D: Disk, E: Disk>(disk: &ImageDisk<D, E>, words: &Words) -> Option<u64>
    ensures { result ≡ own_home disk.now (map.keys words.now) }
{
    for (home, _) in words.entries() {
        if let Some(own) = disk.first_own(&[*home]) {
            return Some(own);
        }
    }
    None
}
