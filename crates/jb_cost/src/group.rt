ghost use Rattle.std.specs.Prelude.{◌≡◌, ◌<◌, IfOk, OnErr};
ghost use Rattle.std.specs.List.{Any};
ghost use Rattle.std.specs.FinMap as map;
ghost use Rattle.jb_handle.specs.Size.{IsWithinSize};
ghost use Rattle.jb_cost.specs.Cost.{cost};

use crate::geometry::Geometry;
use crate::last_words::LastWords;
use jb_block::Memory;
use jb_handle::Stopped;
use std::alloc::Global;

/// How many log blocks the handles take as one group: a commit block, a copy of each home block
/// whose last word is a copy, the descriptors that name the copies, and the revoke blocks that name
/// the home blocks whose last word is free.
///
/// # Errors
///
/// `Memory` where there is none for the sets of home blocks, and never where no handle touches one.
pub fn group_cost(alloc: Global, handles: &[Stopped], geometry: Geometry) -> Result<u64, Memory>
    requires size { IsWithinSize handles.now }
    /// The log blocks of some handles as one group. Edit: `adds_the_handles_counts`.
    ensures blocks { IfOk result (λ blocks. blocks ≡ cost geometry handles.now) }
    ensures grows { OnErr result (Any (λ h. 0 < map.len h.words) handles.now) }
{
    let mut last = LastWords::new(alloc);
    for handle in handles {
        last.put_all(&handle.words)?;
    }
    let cost = geometry.blocks(last.copies.len() as u64, last.frees.len() as u64);
    Ok(cost)
}
