ghost use Rattle.std.specs.Prelude.{◌↔◌, length, IfOk, IsTrue};
ghost use Rattle.jb_handle.specs.Size.{IsWithinSize};
ghost use Rattle.jb_cost.specs.Cut.{IsLeastCut, piece_cost};
ghost use Rattle.jb_core.specs.Exactly.{CostsExactly, GoesOn};

use jb_block::Memory;
use jb_cost::{Geometry, group_cost};
use jb_handle::Stopped;
use jb_plan::{Answer, plan};
use std::alloc::Global;

/// Whether the bounds are a cut of the handles into groups within the limit that no such cut beats:
/// one that takes as many log blocks as the planner's.
pub fn is_least(
    alloc: Global,
    handles: &[Stopped],
    bounds: &[usize],
    geometry: Geometry,
    limit: u32,
) -> Result<bool, Memory>
    requires size { IsWithinSize handles.now }
    ensures { IfOk result (λ yes. IsTrue yes ↔ IsLeastCut (piece_cost geometry handles.now) limit (length handles.now)
        bounds.now) }
{
    let planned = plan(alloc, handles, geometry, limit)?;
    match planned.answer {
        Answer::Cut { bounds: _, total } => {
            costs_exactly(alloc, handles, bounds, geometry, limit, total)
        }
        Answer::NoCut => Ok(false),
    }
}

/// Whether the bounds are a cut of the handles into groups within the limit that takes this many log
/// blocks.
fn costs_exactly(
    alloc: Global,
    handles: &[Stopped],
    bounds: &[usize],
    geometry: Geometry,
    limit: u32,
    blocks: u64,
) -> Result<bool, Memory>
    requires size { IsWithinSize handles.now }
    ensures { IfOk result (λ yes. IsTrue yes ↔ CostsExactly (piece_cost geometry handles.now) limit
        (length handles.now) blocks bounds.now) }
{
    let Some((&first, ends)) = bounds.split_first() else {
        return Ok(false);
    };
    if first != 0 {
        return Ok(false);
    }
    goes_on(alloc, handles, ends, geometry, limit, blocks)
}

/// The same of the bounds after the first one. The blocks that are left go down, so that no sum
/// can pass 64 bits.
fn goes_on(
    alloc: Global,
    handles: &[Stopped],
    ends: &[usize],
    geometry: Geometry,
    limit: u32,
    blocks: u64,
) -> Result<bool, Memory>
    requires size { IsWithinSize handles.now }
    ensures { IfOk result (λ yes. IsTrue yes ↔ GoesOn (piece_cost geometry handles.now) limit (length handles.now) 0
        blocks ends.now) }
{
    let mut start = 0;
    let mut left = blocks;
    for &end in ends {
        if end <= start {
            return Ok(false);
        }
        if end > handles.len() {
            return Ok(false);
        }
        let cost = group_cost(alloc, &handles[start..end], geometry)?;
        if cost > u64::from(limit) {
            return Ok(false);
        }
        if cost > left {
            return Ok(false);
        }
        left -= cost;
        start = end;
    }
    Ok(start == handles.len() && left == 0)
}
