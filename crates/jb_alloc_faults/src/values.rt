//! Calls that count blocks.
ghost use Rattle.jb_handle.specs.Size.{IsWithinSize};

use crate::met::{Met, tried};
use crate::texts::{CERTIFICATE, THREE};
use jb_block::Memory;
use jb_cost::{Footprint, Geometry, group_cost};
use jb_handle::{Stopped, is_within_size};
use jb_plan::{Answer, Planned, plan};
use jb_price::{Cert, Verdict, check, read_cert};
use jb_queue::{QueueText, read_queue};
use std::alloc::Global;
use std::fs::File;
use std::rt::Files;

/// The least numbers of blocks for the prefixes of the three handles.
pub const PRICES: [Option<u64>; 4] = [Some(0), Some(5), Some(7), Some(7)];

/// The rows of the calls over the three handles, by their names.
pub fn row(rt: &impl Files<File = File>, alloc: Global, name: &str) -> Option<Met> {
    let queue = read_queue(alloc, THREE).ok()?;
    row_of(rt, alloc, name, &queue)
}

/// The row of this name over a queue.
fn row_of(
    rt: &impl Files<File = File>,
    alloc: Global,
    name: &str,
    queue: &QueueText,
) -> Option<Met> {
    let cert = read_cert(alloc, CERTIFICATE.as_bytes(), 3).ok()?;
    tried(rt, || is_least(alloc, name, queue, &cert))
}

/// Whether the call of this name counts the fewest blocks for the three handles.
fn is_least(alloc: Global, name: &str, queue: &QueueText, cert: &Cert) -> Result<bool, Memory> {
    let handles = queue.handles.as_slice();
    if !is_within_size(handles) || cert.prices.len() != 4 || handles.len() != 3 {
        return Ok(false);
    }
    let geometry = Geometry::of(queue.bs, queue.width);
    Ok(match name {
        "plan" => is_planned(&plan(alloc, handles, geometry, queue.limit)?),
        "group_cost" => group_cost(alloc, handles, geometry)? == 7,
        "add_left" => by_footprint(alloc, handles, geometry)? == 7,
        "check" => check(alloc, handles, geometry, queue.limit, cert)? == Verdict::Accepted,
        _ => false,
    })
}

/// Whether a plan has the prices of the three handles, their bounds and their total.
fn is_planned(planned: &Planned) -> bool {
    match &planned.answer {
        Answer::Cut { bounds, total } => {
            planned.prices.as_slice() == PRICES.as_slice()
                && bounds.as_slice() == [0, 3].as_slice()
                && *total == 7
        }
        Answer::NoCut => false,
    }
}

/// What a footprint says of the handles, put in from right to left.
fn by_footprint(alloc: Global, handles: &[Stopped], geometry: Geometry) -> Result<u64, Memory>
    requires size { IsWithinSize handles.now }
{
    let mut footprint = Footprint::new(alloc, geometry);
    let mut cost = 1;
    for start in (0..handles.len()).rev() {
        cost = footprint.add_left(&handles[start])?;
    }
    Ok(cost)
}
