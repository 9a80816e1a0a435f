ghost use Rattle.std.specs.Prelude.{length, IfOk};
ghost use Rattle.jb_handle.specs.Size.{IsWithinSize};
ghost use Rattle.jb_cost.specs.Cut.{piece_cost, ArePrices};
ghost use Rattle.jb_plan.specs.Plan.{Answers};

use crate::bounds::bounds_to;
use crate::planned::{Answer, Planned};
use crate::price_table::table_of;
use jb_block::Memory;
use jb_cost::Geometry;
use jb_handle::Stopped;
use std::alloc::Global;

/// Cuts a queue of stopped handles, in their order, into groups within the limit that take the
/// fewest log blocks in all, and gives the least numbers of blocks for each prefix of the queue.
///
/// Whether a group is within the limit depends on its own handles alone, so the least number for an
/// end is the best of those before it and one group more. Of several bounds with the same total the
/// least comes before an end. The limit (`j_max_transaction_buffers` of `include/linux/jbd2.h`) and
/// the numbers are in log blocks.
///
/// # Errors
///
/// `Memory` where there is none for the prices, the bounds or the footprint of a group.
pub fn plan(
    alloc: Global,
    handles: &[Stopped],
    geometry: Geometry,
    limit: u32,
) -> Result<Planned, Memory>
    requires size { IsWithinSize handles.now }
    /// A plan's prices are, for each prefix of the handles, the fewest log blocks of a cut within the limit, or none
    /// where no cut fits ([example: `are_prices`](crates/proof_clients/src/examples/cuts.rt)). Edit:
    /// `plan_takes_the_longest_first_group`.
    ensures prices { IfOk result (λ planned. ArePrices (piece_cost geometry handles.now) limit (length handles.now)
        planned.prices.items) }
    /// The plan is a cut within the limit, and no such cut takes fewer log blocks; or it says that none fits, and none
    /// does. Nothing is said of how long it takes. [But see](docs/WRONG_BODIES.md#time). Edit:
    /// `plan_stops_at_the_first_misfit_and_says_that_no_cut_fits`.
    ensures answer { IfOk result (λ planned. Answers (piece_cost geometry handles.now) limit (length handles.now)
        planned.prices.items planned.answer) }
{
    let end = handles.len();
    let table = table_of(alloc, handles, geometry, limit)?;
    let answer = match table.prices[end] {
        Some(total) => {
            let bounds = bounds_to(alloc, &table.froms, end)?;
            Answer::Cut { bounds, total }
        }
        None => Answer::NoCut,
    };
    Ok(Planned {
        answer,
        prices: table.prices,
    })
}
