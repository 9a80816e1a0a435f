ghost use Rattle.std.specs.Prelude.{◌+◌, length, IfOk};
ghost use Rattle.jb_handle.specs.Size.{IsWithinSize};
ghost use Rattle.jb_cost.specs.Cut.{piece_cost};
ghost use Rattle.jb_plan.specs.Step.{IsTable, most_of};

use jb_block::Memory;
use jb_cost::{Geometry, LastTouches};
use jb_handle::Stopped;
use std::alloc::Global;

/// The least number of log blocks for each prefix of a queue, and where its last group begins.
#[derive(Drop)]
pub(crate) struct PriceTable {
    pub(crate) prices: Vec<Option<u64>>,
    pub(crate) froms: Vec<usize>,
}

impl PriceTable {
    ghost use Rattle.std.specs.Prelude.{◌≡◌, ◌++◌, [], ◌∷◌, Some, OnOk};

    /// The table of no handles: the cut of no group takes no blocks.
    fn new(alloc: Global) -> Result<PriceTable, Memory>
        ensures prices { IfOk result (λ table. table.prices.items ≡ Some 0 ∷ []) }
        ensures froms { IfOk result (λ table. table.froms.items ≡ 0 ∷ []) }
    {
        Ok(PriceTable {
            prices: vec![in alloc; Some(0)]?,
            froms: vec![in alloc; 0]?,
        })
    }

    /// Adds the price of the next end, and where its last group begins.
    fn push(&mut self, price: Option<u64>, from: usize) -> Result<(), Memory>
        ensures prices { OnOk result (self.new.prices.items ≡ self.old.prices.items ++ price ∷ []) }
        ensures froms { OnOk result (self.new.froms.items ≡ self.old.froms.items ++ from ∷ []) }
    {
        self.prices.push(price)?;
        self.froms.push(from)?;
        Ok(())
    }
}

/// The table of a whole queue, from its front on: each end needs the prices before it.
pub(crate) fn table_of(
    alloc: Global,
    handles: &[Stopped],
    geometry: Geometry,
    limit: u32,
) -> Result<PriceTable, Memory>
    requires size { IsWithinSize handles.now }
    ensures { IfOk result (λ table. IsTable (piece_cost geometry handles.now) limit (most_of handles.now)
        (length handles.now) table.prices.items table.froms.items) }
{
    let mut touches = LastTouches::new(alloc, geometry);
    let mut table = PriceTable::new(alloc)?;
    for last in 0..handles.len() {
        touches.add(&handles[last], table.prices[last])?;
        let (price, from) = match touches.best(limit) {
            Some(found) => (Some(found.price + found.cost), found.from),
            None => (None, 0),
        };
        table.push(price, from)?;
    }
    Ok(table)
}
