ghost use Rattle.std.specs.Prelude.{◌≡◌, ℕ, ◌<◌, length, IfOk, slice_index};
ghost use Rattle.jb_cost.specs.Cut.{IsCut, EachPiece};

use jb_block::Memory;
use std::alloc::Global;

/// The bounds of a cut that ends at `end`, of which `froms` gives the one before each.
pub(crate) fn bounds_to(alloc: Global, froms: &[usize], end: usize) -> Result<Vec<usize>, Memory>
    requires end_in { end < length froms.now }
    requires backwards { (j : ℕ) → 0 < j → j < length froms.now → slice_index froms.now j < j }
    ensures cut { IfOk result (λ bounds. IsCut end bounds.items) }
    ensures steps { IfOk result (λ bounds. EachPiece (λ i j. slice_index froms.now j ≡ i) bounds.items) }
{
    let mut bounds = Vec::new(alloc);
    let mut bound = end;
    bounds.push(bound)?;
    while bound > 0 {
        bound = froms[bound];
        bounds.push(bound)?;
    }
    bounds.reverse();
    Ok(bounds)
}
