//! The lowest block that is in two extents.
ghost use Rattle.std.specs.Prelude.{◌≡◌, IfOk};
ghost use Rattle.std.specs.List.Sorted.{IsNonDecreasingBy};
ghost use Rattle.jb_image.specs.Lists.{SharesFirst, reaches_to};

use jb_block::Memory;
use jb_map::Extent;
use std::alloc::Global;

/// The lowest block that is in two of these extents.
pub(crate) fn lowest_shared(alloc: Global, list: &[Extent]) -> Result<Option<u64>, Memory>
    ensures { IfOk result (SharesFirst list.now) }
{
    let mut rising = list.to_vec(alloc)?;
    rising.sort_unstable_by_key(|extent| extent.first);
    Ok(first_shared(rising.as_slice()))
}

/// The same of extents in the order of their first blocks.
fn first_shared(rising: &[Extent]) -> Option<u64>
    requires rising { IsNonDecreasingBy (λ (e : Extent). e.first) rising.now }
    ensures { SharesFirst rising.now result }
{
    let mut before: Option<Extent> = None;
    for extent in rising {
        if extent.first <= extent.last {
            if reaches(before, extent.first) {
                return Some(extent.first);
            }
            before = Some(*extent);
        }
    }
    None
}

/// Whether the extent before, where there is one, does not end before this block.
fn reaches(before: Option<Extent>, block: u64) -> bool
    ensures { result ≡ reaches_to before block }
{
    match before {
        None => false,
        Some(before) => block <= before.last,
    }
}
