//! Where two lists of extents part.
ghost use Rattle.std.specs.Prelude.{◌≡◌, ◌<◌, ◌+◌, ◌-◌, ◌^◌, ◌==◌, None, Some, if◌then◌else◌};
ghost use Rattle.jb_image.specs.Lists.{PartsFirst, extents_count};

use jb_map::Extent;

/// The first place at which one list of extents does not have the block that another has.
pub(crate) fn first_parting(one: &[Extent], other: &[Extent]) -> Option<u64>
    requires { extents_count one.now < 2 ^ 64 - 1 }
    ensures { PartsFirst one.now other.now result }
{
    let (mut i, mut j) = (0, 0);
    // how many blocks of the one extent have been compared, and of the other
    let (mut a, mut b) = (0u64, 0u64);
    let mut at = 0u64;
    'places: loop {
        if i >= one.len() {
            return ended(at, j < other.len());
        }
        if j >= other.len() {
            return Some(at);
        }
        if one[i].at(a) != other[j].at(b) {
            return Some(at);
        }
        let left = one[i].blocks() - a;
        let right = other[j].blocks() - b;
        let both = left.min(right);
        at += both;
        (i, a) = passed(i, a, both, left);
        (j, b) = passed(j, b, both, right);
    }
}

/// The place at which one list has ended, where the other goes on.
fn ended(at: u64, goes_on: bool) -> Option<u64>
    ensures { result ≡ (if goes_on then Some at else None) }
{
    if goes_on { Some(at) } else { None }
}

/// The next block to be compared, by the number of its extent and its place in that, where `both` more were compared,
/// of the `left` blocks that the extent had left.
fn passed(i: usize, at: u64, both: u64, left: u64) -> (usize, u64)
    requires next { i < 2 ^ 64 - 1 }
    requires fits { at + both < 2 ^ 64 }
    ensures next { result.0 ≡ (if both == left then i + 1 else i) }
    ensures at { result.1 ≡ (if both == left then 0 else at + both) }
{
    if both == left {
        (i + 1, 0)
    } else {
        (i, at + both)
    }
}
