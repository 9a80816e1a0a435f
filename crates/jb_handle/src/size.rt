ghost use Rattle.std.specs.Prelude.{◌↔◌, IsTrue};
ghost use Rattle.jb_handle.specs.Size.{IsWithinSize};

use crate::stopped::Stopped;

/// The most handles and touched blocks, added up, that a list of handles may have.
const MOST: u128 = 1 << 62;

/// Whether the handles, and the home blocks that each touches, added up, are at most 2^62. The costs
/// and sums of costs of such a list fit 64 bits.
pub fn is_within_size(handles: &[Stopped]) -> bool
    ensures { IsTrue result ↔ IsWithinSize handles.now }
{
    let mut weight: u128 = 0;
    for handle in handles {
        weight += handle.words.len() as u128 + 1;
        if weight > MOST {
            return false;
        }
    }
    true
}
