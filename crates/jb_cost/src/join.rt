ghost use Rattle.std.specs.Prelude.{◌≡◌, ◌↔◌, ℕ, ◌+◌, ◌-◌, ◌<◌, ◌≤◌, List, Option, length, IsTrue};
ghost use Rattle.jb_cost.specs.LastTouch.{IsIdle, owned_at};
ghost use Rattle.jb_cost.specs.Starts.{LeastPrice, AreIdle, GoBack, AreLeast};

use crate::owned::Owned;
use crate::stretch::{PricedStart, Stretch};

/// The stretch that ends with a handle, with those before it that have become idle.
pub(crate) fn joined(owned: &[Owned], stretches: &[Stretch], start: usize) -> Stretch
    requires number { length stretches.now ≡ length owned.now }
    requires inside { start < length owned.now }
    requires back { GoBack owned.now stretches.now }
    ensures back { result.from ≤ start }
    ensures idle { AreIdle owned.now result.from start }
    ensures least { (ps : List (Option ℕ)) → AreLeast ps stretches.now (length owned.now) →
        LeastPrice ps result.from (start + 1) result.least }
{
    let mut joined = stretches[start];
    while is_idle_before(owned, joined.from) {
        let earlier = stretches[joined.from - 1];
        joined = Stretch {
            from: earlier.from,
            least: PricedStart::lesser(earlier.least, joined.least),
        };
    }
    joined
}

/// Whether there is a handle before this one, and it owns nothing.
fn is_idle_before(owned: &[Owned], handle: usize) -> bool
    requires { handle ≤ length owned.now }
    ensures { IsTrue result ↔ ((0 < handle) × IsIdle (owned_at owned.now (handle - 1))) }
{
    handle > 0 && owned[handle - 1].is_idle()
}
