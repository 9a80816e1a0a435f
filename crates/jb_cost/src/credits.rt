ghost use Rattle.std.specs.Prelude.{◌≡◌, ℕ, [], ◌∷◌, ◌≤◌};
ghost use Rattle.std.specs.FinMap as map;
ghost use Rattle.jb_handle.specs.declared.stopped.Stopped.{Stopped as StoppedValue};
ghost use Rattle.jb_cost.specs.Cost.{cost, worst_cost_of, AreCopies};

use crate::geometry::Geometry;

/// The most log blocks that a handle of this many credits can take as a group of its own: a commit
/// block, a copy for each credit, and their descriptors (compare `jbd2_journal_start`, whose
/// `nblocks` are the credits).
pub fn worst_cost(credits: u32, geometry: Geometry) -> u64
    ensures value { result ≡ worst_cost_of geometry credits }
    /// With `reached`: The most log blocks that a handle of N credits can take, and that some handle takes them.
    ensures bound { (h : StoppedValue) → map.len h.words ≤ credits → cost geometry (h ∷ []) ≤ result }
    ensures reached { (h : StoppedValue) → map.len h.words ≡ credits → AreCopies h.words
        → cost geometry (h ∷ []) ≡ result }
{
    geometry.blocks(u64::from(credits), 0)
}

/// The most credits with which a handle always fits in a group of at most `limit` log blocks.
pub fn most_credits(geometry: Geometry, limit: u32) -> u32
    requires { 1 ≤ limit }
    ensures within { worst_cost_of geometry result ≤ limit }
    /// With `within`: The most credits within a limit.
    ensures most { (credits : ℕ) → worst_cost_of geometry credits ≤ limit → credits ≤ result }
{
    let room = u64::from(limit) - 1;
    let descriptors = room.div_ceil(u64::from(geometry.t) + 1);
    (room - descriptors) as u32
}
