ghost use Rattle.std.specs.Prelude.{◌≡◌};

use crate::filled::Filled;
use crate::geometry::Geometry;
use crate::owned::Owned;

/// The blocks of a group, counted as it grows.
#[derive(Clone, Copy)]
pub(crate) struct GroupSize {
    pub(crate) geometry: Geometry,
    pub(crate) copies: Filled,
    pub(crate) frees: Filled,
    ghost tags: { copies.per ≡ geometry.t },
    ghost entries: { frees.per ≡ geometry.r },
}

impl GroupSize {
    ghost use Rattle.std.specs.Prelude.{◌≡◌, ◌↔◌, ◌+◌, ◌^◌, ◌≤◌, IsTrue};
    ghost use Rattle.jb_cost.specs.Cost.{blocks_of};

    /// That of a group without copies and freed blocks.
    pub(crate) fn none(geometry: Geometry) -> GroupSize
        ensures geometry { result.geometry ≡ geometry }
        ensures copies { result.copies.entries ≡ 0 }
        ensures frees { result.frees.entries ≡ 0 }
    {
        GroupSize {
            geometry,
            copies: Filled::none(geometry.t),
            frees: Filled::none(geometry.r),
        }
    }

    /// With what a handle owns, or several.
    pub(crate) fn plus(self, more: Owned) -> GroupSize
        requires { self.copies.entries + more.copies + (self.frees.entries + more.frees) ≤ 2 ^ 62 }
        ensures geometry { result.geometry ≡ self.geometry }
        ensures copies { result.copies.entries ≡ self.copies.entries + more.copies }
        ensures frees { result.frees.entries ≡ self.frees.entries + more.frees }
    {
        GroupSize {
            geometry: self.geometry,
            copies: self.copies.with(more.copies),
            frees: self.frees.with(more.frees),
        }
    }

    /// The log blocks of the group.
    pub(crate) fn cost(self) -> u64
        requires { self.copies.entries + self.frees.entries ≤ 2 ^ 62 }
        ensures { result ≡ blocks_of self.geometry self.copies.entries self.frees.entries }
    {
        1 + self.copies.entries + self.copies.blocks + self.frees.blocks
    }

    /// Whether it has as many descriptors and revoke blocks as another.
    pub(crate) fn names_as(self, other: GroupSize) -> bool
        ensures { IsTrue result ↔
            ((self.copies.blocks ≡ other.copies.blocks) × (self.frees.blocks ≡ other.frees.blocks)) }
    {
        self.copies.blocks == other.copies.blocks && self.frees.blocks == other.frees.blocks
    }
}
