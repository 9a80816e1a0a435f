ghost use Rattle.std.specs.Prelude.{◌≡◌, List, [], ◌∷◌, ◌+◌, ◌^◌, ◌<◌, ◌≤◌, IfOk, OnErr};
ghost use Rattle.std.specs.FinMap as map;
ghost use Rattle.jb_handle.specs.declared.stopped.Stopped.{Stopped as StoppedValue};
ghost use Rattle.jb_cost.specs.declared.geometry.Geometry.{Geometry as GeometryValue};
ghost use Rattle.jb_cost.specs.Cost.{cost};
ghost use Rattle.jb_cost.specs.Footprint.{covered_by};

use crate::geometry::Geometry;
use crate::new_homes::{meet, part};
use jb_block::Memory;
use jb_handle::Stopped;
use std::alloc::Global;
use std::collections::BTreeSet;
use std::marker::Model;

/// The home blocks that some handles touch, and how many of them are to be copied and how many are
/// freed by their last word. It grows to the left, so that the cost of handles i up to j follows
/// from that of i + 1 up to j by the words of handle i alone.
#[derive(Drop)]
pub struct Footprint {
    geometry: Geometry,
    homes: BTreeSet<u64>,
    /// The homes of the new handle that no handle after it touches.
    fresh: Vec<u64>,
    copies: u64,
    frees: u64,
}

impl Model for Footprint {
    ghost use Rattle.std.specs.FinSet as set;
    ghost use Rattle.std.specs.Coded.{codes};
    ghost use Rattle.jb_cost.specs.Footprint.{Covered, set_code};

    ghost Value = { Covered };

    ghost coded = { Prim.hlevel (codes, set_code) };

    ghost view = { λ a. record {
      geometry = a.geometry;
      homes = set.from_list a.homes.keys;
      copies = a.copies;
      frees = a.frees;
    } };
}

impl Footprint {
    /// The footprint of no handles. Takes no memory.
    pub fn new(alloc: Global, geometry: Geometry) -> Footprint
        ensures { result ≡ covered_by geometry [] }
    {
        Footprint {
            geometry,
            homes: BTreeSet::new(alloc),
            fresh: Vec::new(alloc),
            copies: 0,
            frees: 0,
        }
    }

    /// Puts a handle before the ones that are there, and gives what all of them now take as one
    /// group, in log blocks.
    ///
    /// # Errors
    ///
    /// `Memory` where there is none for the handle's home blocks, and never for a handle without
    /// one; the footprint is as it was.
    pub fn add_left(&mut self, handle: &Stopped) -> Result<u64, Memory>
        requires room { self.old.copies + self.old.frees + map.len handle.now.words ≤ 2 ^ 62 }
        ensures ok { IfOk result (λ blocks. (g : GeometryValue) (hs : List StoppedValue) → self.old ≡ covered_by g hs
            → (self.new ≡ covered_by g (handle.now ∷ hs)) × (blocks ≡ cost g (handle.now ∷ hs))) }
        ensures err { OnErr result (self.new ≡ self.old) }
        ensures grows { OnErr result (0 < map.len handle.now.words) }
    {
        match meet(&mut self.homes, &mut self.fresh, &handle.words) {
            Ok(met) => {
                self.copies += met.copies;
                self.frees += met.frees;
                let cost = self.geometry.blocks(self.copies, self.frees);
                Ok(cost)
            }
            Err(refused) => {
                part(&mut self.homes, &self.fresh);
                Err(refused)
            }
        }
    }
}
