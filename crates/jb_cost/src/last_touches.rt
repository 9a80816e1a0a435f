use crate::best_start::best_start;
use crate::geometry::Geometry;
use crate::group_start::GroupStart;
use crate::owned::{Owned, Touch};
use crate::shortcuts::Shortcuts;
use crate::stretch::PricedStart;
use crate::take_over::take_over;
use jb_block::Memory;
use jb_handle::Stopped;
use std::alloc::Global;
use std::collections::BTreeMap;

/// Which handle of a queue touched each home block last. It grows to the right, a handle at a time,
/// and finds for each end the best start of a last group.
///
/// In a group that ends with the last handle a home block counts by the handle that touched it last,
/// if that handle is in the group. So what a group costs changes only at the handles that own a home
/// block, and between two of them the start with the least price is the best.
#[derive(Drop)]
pub struct LastTouches {
    geometry: Geometry,
    last: BTreeMap<u64, Touch>,
    /// What each handle owns.
    owned: Vec<Owned>,
    shortcuts: Shortcuts,
}

impl LastTouches {
    ghost use Rattle.std.specs.Prelude.{◌≡◌, ℕ, ◌+◌, ◌^◌, ◌<◌, ◌≤◌, List, length, get_or, Option, OnOk};
    ghost use Rattle.jb_handle.specs.declared.stopped.Stopped.{Stopped as StoppedValue};
    ghost use Rattle.jb_cost.specs.declared.geometry.Geometry.{Geometry as GeometryValue};
    ghost use Rattle.jb_cost.specs.Cut.{price, piece_cost};
    ghost use Rattle.jb_cost.specs.Starts.{BestStart};
    ghost use Rattle.jb_cost.specs.LastTouches.{PartsFit, TellsQueue, homes_owned};

    /// The last touches of no handles. Takes no memory.
    pub fn new(alloc: Global, geometry: Geometry) -> LastTouches
        ensures sound { PartsFit result }
        ensures tells { (hs : List StoppedValue) (ps : List (Option ℕ)) → TellsQueue geometry hs 0 ps result }
    {
        LastTouches {
            geometry,
            last: BTreeMap::new(alloc),
            owned: Vec::new(alloc),
            shortcuts: Shortcuts::new(alloc),
        }
    }

    /// Adds the next handle of the queue. `start` is the price of a
    /// group that begins with it: the log blocks of the handles before it, if they fit.
    ///
    /// # Errors
    ///
    /// `Memory` where there is none for a home block or for the handle. Nothing is promised of the
    /// touches then, and no other call of them is allowed.
    pub fn add(&mut self, handle: &Stopped, start: Option<u64>) -> Result<(), Memory>
        requires sound { PartsFit self.old }
        ensures sound { OnOk result (PartsFit self.new) }
        ensures tells { OnOk result ((g : GeometryValue) (hs : List StoppedValue) (n : ℕ) (ps : List (Option ℕ))
            → TellsQueue g hs n ps self.old → n < length hs → handle.now ≡ get_or hs n handle.now → price ps n ≡ start
            → TellsQueue g hs (n + 1) ps self.new) }
    {
        let from = self.owned.len();
        let spans = &mut self.shortcuts.spans;
        take_over(&mut self.last, &mut self.owned, spans, &handle.words)?;
        let least = PricedStart::of(from, start);
        self.shortcuts.push(from, least)?;
        Ok(())
    }

    /// The best start of a group that ends with the last handle: of those with a price, from which
    /// the group takes at most `limit` log blocks, the one with the least sum of price and cost. Of
    /// several with the same sum it is the first.
    pub fn best(&mut self, limit: u32) -> Option<GroupStart>
        requires sound { PartsFit self.old }
        requires few { homes_owned self.old ≤ 2 ^ 62 }
        ensures sound { PartsFit self.new }
        ensures tells { (g : GeometryValue) (hs : List StoppedValue) (n : ℕ) (ps : List (Option ℕ))
            → TellsQueue g hs n ps self.old → TellsQueue g hs n ps self.new
            × BestStart (λ i. piece_cost g hs i n) limit ps 0 n result }
    {
        best_start(self.geometry, &self.owned, &mut self.shortcuts, limit)
    }
}
