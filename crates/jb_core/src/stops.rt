//! The handles that have stopped, in the order of their stops: the settled ones, then the taken ones, then the queue.
ghost use Rattle.std.specs.Option.{option_copied};
ghost use Rattle.std.specs.Prelude.{slice_get, slice_range, ◌++◌, ◌≡◌, ◌≤◌, ◌<◌, ◌^◌};
ghost use Rattle.std.specs.Prelude.{[], length, take, sum, OnOk, OnErr, IsTrue};
ghost use Rattle.jb_cost.specs.Cut.{IsCut};

use crate::sums::{end_after, push_ends, sum_between};
use jb_block::Memory;
use jb_handle::Stopped;
use std::alloc::Global;
use std::marker::Model;

/// All handles in one list, so that a handle never moves when its group is taken or settled.
#[derive(Drop)]
pub struct Stops {
    handles: Vec<Stopped>,
    /// The credits of each handle.
    granted: Vec<u32>,
    /// Where each group ends, counted in handles.
    ends: Vec<usize>,
    /// Where the last group ends.
    taken_end: usize,
    /// How many groups are settled, and where the last of these ends.
    settled: usize,
    settled_end: usize,
}

impl Model for Stops {
    ghost use Rattle.std.specs.Coded.{codes};
    ghost use Rattle.jb_handle.specs.Word.{words_code};
    ghost use Rattle.jb_core.specs.Line.{MachineLine};
    ghost use Rattle.jb_core.specs.Stops.{line_of_stops, IsInLine};

    ghost Value = { MachineLine };

    ghost coded = { Prim.hlevel (codes, words_code) };

    ghost view = { line_of_stops };

    ghost invariant = { IsInLine };
}

impl Stops {
    ghost use Rattle.jb_core.specs.Line.{IsSame, IsPushed, IsTaken, IsSettled, IsCrashed, count};

    /// No handle has stopped. Takes no memory.
    pub fn new(alloc: Global) -> Stops
        ensures groups { (result.settled ≡ []) × (result.taken ≡ []) }
        ensures rest { (result.queue ≡ []) × (result.credits ≡ []) }
    {
        Stops {
            handles: Vec::new(alloc),
            granted: Vec::new(alloc),
            ends: Vec::new(alloc),
            taken_end: 0,
            settled: 0,
            settled_end: 0,
        }
    }

    /// The handles that no group has yet, in the order of their stops.
    pub fn queue(&self) -> &[Stopped]
        ensures { result.now ≡ self.now.queue }
    {
        &self.handles[self.taken_end..]
    }

    /// How many groups are settled.
    pub fn settled(&self) -> usize
        ensures { result ≡ length self.now.settled }
    {
        self.settled
    }

    /// How many groups are taken and not settled.
    pub fn taken(&self) -> usize
        ensures { result ≡ length self.now.taken }
    {
        self.ends.len() - self.settled
    }

    /// The handles of a group: the settled groups come first, then the taken ones.
    pub fn group(&self, i: usize) -> Option<&[Stopped]>
        ensures { option_copied result ≡ slice_get (self.now.settled ++ self.now.taken) i }
    {
        if i >= self.ends.len() {
            return None;
        }
        let start = end_after(&self.ends, 0, 0, i);
        Some(part(&self.handles, start, self.ends[i]))
    }

    /// Makes room for one more handle.
    pub fn reserve(&mut self) -> Result<(), Memory>
        ensures same { IsSame self.old self.new }
        ensures ok { OnOk result (IsTrue self.new.room) }
    {
        self.handles.reserve(1)?;
        self.granted.reserve(1)?;
        Ok(())
    }

    /// Puts a handle at the queue's end, for which there is room.
    pub fn push(&mut self, handle: Stopped, credits: u32)
        requires room { IsTrue self.old.room }
        ensures { IsPushed handle credits self.old self.new }
    {
        self.handles.push_reserved(handle);
        self.granted.push_reserved(credits);
    }

    /// Makes the pieces of the queue between the bounds the taken groups.
    pub fn take(&mut self, bounds: &[usize]) -> Result<(), Memory>
        requires cut { IsCut (length self.old.queue) bounds.now }
        requires none { self.old.taken ≡ [] }
        ensures ok { OnOk result (IsTaken bounds.now self.old self.new) }
        ensures err { OnErr result (IsSame self.old self.new) }
    {
        let end = self.handles.len();
        push_ends(&mut self.ends, self.taken_end, &bounds[1..])?;
        self.taken_end = end;
        Ok(())
    }

    /// Settles the first `n` taken groups, and says how many credits their handles had.
    pub fn settle(&mut self, n: usize) -> u64
        requires there { n ≤ length self.old.taken }
        requires fits { sum self.old.credits < 2 ^ 64 }
        ensures settled { IsSettled n self.old self.new }
        ensures credits { result ≡ sum (take (count (take n self.old.taken)) self.old.credits) }
    {
        let end = end_after(&self.ends, self.settled, self.settled_end, n);
        let credits = sum_between(&self.granted, self.settled_end, end);
        self.settled += n;
        self.settled_end = end;
        credits
    }

    /// Settles the first `n` taken groups, and drops all other handles that are not settled.
    pub fn crash(&mut self, n: usize)
        requires there { n ≤ length self.old.taken }
        requires fits { sum self.old.credits < 2 ^ 64 }
        ensures { IsCrashed n self.old self.new }
    {
        self.settle(n);
        self.drop_rest();
    }

    /// Drops all handles that are not settled.
    fn drop_rest(&mut self)
        ensures settled { self.new.settled ≡ self.old.settled }
        ensures lost { (self.new.taken ≡ []) × (self.new.queue ≡ []) × (self.new.credits ≡ []) }
    {
        self.ends.truncate(self.settled);
        self.handles.truncate(self.settled_end);
        self.granted.truncate(self.settled_end);
        self.taken_end = self.settled_end;
    }
}

/// The handles from one place up to, but without, another.
fn part(handles: &[Stopped], from: usize, to: usize) -> &[Stopped]
    requires { (from ≤ to) × (to ≤ length handles.now) }
    ensures { result.now ≡ slice_range handles.now from to }
{
    &handles[from..to]
}
