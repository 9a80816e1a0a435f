ghost use Rattle.std.specs.Option.{option_copied};
ghost use Rattle.std.specs.Prelude.{slice_get, ◌++◌, ◌≡◌, true, length};

use crate::event::{CoreFault, Reply};
use crate::least::is_least;
use crate::stops::Stops;
use jb_cost::{Geometry, most_credits};
use jb_handle::{Changes, Op, Shape, Stopped};
use std::alloc::Global;
use std::collections::BTreeMap;
use std::marker::Model;

/// The most credits that all handles together may reserve: as many log blocks as a journal can have.
const MOST_RESERVED: u64 = 2147483646;

/// The most tickets of a life.
const MOST_TICKETS: u64 = 1 << 61;

/// A machine of handles: the open ones by their seats, and those that have stopped, in their order.
#[derive(Drop)]
pub struct State {
    shape: Shape,
    geometry: Geometry,
    most: u32,
    up: bool,
    handles: BTreeMap<u64, Changes>,
    stops: Stops,
    earlier: usize,
    checkpointed: usize,
    next: u64,
    /// The credits of the open, the queued and the taken handles.
    reserved: u64,
    alloc: Global,
}

impl Model for State {
    ghost use Rattle.std.specs.Coded.{codes};
    ghost use Rattle.jb_handle.specs.Word.{words_code};
    ghost use Rattle.jb_core.specs.Machine.{Machine};
    ghost use Rattle.jb_core.specs.State.{machine_of, IsMachineKept};

    ghost Value = { Machine };

    ghost coded = { Prim.hlevel (codes, words_code) };

    ghost view = { machine_of };

    ghost invariant = { IsMachineKept };
}

impl State {
    ghost use Rattle.jb_core.specs.Machine.{is_full};
    ghost use Rattle.jb_core.specs.Steps.{MachineSteps, StepsTake};
    ghost use Rattle.jb_core.specs.MachineRuns.{IsNewMachine};
    ghost use Rattle.jb_core.specs.Sound.{IsMachineSound};
    ghost use Rattle.jb_core.specs.declared.event.Event.TheVariants.{Open, Touch, Stop, Abandon};
    ghost use Rattle.jb_core.specs.declared.event.Event.TheVariants.{Settle, Checkpoint, Crash, Restart};

    /// A machine that is up, with nothing open, queued, taken or settled. Takes no memory.
    pub fn new(alloc: Global, shape: Shape) -> State
        ensures { IsNewMachine shape result }
    {
        let geometry = Geometry::of(shape.bs, shape.width);
        State {
            shape,
            geometry,
            most: most_credits(geometry, shape.limit),
            up: true,
            handles: BTreeMap::new(alloc),
            stops: Stops::new(alloc),
            earlier: 0,
            checkpointed: 0,
            next: 0,
            reserved: 0,
            alloc,
        }
    }

    /// Whether the machine is up. A state is sound.
    pub fn is_up(&self) -> bool
        ensures up { result ≡ self.now.up }
        ensures sound { IsMachineSound self.now }
    {
        self.up
    }

    /// How many groups are settled, by this life and by earlier ones.
    pub fn settled(&self) -> usize
        ensures { result ≡ length self.now.settled }
    {
        self.stops.settled()
    }

    /// How many of the settled groups earlier lives settled.
    pub fn earlier(&self) -> usize
        ensures { result ≡ self.now.earlier }
    {
        self.earlier
    }

    /// How many groups are taken and not settled.
    pub fn taken(&self) -> usize
        ensures { result ≡ length self.now.taken }
    {
        self.stops.taken()
    }

    /// The handles of a group, in the order of their stops, or `None` where there is no such group.
    /// The settled groups come first, then the taken ones.
    pub fn group(&self, i: usize) -> Option<&[Stopped]>
        ensures { option_copied result ≡ slice_get (self.now.settled ++ self.now.taken) i }
    {
        self.stops.group(i)
    }

    /// The handles that no group has yet, in the order of their stops.
    pub fn queue(&self) -> &[Stopped]
        ensures { result.now ≡ self.now.queue }
    {
        self.stops.queue()
    }

    pub(crate) fn open(&mut self, seat: u64, credits: u32) -> Result<Reply, CoreFault>
        requires { self.old.up ≡ true }
        ensures { MachineSteps (Open seat credits) self.old result self.new }
    {
        if self.handles.contains_key(&seat) {
            return Err(CoreFault::Busy);
        }
        if credits > self.most {
            return Err(CoreFault::TooManyCredits(self.most));
        }
        if self.is_full(credits) {
            return Err(CoreFault::Full(self.reserved));
        }
        match self
            .handles
            .insert(seat, Changes::new(self.alloc, credits, self.shape))
        {
            Ok(_) => {
                self.reserved += u64::from(credits);
                Ok(Reply::Plain)
            }
            Err(_) => Err(CoreFault::Memory),
        }
    }

    /// Whether there is no room for this many credits more, or no ticket left.
    fn is_full(&self, credits: u32) -> bool
        ensures { result ≡ is_full self.now credits }
    {
        let tickets = self.next + self.handles.len() as u64;
        self.reserved + u64::from(credits) > MOST_RESERVED || tickets >= MOST_TICKETS
    }

    pub(crate) fn touch(&mut self, seat: u64, op: Op) -> Result<Reply, CoreFault>
        requires { self.old.up ≡ true }
        ensures { MachineSteps (Touch seat op) self.old result self.new }
    {
        let Some(changes) = self.handles.get_mut(&seat) else {
            return Err(CoreFault::NoHandle);
        };
        changes.apply(op)?;
        Ok(Reply::Plain)
    }

    pub(crate) fn stop(&mut self, seat: u64) -> Result<Reply, CoreFault>
        requires { self.old.up ≡ true }
        ensures { MachineSteps (Stop seat) self.old result self.new }
    {
        if !self.handles.contains_key(&seat) {
            return Err(CoreFault::NoHandle);
        }
        self.stops.reserve()?;
        let Some(changes) = self.handles.remove(&seat) else {
            return Err(CoreFault::NoHandle);
        };
        let ticket = self.next;
        let credits = changes.credits();
        let words = changes.into_words();
        self.stops.push(Stopped { ticket, words }, credits);
        self.next += 1;
        Ok(Reply::Ticket(ticket))
    }

    pub(crate) fn take(&mut self, bounds: &[usize]) -> Result<Reply, CoreFault>
        requires { self.old.up ≡ true }
        ensures { StepsTake bounds.now self.old result self.new }
    {
        if self.stops.queue().is_empty() {
            return Err(CoreFault::Empty);
        }
        if self.stops.taken() > 0 {
            return Err(CoreFault::BatchOut);
        }
        let least = is_least(
            self.alloc,
            self.stops.queue(),
            bounds,
            self.geometry,
            self.shape.limit,
        )?;
        if !least {
            return Err(CoreFault::NotLeast);
        }
        self.stops.take(bounds)?;
        Ok(Reply::Plain)
    }

    pub(crate) fn checkpoint(&mut self) -> Result<Reply, CoreFault>
        requires { self.old.up ≡ true }
        ensures { MachineSteps Checkpoint self.old result self.new }
    {
        if self.checkpointed >= self.stops.settled() {
            return Err(CoreFault::Nothing);
        }
        self.checkpointed += 1;
        Ok(Reply::Plain)
    }

    pub(crate) fn restart(&mut self) -> Result<Reply, CoreFault>
        ensures { MachineSteps Restart self.old result self.new }
    {
        if self.up {
            return Err(CoreFault::Up);
        }
        self.up = true;
        self.next = 0;
        self.earlier = self.stops.settled();
        self.checkpointed = self.stops.settled();
        Ok(Reply::Plain)
    }

    pub(crate) fn abandon(&mut self, seat: u64) -> Result<Reply, CoreFault>
        requires { self.old.up ≡ true }
        ensures { MachineSteps (Abandon seat) self.old result self.new }
    {
        match self.handles.remove(&seat) {
            Some(changes) => {
                self.reserved -= u64::from(changes.credits());
                Ok(Reply::Plain)
            }
            None => Err(CoreFault::NoHandle),
        }
    }

    pub(crate) fn settle(&mut self, n: usize) -> Result<Reply, CoreFault>
        requires { self.old.up ≡ true }
        ensures { MachineSteps (Settle n) self.old result self.new }
    {
        if n > self.stops.taken() {
            return Err(CoreFault::Amount);
        }
        self.reserved -= self.stops.settle(n);
        Ok(Reply::Plain)
    }

    pub(crate) fn crash(&mut self, n: usize) -> Result<Reply, CoreFault>
        requires { self.old.up ≡ true }
        ensures { MachineSteps (Crash n) self.old result self.new }
    {
        if n > self.stops.taken() {
            return Err(CoreFault::Amount);
        }
        self.stops.crash(n);
        self.handles.clear();
        self.reserved = 0;
        self.up = false;
        Ok(Reply::Plain)
    }
}
