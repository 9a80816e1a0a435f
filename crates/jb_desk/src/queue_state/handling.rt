//! Handles begin, and stop or are abandoned.
ghost use Rattle.std.specs.Prelude.{◌≡◌, None, OnOk, OnErr, IfOk, IfErr};
ghost use Rattle.std.specs.FinMap as map;
ghost use Rattle.jb_handle.specs.Handle.{holder, changes_of};
ghost use Rattle.jb_handle.specs.HeldChanges.{held};

use crate::fault::StopFault;
use crate::queue_state::QueueState;
use crate::seat::Seat;
use jb_book::{BeginFault, EnqueueFault, Histories, Origin, Sights};
use jb_disk::Disk;
use jb_handle::{Handle, Shape};
use std::alloc::Global;

impl<D: Disk, H: Origin> QueueState<D, H> {
    ghost use Rattle.jb_book.specs.Account.{granted_to, dropped_of, begin_refusal, RefusesBegin};
    ghost use Rattle.jb_book.specs.Marks.{SeesStop};
    ghost use Rattle.jb_desk.specs.Stops.{IsStopped, RefusesStopOf};

    /// A seat begins a handle of this many credits.
    ///
    /// # Errors
    ///
    /// Those of [`Book::open`], with the seat, and nothing has changed.
    pub fn begin(
        &mut self,
        alloc: Global,
        shape: Shape,
        seat: Seat<H>,
        credits: u32,
    ) -> Result<Handle<Seat<H>>, (Seat<H>, BeginFault)>
        ensures ok { IfOk result (λ handle. (holder handle ≡ seat)
            × (changes_of handle ≡ held credits shape map.empty)) }
        ensures book { OnOk result (self.new.register.book ≡ granted_to seat.number credits self.old.register.book) }
        ensures granted { OnOk result (begin_refusal self.old.register.book seat.number credits ≡ None) }
        ensures back { IfErr result (λ back. back.0 ≡ seat) }
        ensures refused { IfErr result (λ back. RefusesBegin self.old.register.book seat.number credits back.1) }
        ensures err { OnErr result (self.new.register.book ≡ self.old.register.book) }
    {
        match self.register.open(seat.number, credits) {
            Ok(()) => Ok(Handle::new(alloc, seat, credits, shape)),
            Err(fault) => Err((seat, fault)),
        }
    }

    /// A handle stops: it joins the queue and gets the next ticket, and its seat's share counts it. It is added to the
    /// history, as one of the seat's, and is seen there.
    ///
    /// # Errors
    ///
    /// `Aborted` with the seat, and the handle is dropped; `NotOpen` and `Memory` with the handle, and
    /// nothing has changed.
    pub fn stop(
        &mut self,
        histories: &Histories<D, H>,
        seen: &mut Sights<D, H>,
        handle: Handle<Seat<H>>,
    ) -> Result<(Seat<H>, u64), StopFault<H>>
        requires { H.begun.stops (changes_of handle).words }
        ensures ok { IfOk result (λ given. IsStopped handle self.old.register.book given.0 given.1
            self.new.register.book) }
        ensures sees { IfOk result (λ given. SeesStop seen.old.stops seen.new.stops given.1
            (changes_of handle).words) }
        ensures blind { OnErr result (seen.new.stops ≡ seen.old.stops) }
        ensures marks { seen.new.marks ≡ seen.old.marks }
        ensures refused { IfErr result (λ fault. RefusesStopOf handle self.old.register.book fault
            self.new.register.book) }
    {
        let (mut seat, handle) = handle.with_seat(());
        let number = seat.number;
        let QueueState {
            register,
            handles,
            ..
        } = self;
        match register.stop(
            &histories.stops,
            &mut seat.made,
            &mut seen.stops,
            number,
            handle,
        ) {
            Ok((_, ticket)) => {
                handles.add(&mut seat.handles, 1);
                Ok((seat, ticket))
            }
            Err((handle, EnqueueFault::Aborted)) => {
                let (_, _) = handle.end();
                register.drop_open(number);
                Err(StopFault::Aborted(seat))
            }
            Err((handle, EnqueueFault::NotOpen)) => {
                let (_, handle) = handle.with_seat(seat);
                Err(StopFault::NotOpen(handle))
            }
            Err((handle, EnqueueFault::Memory)) => {
                let (_, handle) = handle.with_seat(seat);
                Err(StopFault::Memory(handle))
            }
        }
    }

    /// A handle is dropped with all of its changes.
    pub fn abandon(&mut self, handle: Handle<Seat<H>>) -> Seat<H>
        ensures seat { result ≡ holder handle }
        ensures book { self.new.register.book ≡ dropped_of result.number self.old.register.book }
    {
        let (seat, _) = handle.end();
        self.register.drop_open(seat.number);
        seat
    }
}
