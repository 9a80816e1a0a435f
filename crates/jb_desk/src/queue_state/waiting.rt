//! What is waited for at a desk.
ghost use Rattle.std.specs.Prelude.{◌≡◌, ◌-◌, ◌≤◌, ◌↔◌, IsTrue, nat_lt, not, if◌then◌else◌};

use crate::queue_state::QueueState;
use jb_book::Origin;
use jb_disk::Disk;

impl<D: Disk, H: Origin> QueueState<D, H> {
    ghost use Rattle.jb_desk.specs.Delays.{IsPutOff};

    /// How many handles have stopped and are not taken.
    pub fn queued(&self) -> u64
        ensures { result ≡ self.now.register.book.shadow.next - self.now.register.book.shadow.taken }
    {
        let book = self.register.book();
        book.next().saturating_sub(book.taken())
    }

    /// Whether the batch that was taken last is one of odd number; they are numbered from 1.
    pub fn is_odd(&self) -> bool
        ensures { result ≡ self.now.is_odd }
    {
        self.is_odd
    }

    /// Whether the batch is one of odd number that has a ticket which is not settled: the last one, or else the next
    /// one.
    pub fn is_odd_for(&self, ticket: u64) -> bool
        ensures { result ≡ (if nat_lt ticket self.now.register.book.shadow.taken then self.now.is_odd
            else not self.now.is_odd) }
    {
        if ticket < self.register.book().taken() {
            self.is_odd
        } else {
            !self.is_odd
        }
    }

    /// A handle waits for room from now on, or none does.
    pub fn want_room(&mut self, is_wanted: bool)
        ensures wanted { self.new.is_room_wanted ≡ is_wanted }
        ensures kept { self.new.register ≡ self.old.register }
    {
        self.is_room_wanted = is_wanted;
    }

    /// A committer puts its round off until this many handles wait.
    pub fn want_handles(&mut self, handles: u64)
        ensures wanted { self.new.wanted ≡ handles }
        ensures kept { self.new.register ≡ self.old.register }
    {
        self.wanted = handles;
    }

    /// Whether as many handles wait as a committer has put its round off for.
    pub fn is_enough(&self) -> bool
        ensures { IsTrue result ↔ (self.now.wanted ≤ self.now.register.book.shadow.next
            - self.now.register.book.shadow.taken) }
    {
        self.wanted <= self.queued()
    }

    /// Whether a committer still puts its round off.
    pub fn is_put_off(&self) -> bool
        ensures { IsTrue result ↔ IsPutOff self.now.register.book self.now.wanted self.now.is_room_wanted }
    {
        let book = self.register.book();
        let queued = self.queued();
        0 < queued
            && queued < self.wanted
            && !self.is_room_wanted
            && !book.is_shut()
            && !book.is_aborted()
    }
}
