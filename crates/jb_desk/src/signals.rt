//! Who is woken when the book of a desk has changed.

use std::sync::Condvar;

/// The conditions on which threads wait for the book, apart by what they wait for, so that a change wakes none that it
/// cannot concern. That none is missed is no clause; it is so since each thread tests under the book's lock what it
/// waits for, and each change is made under that lock before it is told here.
#[derive(Drop)]
pub(crate) struct Signals {
    /// for a committer that has nothing to commit: anything has changed
    pub(crate) stopped: Condvar,
    /// for a committer that puts a round off: it has as many handles as it waits for, or must wait no longer
    pub(crate) gathered: Condvar,
    /// for a handle that waits for room, and for a checkpointer: anything but that a handle has stopped
    pub(crate) moved: Condvar,
}

impl Signals {
    /// Nobody waits.
    pub(crate) fn new() -> Signals {
        Signals {
            stopped: Condvar::new(),
            gathered: Condvar::new(),
            moved: Condvar::new(),
        }
    }

    /// A handle has stopped; as many wait now as a committer puts its round off for, or fewer. That makes no room,
    /// since the handle keeps its credits until it is settled; and a checkpointer finds no more to do, since nothing is
    /// settled by it and a desk with a handle to commit is not over.
    pub(crate) fn tell_stop(&self, is_enough: bool) {
        self.stopped.notify_all();
        if is_enough {
            self.gathered.notify_all();
        }
    }

    /// A handle waits for room: a round is put off no longer.
    pub(crate) fn tell_full(&self) {
        self.gathered.notify_all();
    }

    /// Something else has changed: handles were settled or dropped, the desk was shut, or the journal has failed.
    pub(crate) fn tell(&self) {
        self.stopped.notify_all();
        self.gathered.notify_all();
        self.moved.notify_all();
    }
}
