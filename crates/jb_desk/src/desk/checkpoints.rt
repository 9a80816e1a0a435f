//! Committed groups are brought home.
use crate::desk::Desk;
use crate::ended::Ended;
use crate::queue_state::Progress;
use jb_book::{CheckpointRound, Origin};
use jb_deck::{Checked, CheckpointFault};
use jb_disk::{Clock, Disk};
use std::sync::Wait;

impl<D: Disk, C: Clock, H: Origin> Desk<D, C, H> {
    ghost use Rattle.jb_desk.specs.Ends.{EndsChecking};
    ghost use Rattle.jb_book.specs.Journal.{ChecksAt, ChecksRound};

    /// Writes the oldest committed group home (`jbd2_log_do_checkpoint`). The book is not locked
    /// while the disk is at work. No clause says that it made one round alone.
    ///
    /// # Errors
    ///
    /// Those of [`Deck::checkpoint_one`](jb_deck::Deck::checkpoint_one). The book does not fail with the
    /// journal: the next batch does that, so that groups which are committed can still be settled.
    pub fn checkpoint_round<R: Wait>(&self, rt: &R) -> Result<Checked, CheckpointFault>
        /// A round of a checkpointer that answers `Ok` has written the oldest live group of such a journal home; one
        /// that answers `Nothing` has found none live, and one with another fault a journal that has failed. [But
        /// see](docs/WRONG_BODIES.md#the-calls-of-a-desk).
        ensures { ChecksRound D.Disk H.begun result }
    {
        self.journal.lock(rt).checkpoint()
    }

    /// Writes the committed groups home together, at most 64 of them, where this many blocks of the log are in use
    /// ([`Deck::in_use`](jb_deck::Deck::in_use)). At the level 0 it always does. The book is not locked while the disk
    /// is at work, but no batch is committed. No clause says that it made one round alone.
    ///
    /// # Errors
    ///
    /// Those of [`checkpoint_round`](Desk::checkpoint_round): `Aborted` whatever is in use, and `Nothing` at the level
    /// 0 alone, since a live group is in use above it.
    pub fn checkpoint_round_at<R: Wait>(
        &self,
        rt: &R,
        level: u32,
    ) -> Result<CheckpointRound, CheckpointFault>
        /// A round of a checkpointer at a level answers `Low`, with how many blocks of the log are in use, where such a
        /// journal has not failed and these are fewer than the level. Otherwise at least as many were in use, and it
        /// has written the live groups home together, all or the 64 oldest; or none was live and the level is 0; or the
        /// journal has failed. [But see](docs/WRONG_BODIES.md#the-calls-of-a-desk).
        ensures { ChecksAt D.Disk H.begun level result }
    {
        self.journal.lock(rt).checkpoint_at(level)
    }

    /// Writes committed groups home, the oldest first, until the desk is over and no group is left, or until
    /// the journal has failed. Where it ends `Shut`, no group was live at some time since the start; that none is left
    /// is tested.
    pub fn run_checkpointer<R: Wait>(&self, rt: &R) -> Ended
        ensures { EndsChecking D.Disk H.begun result }
    {
        self.run_checkpointer_at(rt, 0)
    }

    /// The same at a level: while the desk is not over, it rests where fewer blocks of the log than the level are in
    /// use. Where a transaction of the most blocks has room above the level, commits find room as long as the
    /// checkpointer keeps up with them, and need not write home themselves. A home that changes often is written less
    /// often under a high level, and more of the log is read by a recovery.
    pub fn run_checkpointer_at<R: Wait>(&self, rt: &R, level: u32) -> Ended
        /// A checkpointer that ends `Shut` has a `Drained`, and at some time since the start no group was live in the
        /// journal; otherwise it ends `Aborted`. At every level. [But see](docs/WRONG_BODIES.md#the-calls-of-a-desk).
        ensures { EndsChecking D.Disk H.begun result }
    {
        for _ in rt.forever() {
            // asked before the checkpoint, so that what is settled since then is not missed
            let before = self.queue.lock(rt).progress();
            if before.is_aborted {
                return Ended::Aborted;
            }
            // what a desk that is over has left is written home whole
            let level = if before.over.is_some() { 0 } else { level };
            match self.checkpoint_round_at(rt, level) {
                Ok(CheckpointRound::Home(_)) => {}
                Ok(CheckpointRound::Low(_)) => self.await_progress(rt, before),
                Err(CheckpointFault::Nothing) => {
                    if let Some(over) = before.over {
                        return Ended::Shut(over);
                    }
                    self.await_progress(rt, before);
                }
                Err(CheckpointFault::Aborted | CheckpointFault::DeviceFault) => {
                    return Ended::Aborted;
                }
            }
        }
        unreachable!()
    }

    /// Waits until the book has come further than this.
    fn await_progress<R: Wait>(&self, rt: &R, before: Progress) {
        let queue = self.queue.lock(rt);
        let _moved = self
            .signals
            .moved
            .wait_while(rt, queue, |queue| queue.progress() == before);
    }
}
