ghost use Rattle.std.specs.Prelude.{◌≡◌, ◌≢◌, ◌⊎◌, ◌++◌, false, [], length};
ghost use Rattle.jb_disk.specs.Faults.{counted};
ghost use Rattle.jb_image.specs.Pair.{PairCalled, joined_count, past_states};

use crate::past::Past;
use jb_block::BlockSize;
use jb_disk::{Disk, Failure, Fault};

/// Two disks of one block size as one disk: the blocks of the first, and after them those of the second. Where the
/// second has blocks of another size, it adds none.
///
/// Each read and write of a block is one call of one of the two, and a run that lies in both is one call of
/// each; a sync is one call of each, the first disk's first, and succeeds where both do. The two must not share
/// a block.
#[derive(Drop)]
pub struct PairDisk<A: Disk, B: Disk> {
    front: A,
    back: B,
    past: Past<A, B>,
}

impl<A: Disk, B: Disk> PairDisk<A, B> {
    ghost use Rattle.jb_image.specs.Pair.{back_disk, front_disk};

    /// The disk that these two are.
    pub fn of(front: A, back: B) -> PairDisk<A, B>
        /// With `back`, `fresh`: A pair has the two disks that it is made of, and no call of it was noted yet. It is
        /// honest where both are, with blocks of one size ([`IsHonestPair`](crates/jb_image/specs/Pair.antt)): it holds
        /// the blocks of the one and then those of the other. Its `own` says what each read or write of a block and
        /// each sync does to the two ([README](crates/jb_image/README.md#what-is-proved)), which no row can name.
        ensures front { front_disk result ≡ front }
        ensures back { back_disk result ≡ back }
        ensures fresh { past_states result ≡ [] }
    {
        PairDisk {
            front,
            back,
            past: Past::Start,
        }
    }

    /// The two disks.
    pub fn into_parts(self) -> (A, B)
        ensures front { result.0 ≡ front_disk self }
        ensures back { result.1 ≡ back_disk self }
    {
        (self.front, self.back)
    }
}

/// What each read or write of a block and each sync does to the two disks is said by `own`. Of the contents all is
/// said where both disks are honest: the pair holds the blocks of the first and then those of the second. In which
/// order the calls of the two came tell the states that were noted, and so what a crash in between left of both.
impl<A: Disk, B: Disk> Disk for PairDisk<A, B> {
    ghost use Rattle.jb_image.specs.Bound.{members};
    ghost use Rattle.jb_image.specs.Laws.{counts_both, has_both_shapes, leaves_newest, only_both};
    ghost use Rattle.jb_image.specs.Laws.{since_has_both_shapes};
    ghost use Rattle.jb_image.specs.Pair.{AreWellAsked, IsHonestPair, MayGoOnBoth, PairLeaves, PairLeftSince};

    ghost size = { λ p. A.size p.front };

    ghost count = { λ p. joined_count (A.size p.front) (A.count p.front) (B.size p.back) (B.count p.back) };

    ghost faults = { λ p. counted (A.faults p.front) (B.faults p.back) };

    ghost honest = { λ p. IsHonestPair A.Disk B.Disk p };

    ghost newest = { λ p. A.newest p.front ++ B.newest p.back };

    ghost may_leave = { λ p. PairLeaves A.Disk B.Disk p };

    ghost moment = { λ p. length (past_states p) };

    ghost left_since = { λ p. PairLeftSince A.Disk B.Disk p };

    ghost may_go_on = { λ p. MayGoOnBoth A.Disk B.Disk p };

    ghost well_asked = { λ p. AreWellAsked A.Disk B.Disk p };

    ghost own = { λ call old new ok. PairCalled A.count A.faults A.own B.faults B.own call old new ok };

    ghost runs_as_calls = { false };

    ghost tells = { λ p failure. A.tells p.front failure ⊎ B.tells p.back failure };

    ghost has_size = { λ p. A.has_size p.front };

    ghost newest_may_stay = { λ p honest.
        leaves_newest (members A.Disk) (members B.Disk) p (A.newest_may_stay p.front honest.first)
        (B.newest_may_stay p.back honest.second) };

    ghost has_shape = { λ p c honest left.
        has_both_shapes (members A.Disk) (members B.Disk) p c honest (λ x. A.has_shape p.front x honest.first)
        (λ y. B.has_shape p.back y honest.second) left };

    ghost has_shape_since = { λ p t c _ left. since_has_both_shapes (members A.Disk) (members B.Disk) p t c left };

    ghost counts_now = { λ p t c honest earlier left.
        counts_both (members A.Disk) (members B.Disk) p t c honest (λ x. A.has_shape p.front x honest.first)
        (λ y. B.has_shape p.back y honest.second) earlier left };

    ghost only_now = { λ p c _ left. only_both (members A.Disk) (members B.Disk) p c left };

    fn block_size(&self) -> BlockSize {
        self.front.block_size()
    }

    fn blocks(&self) -> u64 {
        let front = self.front.blocks();
        if self.front.block_size().bytes() == self.back.block_size().bytes() {
            front.saturating_add(self.back.blocks())
        } else {
            front
        }
    }

    fn failure(&self) -> Option<Failure> {
        match self.front.failure() {
            Some(failure) => Some(failure),
            None => self.back.failure(),
        }
    }

    fn read(&mut self, place: u64, buf: &mut [u8]) -> Result<(), Fault> {
        let front = self.front.blocks();
        self.past.note(&self.front, &self.back);
        if place < front {
            return self.front.read(place, buf);
        }
        self.back.read(place - front, buf)
    }

    fn read_run(&mut self, place: u64, blocks: usize, buf: &mut [u8]) -> Result<(), Fault> {
        let front = self.front.blocks();
        self.past.note(&self.front, &self.back);
        if place + blocks as u64 <= front {
            return self.front.read_run(place, blocks, buf);
        }
        if front <= place {
            return self.back.read_run(place - front, blocks, buf);
        }
        let count = (front - place) as usize;
        let size = self.front.block_size().bytes() as usize;
        let (first, rest) = buf.split_at_mut(size * count);
        self.front.read_run(place, count, first)?;
        self.past.note(&self.front, &self.back);
        self.back.read_run(0, blocks - count, rest)
    }

    fn write(&mut self, place: u64, bytes: &[u8]) -> Result<(), Fault> {
        let front = self.front.blocks();
        self.past.note(&self.front, &self.back);
        if place < front {
            return self.front.write(place, bytes);
        }
        self.back.write(place - front, bytes)
    }

    fn write_run(&mut self, place: u64, blocks: usize, bytes: &[u8]) -> Result<(), Fault> {
        let front = self.front.blocks();
        self.past.note(&self.front, &self.back);
        if place + blocks as u64 <= front {
            return self.front.write_run(place, blocks, bytes);
        }
        if front <= place {
            return self.back.write_run(place - front, blocks, bytes);
        }
        let count = (front - place) as usize;
        let size = self.front.block_size().bytes() as usize;
        let (first, rest) = bytes.split_at(size * count);
        self.front.write_run(place, count, first)?;
        self.past.note(&self.front, &self.back);
        self.back.write_run(0, blocks - count, rest)
    }

    fn sync(&mut self) -> Result<(), Fault> {
        self.past.note(&self.front, &self.back);
        self.front.sync()?;
        self.past.note(&self.front, &self.back);
        self.back.sync()
    }
}
