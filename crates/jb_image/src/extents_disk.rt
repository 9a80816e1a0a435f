ghost use Rattle.std.specs.Prelude.{◌≡◌, ◌<◌, IfSome, IsErr, is_ok};
ghost use Rattle.jb_disk.specs.Faults.{CountsFault, CountsOne, counted};
ghost use Rattle.jb_image.specs.Disks.{ExtentsCalled, at_block, spread_count};

use crate::extents::Extents;
use jb_block::BlockSize;
use jb_disk::{Disk, Failure, Fault};
use jb_map::Extent;

/// A journal and the file system that it is in, as one disk: first the blocks of the journal, where the extents
/// have them, and after them all blocks of the image by their own numbers.
///
/// A home block that is one of the journal's own is neither read nor written: such a call is a fault. So no block of
/// the image is two blocks of this disk.
#[derive(Drop)]
pub struct ExtentsDisk<D: Disk> {
    disk: D,
    extents: Extents,
    journal: u64,
    failed: u64,
}

impl<D: Disk> ExtentsDisk<D> {
    ghost use Rattle.jb_image.specs.Disks.{extents_of, refused_calls, journal_blocks, own_among, own_in};
    ghost use Rattle.jb_image.specs.Disks.{whole_disk};
    ghost use Rattle.std.specs.Prelude.{◌≡◌};

    /// The disk that an image is, with a journal of this many blocks in these extents.
    pub fn of(disk: D, extents: Extents, journal: u64) -> ExtentsDisk<D>
        /// With `extents`, `journal`: The disk has the image and the extents that it is made of. It is honest where the
        /// image is and the extents share no block ([`IsHonestWithin`](crates/jb_image/specs/ExtentImage.antt)): each
        /// place holds the block of the image that it is. Its `own` says what each read or write of a block and each
        /// sync does ([README](crates/jb_image/README.md#what-is-proved)), which no row can name.
        ensures disk { whole_disk result ≡ disk }
        ensures extents { extents_of result ≡ extents }
        ensures journal { journal_blocks result ≡ journal }
        ensures fresh { refused_calls result ≡ 0 }
    {
        ExtentsDisk {
            disk,
            extents,
            journal,
            failed: 0,
        }
    }

    /// The image.
    pub fn into_inner(self) -> D
        ensures { result ≡ whole_disk self }
    {
        self.disk
    }

    /// The image, where the journal is in it, and how many blocks the journal has.
    pub fn into_parts(self) -> (D, Extents, u64)
        ensures disk { result.0 ≡ whole_disk self }
        ensures extents { result.1 ≡ extents_of self }
        ensures journal { result.2 ≡ journal_blocks self }
    {
        (self.disk, self.extents, self.journal)
    }

    /// The first of these home blocks that is one of the journal's own.
    pub fn first_own(&self, homes: &[u64]) -> Option<u64>
        ensures { result ≡ own_in (extents_of self.now) homes.now }
    {
        for home in homes {
            if self.extents.holds(*home) {
                return Some(*home);
            }
        }
        None
    }

    /// One of this many home blocks from this one on that is one of the journal's own; of none, as of one.
    pub fn own_among(&self, home: u64, count: u64) -> Option<u64>
        ensures { result ≡ own_among (extents_of self.now) home count }
    {
        let last = home.saturating_add(count.max(1) - 1);
        self.extents.meets(Extent { first: home, last })
    }
}

/// What each read or write of a block and each sync does to the image is said by `own`. Of the contents all is said
/// where the image is honest and no block is in two of the extents: each place holds the block of the image that it is.
impl<D: Disk> Disk for ExtentsDisk<D> {
    ghost use Rattle.std.proofs.Common.{refl};
    ghost use Rattle.jb_image.specs.ExtentImage.{IsHonestWithin, WithinLeaves, WithinLeft, within, within-shape};

    ghost size = { λ d. D.size d.disk };

    ghost count = { λ d. spread_count d.journal (D.count d.disk) };

    ghost faults = { λ d. counted (D.faults d.disk) d.failed };

    ghost honest = { IsHonestWithin D.Disk };

    ghost newest = { λ d. within D.Disk d (D.newest d.disk) };

    ghost may_leave = { WithinLeaves D.Disk };

    ghost moment = { λ d. D.moment d.disk };

    ghost left_since = { WithinLeft D.Disk };

    ghost may_go_on = { λ d. D.may_go_on d.disk };

    ghost well_asked = { λ d. D.well_asked d.disk };

    ghost tells = { λ d. D.tells d.disk };

    ghost own = { λ call old new ok. ExtentsCalled D.count D.faults D.own call old new ok };

    ghost has_size = { λ d. D.has_size d.disk };

    ghost newest_may_stay = { λ d honest. (D.newest d.disk, D.newest_may_stay d.disk honest.whole, refl) };

    ghost has_shape = { λ d c honest left.
        within-shape d.extents d.journal (D.size d.disk) (D.count d.disk) c left.0
        (D.has_shape d.disk left.0 honest.whole left.1) left.2 };

    ghost has_shape_since = { λ d t c honest left.
        within-shape d.extents d.journal (D.size d.disk) (D.count d.disk) c left.0
        (D.has_shape_since d.disk t left.0 honest.whole left.1) left.2 };

    ghost counts_now = { λ d t c honest earlier left.
        (left.0, D.counts_now d.disk t left.0 honest.whole earlier left.1, left.2) };

    ghost only_now = { λ d c honest left. (left.0, D.only_now d.disk left.0 honest.whole left.1, left.2) };

    fn block_size(&self) -> BlockSize {
        self.disk.block_size()
    }

    fn blocks(&self) -> u64 {
        self.journal.saturating_add(self.disk.blocks())
    }

    fn failure(&self) -> Option<Failure> {
        self.disk.failure()
    }

    fn read(&mut self, place: u64, buf: &mut [u8]) -> Result<(), Fault> {
        match at(&self.extents, self.journal, self.disk.blocks(), place) {
            Some(block) => self.disk.read(block, buf),
            None => fail(&mut self.failed),
        }
    }

    fn write(&mut self, place: u64, bytes: &[u8]) -> Result<(), Fault> {
        match at(&self.extents, self.journal, self.disk.blocks(), place) {
            Some(block) => self.disk.write(block, bytes),
            None => fail(&mut self.failed),
        }
    }

    fn sync(&mut self) -> Result<(), Fault> {
        self.disk.sync()
    }
}

/// The block of an image of this many that a place of the disk is; none where the extents or the image have it not, or
/// a home block is one of the journal's own.
fn at(extents: &Extents, journal: u64, blocks: u64, place: u64) -> Option<u64>
    ensures value { result ≡ at_block extents.now journal blocks place }
    ensures within { IfSome result (λ block. block < blocks) }
{
    let block = if place < journal {
        extents.place(place)?
    } else if extents.holds(place - journal) {
        return None;
    } else {
        place - journal
    };
    if block < blocks { Some(block) } else { None }
}

/// Counts a call that fails.
fn fail(failed: &mut u64) -> Result<(), Fault>
    ensures fails { IsErr result }
    ensures faults { CountsFault result failed.old failed.new }
    ensures one { CountsOne (is_ok result) failed.old failed.new }
{
    *failed = failed.saturating_add(1);
    Err(Fault)
}
