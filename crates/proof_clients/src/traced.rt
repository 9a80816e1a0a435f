//! A disk whose calls since a first state are known, for clauses alone.
ghost use Rattle.std.specs.Prelude.{◌≡◌};

use jb_block::BlockSize;
use jb_disk::{Disk, Fault};
use std::marker::{Brand, PhantomData};

/// Says which disk the calls began with. A caller picks it where it passes [`Brand`].
pub(crate) trait First<D> {
    /// The disk is the one that the calls began with.
    ghost is_first: { D → Type 0 };
}

impl<D> First<D> for Brand {
    ghost is_first = { λ _. ⊥ };
}

/// A disk that passes all calls on to another. What is known of it at the end, where its count of failed calls is not
/// at its top: which calls were made of that one, and what each made of it.
#[derive(Drop)]
pub(crate) struct TracedDisk<D: Disk, F: First<D>> {
    disk: D,
    first: PhantomData<F>,
}

impl<D: Disk, F: First<D>> TracedDisk<D, F> {
    ghost use Rattle.proof_clients.specs.Traced.{traced};

    /// A disk that passes calls on to `disk`.
    pub(crate) fn of(disk: D) -> TracedDisk<D, F>
        ensures { traced result ≡ disk }
    {
        TracedDisk {
            disk,
            first: PhantomData,
        }
    }

    /// The disk that calls are passed on to.
    pub(crate) fn into_inner(self) -> D
        ensures { result ≡ traced self }
    {
        self.disk
    }
}

impl<D: Disk, F: First<D>> Disk for TracedDisk<D, F> {
    ghost use Rattle.proof_clients.specs.CutCalls.{WereMade};

    ghost size = { λ t. D.size t.disk };

    ghost count = { λ t. D.count t.disk };

    ghost faults = { λ t. D.faults t.disk };

    ghost honest = { λ t. D.honest t.disk };

    ghost newest = { λ t. D.newest t.disk };

    ghost may_leave = { λ t. D.may_leave t.disk };

    ghost moment = { λ t. D.moment t.disk };

    ghost left_since = { λ t. D.left_since t.disk };

    ghost fails_next = { λ t. D.fails_next t.disk };

    ghost well_asked = { λ t. WereMade D.own F.is_first t.disk };

    ghost has_size = { λ t. D.has_size t.disk };

    ghost newest_may_stay = { λ t. D.newest_may_stay t.disk };

    ghost has_shape = { λ t. D.has_shape t.disk };

    ghost has_shape_since = { λ t. D.has_shape_since t.disk };

    ghost counts_now = { λ t. D.counts_now t.disk };

    ghost only_now = { λ t. D.only_now t.disk };

    fn block_size(&self) -> BlockSize {
        self.disk.block_size()
    }

    fn blocks(&self) -> u64 {
        self.disk.blocks()
    }

    fn read(&mut self, place: u64, buf: &mut [u8]) -> Result<(), Fault> {
        self.disk.read(place, buf)
    }

    fn write(&mut self, place: u64, bytes: &[u8]) -> Result<(), Fault> {
        self.disk.write(place, bytes)
    }

    fn sync(&mut self) -> Result<(), Fault> {
        self.disk.sync()
    }
}
