use crate::progress::ShownProgress;
use jb_block::BlockSize;
use jb_disk::{Disk, Failure, Fault};
use std::time::Clock;

/// A disk that passes all calls on to another, and shows on a terminal how far they have come.
#[derive(Drop)]
pub(crate) struct WatchedDisk<'a, D: Disk, K: Clock> {
    disk: D,
    progress: ShownProgress<'a, K>,
}

impl<'a, D: Disk, K: Clock> WatchedDisk<'a, D, K> {
    ghost use Rattle.std.specs.Prelude.{◌≡◌};
    ghost use Rattle.jb_commands.specs.Watched.{watched};

    /// A disk that passes calls on to `disk`.
    pub(crate) fn of(disk: D, progress: ShownProgress<'a, K>) -> WatchedDisk<'a, D, K>
        ensures { watched result ≡ disk }
    {
        WatchedDisk { disk, progress }
    }

    /// The disk that calls are passed on to.
    pub(crate) fn inner(&self) -> &D
        ensures { result.now ≡ watched self.now }
    {
        &self.disk
    }

    /// The same, once nothing is shown any more.
    pub(crate) fn into_inner(self) -> D
        ensures { result ≡ watched self.entry }
    {
        let WatchedDisk { disk, progress } = self;
        progress.end();
        disk
    }
}

/// What is said of it is said of the disk that it passes calls on to.
impl<'a, D: Disk, K: Clock> Disk for WatchedDisk<'a, D, K> {
    ghost use Rattle.std.specs.Prelude.{false};

    ghost size = { λ w. D.size w.disk };

    ghost count = { λ w. D.count w.disk };

    ghost faults = { λ w. D.faults w.disk };

    ghost honest = { λ w. D.honest w.disk };

    ghost newest = { λ w. D.newest w.disk };

    ghost may_leave = { λ w. D.may_leave w.disk };

    ghost moment = { λ w. D.moment w.disk };

    ghost left_since = { λ w. D.left_since w.disk };

    ghost may_go_on = { λ w. D.may_go_on w.disk };

    ghost well_asked = { λ w. D.well_asked w.disk };

    ghost runs_as_calls = { false };

    ghost tells = { λ w. D.tells w.disk };

    ghost has_size = { λ w. D.has_size w.disk };

    ghost newest_may_stay = { λ w. D.newest_may_stay w.disk };

    ghost has_shape = { λ w. D.has_shape w.disk };

    ghost has_shape_since = { λ w. D.has_shape_since w.disk };

    ghost counts_now = { λ w. D.counts_now w.disk };

    ghost only_now = { λ w. D.only_now w.disk };

    fn block_size(&self) -> BlockSize {
        self.disk.block_size()
    }

    fn blocks(&self) -> u64 {
        self.disk.blocks()
    }

    fn failure(&self) -> Option<Failure> {
        self.disk.failure()
    }

    fn read(&mut self, place: u64, buf: &mut [u8]) -> Result<(), Fault> {
        self.progress.meet(place);
        self.disk.read(place, buf)
    }

    fn read_run(&mut self, place: u64, blocks: usize, buf: &mut [u8]) -> Result<(), Fault> {
        self.progress.meet(place);
        self.disk.read_run(place, blocks, buf)
    }

    fn write(&mut self, place: u64, bytes: &[u8]) -> Result<(), Fault> {
        self.progress.meet(place);
        self.disk.write(place, bytes)
    }

    fn write_run(&mut self, place: u64, blocks: usize, bytes: &[u8]) -> Result<(), Fault> {
        self.progress.meet(place);
        self.disk.write_run(place, blocks, bytes)
    }

    fn sync(&mut self) -> Result<(), Fault> {
        self.disk.sync()
    }
}
