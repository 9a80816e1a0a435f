//! Calls that the loss of power cuts short, at any call of the disk.
//!
//! Each runs what it names over a disk that passes this many calls on and fails every later one without passing it on.
//! So it returns, and the disk inside is as the loss of power before that call finds it.
ghost use Rattle.std.specs.Prelude.{◌≡◌, ◌⊎◌, ◌<◌, ◌≤◌, false, true, IfErr, IfOk};
ghost use Rattle.jb_disk.specs.Faults.{most_faults};
ghost use Rattle.jb_disk.specs.Image.{Only};
ghost use Rattle.jb_disk.specs.Throughout.{AllHave};
ghost use Rattle.jb_disk.specs.Time.{LeavesOnly};
ghost use Rattle.jb_recover.specs.Outcomes.{RecoversAs};
ghost use Rattle.jb_recover.specs.Passes.{PassFaults};
ghost use Rattle.jb_recover.specs.Recovers.{Recovers};
ghost use Rattle.proof_clients.specs.CutCalls.{WereMade};
ghost use Rattle.proof_clients.specs.CutShort.{HadCalls, WasCut, KeepsShape};
ghost use Rattle.proof_clients.specs.Lives.{LeftByLife};

use crate::life;
use crate::traced::{First, TracedDisk};
use jb_block::Stamp;
use jb_disk::{Disk, FuseDisk};
use jb_handle::Stopped;
use jb_recover::{RecoverFault, Recovered, recover};
use std::alloc::Global;
use std::marker::Brand;

/// Recovers the journal of a disk up to this many calls of the disk: from the next one on every call fails, and none
/// of them is tried. Gives the disk, and what the recovery answered: `DeviceFault` where it was cut short.
pub fn recover_until<D: Disk>(
    alloc: Global,
    disk: D,
    calls: u64,
) -> (D, Result<Recovered, RecoverFault>)
    ensures shape { KeepsShape D.Disk disk result.0 }
    ensures recovers { D.honest result.0 → Recovers (D.size disk) (D.count disk) (D.newest disk)
        (D.newest result.0) result.1 }
    /// A recovery is cut short before any call of the disk: each image that a crash leaves then could have been left
    /// before, or recovers to what a whole recovery makes of the image as it was read then.
    ///
    /// With `settled`: Where nothing was pending before, it recovers to that.
    ensures leaves { D.honest result.0 → AllHave D.may_leave result.0
        (λ c. D.may_leave disk c ⊎ RecoversAs (D.size disk) (D.count disk) (D.newest disk) c) }
    ensures settled { D.honest result.0 → Only (D.newest disk) (D.may_leave disk) → AllHave D.may_leave result.0
        (RecoversAs (D.size disk) (D.count disk) (D.newest disk)) }
    /// The disk of a recovery that is cut short had no more calls than it was to have, and exactly so many where the
    /// recovery answers a fault of the disk, and no call that was tried has failed.
    ensures calls { D.faults disk < most_faults
        → HadCalls D.Disk calls (WasCut D.faults disk result.0 result.1) disk result.0 }
{
    let fuse = FuseDisk::of(disk, calls);
    let (fuse, answer) = recover_traced::<FuseDisk<D>, Brand>(alloc, fuse);
    (fuse.into_inner(), answer)
}

/// Recovers the journal of a disk, whose calls are known then.
fn recover_traced<D: Disk, F: First<D>>(
    alloc: Global,
    disk: D,
) -> (D, Result<Recovered, RecoverFault>)
    requires first { F.is_first disk }
    ensures shape { KeepsShape D.Disk disk result.0 }
    ensures faults { PassFaults result.1 (D.faults disk) (D.faults result.0) }
    ensures recovers { D.honest result.0 → Recovers (D.size disk) (D.count disk) (D.newest disk)
        (D.newest result.0) result.1 }
    ensures crash { D.honest result.0 → LeavesOnly D.moment D.left_since disk result.0
        (λ c. D.may_leave disk c ⊎ RecoversAs (D.size disk) (D.count disk) (D.newest disk) c) }
    ensures settled { D.honest result.0 → Only (D.newest disk) (D.may_leave disk)
        → LeavesOnly D.moment D.left_since disk result.0 (RecoversAs (D.size disk) (D.count disk) (D.newest disk)) }
    ensures made { D.faults disk < most_faults → WereMade D.own F.is_first result.0 }
{
    let mut traced = TracedDisk::<D, F>::of(disk);
    let answer = recover(alloc, &mut traced);
    (traced.into_inner(), answer)
}

/// Opens the journal of a disk and commits these handles as one batch, up to this many calls of the disk: from the next
/// one on every call fails, and none of them is tried. Gives the disk, and whether the handles were reported as
/// committed.
pub fn commit_until<D: Disk>(
    alloc: Global,
    disk: D,
    handles: Vec<Stopped>,
    stamp: Stamp,
    calls: u64,
) -> (D, bool)
    ensures shape { KeepsShape D.Disk disk result.0 }
    /// A commit is cut short before any call of the disk: each image that a crash leaves then could have been left
    /// before, or is recovered to the homes as they were with the first groups of the batch, freed homes aside.
    ///
    /// With `ends`: It has all of them where they were reported as committed.
    ensures leaves { D.honest result.0 → AllHave D.may_leave result.0
        (λ c. D.may_leave disk c
        ⊎ LeftByLife (D.size disk) (D.count disk) (D.newest disk) handles.items false c) }
    ensures ends { D.honest result.0 → result.1 ≡ true → AllHave D.may_leave result.0
        (LeftByLife (D.size disk) (D.count disk) (D.newest disk) handles.items true) }
    /// The disk of a commit that is cut short had no more calls than it was to have.
    ensures calls { D.faults disk < most_faults → HadCalls D.Disk calls ⊥ disk result.0 }
{
    let fuse = FuseDisk::of(disk, calls);
    let (fuse, committed) = commit_traced::<FuseDisk<D>, Brand>(alloc, fuse, handles, stamp);
    (fuse.into_inner(), committed)
}

/// Opens the journal of a disk and commits these handles as one batch; the calls of the disk are known then.
fn commit_traced<D: Disk, F: First<D>>(
    alloc: Global,
    disk: D,
    handles: Vec<Stopped>,
    stamp: Stamp,
) -> (D, bool)
    requires first { F.is_first disk }
    ensures shape { KeepsShape D.Disk disk result.0 }
    ensures leaves { D.honest result.0 → LeavesOnly D.moment D.left_since disk result.0
        (λ c. D.may_leave disk c
        ⊎ LeftByLife (D.size disk) (D.count disk) (D.newest disk) handles.items false c) }
    ensures ends { D.honest result.0 → result.1 ≡ true → AllHave D.may_leave result.0
        (LeftByLife (D.size disk) (D.count disk) (D.newest disk) handles.items true) }
    ensures made { D.faults disk < most_faults → WereMade D.own F.is_first result.0 }
{
    let traced = TracedDisk::<D, F>::of(disk);
    let (traced, committed) = life::run(alloc, traced, handles, stamp, false);
    (traced.into_inner(), committed)
}
