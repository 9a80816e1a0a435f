//! What is assumed of a disk: whole blocks of 512-byte sectors, and what a crash may leave of them.
ghost use Rattle.std.specs.Prelude.{Bool, true, false, is_ok, IsTrue, IsErr, ◌≡◌, ◌<◌, ◌≤◌, ◌+◌, ℕ, length, OnOk, set};
ghost use Rattle.std.specs.Prelude.{IfSome};
ghost use Rattle.jb_block.specs.Size.{bytes_of, IsBlockSize};
ghost use Rattle.jb_disk.specs.Image.{Image, block, Torn, ChangesNothing, Only, HasShape};
ghost use Rattle.jb_disk.specs.Time.{Goes};
ghost use Rattle.jb_disk.specs.OneCall.{AreMade, Called, Reads, Writes, Syncs};
ghost use Rattle.jb_disk.specs.Faults.{CountsFault};
ghost use Rattle.jb_disk.specs.Kept.{IsDiskKept, OwnReads, Untouched};
ghost use Rattle.jb_disk.specs.Runs.{part, IsRunOn, ReadsRun, TornRun, WroteRun};
ghost use Rattle.jb_disk.specs.Steps.{Steps};
ghost use Rattle.jb_disk.specs.declared.failure.Failure.{Failure};

use crate::{Failure, Fault};
use jb_block::BlockSize;

/// A disk of equal blocks, read and written one whole block at a time.
///
/// The clauses on contents say what holds where the disk is honest after the call; it was honest before it then.
/// The clauses on size, number of blocks and faults hold of any disk.
pub trait Disk {
    /// How many bytes a block has.
    ghost size: { Self → ℕ };

    /// How many blocks there are.
    ghost count: { Self → ℕ };

    /// How many calls have failed; the count stays at 2^64 - 1.
    ghost faults: { Self → ℕ };

    /// The disk gives what was written, and a crash leaves no more than the clauses below allow.
    ghost honest: { Self → Type 0 };

    /// The blocks as reads give them.
    ghost newest: { Self → Image };

    /// The images that a crash at this moment may leave.
    ghost may_leave: { Self → Image → Type 0 };

    /// The moment, as a number that does not fall.
    ghost moment: { Self → ℕ };

    /// The images that a crash at that moment or later might have left.
    ghost left_since: { Self → ℕ → Image → Type 0 };

    /// The next read, write or sync fails and is not tried.
    ghost fails_next: { Self → Bool } = { λ _. false };

    /// No write and no sync has failed, so a call may follow; nothing is said unless a disk says it.
    ghost may_go_on: { Self → Type 0 } = { λ _. Unit {0} };

    /// No call came after a write or a sync that failed; nothing is said unless a disk says it.
    ghost well_asked: { Self → Type 0 } = { λ _. Unit {0} };

    /// What one call does to the state of this kind of disk, by whether it succeeds; nothing is said
    /// unless a disk says it.
    ghost own: { Called → Self → Self → Bool → Type 0 } = { λ _ _ _ _. Unit {0} };

    /// A run of blocks does to the state of this kind of disk what a call for each of them does, up to
    /// the first that fails.
    ghost runs_as_calls: { Bool } = { true };

    /// The last call that failed was this one, and for this reason; nothing is told unless a disk tells it.
    ghost tells: { Self → Failure → Type 0 } = { λ _ _. ⊥ };

    /// The size of the disk's blocks.
    fn block_size(&self) -> BlockSize
        ensures { bytes_of result ≡ size self.now };

    /// How many blocks the disk has. Their places are 0 and on, up to but without this number.
    fn blocks(&self) -> u64
        ensures { result ≡ count self.now };

    /// Why the last call that failed did so, as the system says it; `None` where none has failed, or the disk gives no
    /// reason.
    fn failure(&self) -> Option<Failure>
        ensures { IfSome result (tells self.now) }
    {
        None
    }

    /// Reads the block at `place` into `buf`, which has the length of one block. After a fault `buf`
    /// may hold anything.
    fn read(&mut self, place: u64, buf: &mut [u8]) -> Result<(), Fault>
        requires place { place < count self.old }
        requires block { length buf.old ≡ size self.old }
        ensures kept { IsDiskKept size count faults honest may_go_on well_asked (CountsFault result) self.old self.new }
        ensures spent { IsTrue (fails_next self.old) → IsErr result
            × Untouched newest may_leave moment self.old self.new }
        ensures own { OwnReads may_leave may_go_on (own (Reads place) self.old self.new (is_ok result))
            self.old self.new }
        ensures found { honest self.new → OnOk result (buf.new ≡ block (newest self.old) place) }
        ensures newest { honest self.new → newest self.new ≡ newest self.old }
        ensures goes { honest self.new → Goes may_leave moment left_since ChangesNothing self.old self.new };

    /// Writes `bytes`, which has the length of one block, to the block at `place`. Until a sync
    /// succeeds, a crash may leave each of its sectors as it was or as it is written; after a fault a
    /// read may find either, too.
    fn write(&mut self, place: u64, bytes: &[u8]) -> Result<(), Fault>
        requires place { place < count self.old }
        requires block { length bytes.now ≡ size self.old }
        ensures kept { IsDiskKept size count faults honest may_go_on well_asked (CountsFault result) self.old self.new }
        ensures spent { IsTrue (fails_next self.old) → IsErr result
            × Untouched newest may_leave moment self.old self.new }
        ensures own { own (Writes place bytes.now) self.old self.new (is_ok result) }
        ensures written { honest self.new → OnOk result (newest self.new ≡ set (newest self.old) place bytes.now) }
        ensures torn { honest self.new → Torn place bytes.now (newest self.old) (newest self.new) }
        ensures goes { honest self.new → Goes may_leave moment left_since (Torn place bytes.now) self.old self.new };

    /// Makes the newest content the only one that a crash may leave. A sync that fails promises nothing
    /// of what was written before it, and of a file nothing is known once anything is asked of it then.
    fn sync(&mut self) -> Result<(), Fault>
        /// No call of a disk comes after a write or a sync that failed, where none did before; and while no call fails,
        /// no write or sync has failed.
        ensures kept { IsDiskKept size count faults honest may_go_on well_asked (CountsFault result) self.old self.new }
        ensures spent { IsTrue (fails_next self.old) → IsErr result
            × Untouched newest may_leave moment self.old self.new }
        ensures own { own Syncs self.old self.new (is_ok result) }
        ensures newest { honest self.new → newest self.new ≡ newest self.old }
        ensures durable { honest self.new → OnOk result (Only (newest self.old) (may_leave self.new)) }
        ensures goes { honest self.new → Goes may_leave moment left_since ChangesNothing self.old self.new };

    /// Reads `blocks` blocks from the one at `place` on into `buf`, which has their length: one at least. Most
    /// disks make one call of `read` for each of them. After a fault `buf` may hold anything.
    fn read_run(&mut self, place: u64, blocks: usize, buf: &mut [u8]) -> Result<(), Fault>
        requires run { IsRunOn (size self.old) (count self.old) place blocks (length buf.old) }
        ensures kept { IsDiskKept size count faults honest may_go_on well_asked (CountsFault result) self.old self.new }
        ensures spent { IsTrue (fails_next self.old) → IsErr result
            × Untouched newest may_leave moment self.old self.new }
        /// A run of blocks that is read does to the state of a disk what a read of each of them does, up to the first
        /// that fails.
        ///
        /// A read makes nothing durable: what a crash could leave it still may; and where no write or sync had failed,
        /// none has.
        ensures own { OwnReads may_leave may_go_on (IsTrue runs_as_calls
            → AreMade own (λ k. Reads (place + k)) blocks self.old self.new (is_ok result)) self.old self.new }
        /// Of an honest disk a run of blocks gives each of them as it is in the newest content.
        ensures found { honest self.new → OnOk result
            (ReadsRun (size self.old) blocks place (newest self.old) buf.new) }
        ensures newest { honest self.new → newest self.new ≡ newest self.old }
        ensures goes { honest self.new → Goes may_leave moment left_since ChangesNothing self.old self.new }
    {
        let size = self.block_size().bytes() as usize;
        for k in 0..blocks {
            self.read(place + k as u64, &mut buf[size * k..size * k + size])?;
        }
        Ok(())
    }

    /// Writes `bytes`, which has the length of `blocks` blocks, to the blocks from the one at `place` on: one at
    /// least. Most disks make one call of `write` for each of them. Until a sync succeeds, a crash may leave each
    /// sector of them as it was or as it is written, whatever it leaves of the others; after a fault a read may
    /// find either, too.
    fn write_run(&mut self, place: u64, blocks: usize, bytes: &[u8]) -> Result<(), Fault>
        requires run { IsRunOn (size self.old) (count self.old) place blocks (length bytes.now) }
        ensures kept { IsDiskKept size count faults honest may_go_on well_asked (CountsFault result) self.old self.new }
        ensures spent { IsTrue (fails_next self.old) → IsErr result
            × Untouched newest may_leave moment self.old self.new }
        /// A run of blocks that is written does what a write of each of them does. A disk in memory, a fuse, a disk of
        /// one fault and a file do not say otherwise ([`laws::runs`](crates/jb_disk/src/laws.rt)).
        ensures own { IsTrue runs_as_calls
            → AreMade own (λ k. Writes (place + k) (part (size self.old) k bytes.now)) blocks
            self.old self.new (is_ok result) }
        /// Of an honest disk a run of blocks that is written leaves each of them as it was passed, and no other block
        /// changed.
        ensures written { honest self.new → OnOk result
            (WroteRun (size self.old) blocks place bytes.now (newest self.old) (newest self.new)) }
        /// With `steps`: Where that fails, or a crash comes in its midst, each sector is old or written.
        ensures torn { honest self.new →
            TornRun (size self.old) blocks place bytes.now (newest self.old) (newest self.new) }
        ensures steps { honest self.new → Steps may_leave moment left_since
            (TornRun (size self.old) blocks place bytes.now) self.old self.new }
    {
        let size = self.block_size().bytes() as usize;
        for k in 0..blocks {
            self.write(place + k as u64, &bytes[size * k..size * k + size])?;
        }
        Ok(())
    }

    /// The size is one that a journal's blocks may have.
    ghost has_size: { (disk : Self) → IsBlockSize (size disk) };

    /// A crash may leave what a read gives.
    ghost newest_may_stay: { (disk : Self) → honest disk → may_leave disk (newest disk) };

    /// What a crash may leave has as many blocks as the disk, each of the disk's size.
    ghost has_shape: { (disk : Self) (c : Image) → honest disk → may_leave disk c
        → HasShape (count disk) (size disk) c };

    /// So has what a crash at some moment from that one on might have left.
    ghost has_shape_since: { (disk : Self) (t : ℕ) (c : Image) → honest disk → left_since disk t c
        → HasShape (count disk) (size disk) c };

    /// This moment is one of those since an earlier one.
    ghost counts_now: { (disk : Self) (t : ℕ) (c : Image) → honest disk → t ≤ moment disk → may_leave disk c
        → left_since disk t c };

    /// Since this moment there is no other.
    ghost only_now: { (disk : Self) (c : Image) → honest disk → left_since disk (moment disk) c → may_leave disk c };
}
