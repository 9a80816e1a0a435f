//! Examples of what is said of journals that may have checksums, and of the journal that is found in a file system.
ghost use Rattle.std.specs.Prelude.{◌≡◌, ◌≢◌, ◌+◌, ℕ, false, List, Some, None, Result, Ok, Err};
ghost use Rattle.jb_block.specs.declared.layout.Sums.TheVariants.{Absent};
ghost use Rattle.jb_disk.specs.Image.{Image, block};
ghost use Rattle.jb_scan.specs.declared.wrong.WrongSum.{WrongSum};
ghost use Rattle.jb_sums.specs.Sums.{super_right};
ghost use Rattle.jb_super.specs.Checked.{checks_in};
ghost use Rattle.jb_super.specs.declared.checked.Checksums.{Checksums};
ghost use Rattle.jb_super.specs.declared.checked.CheckedSuper.{CheckedSuper};
ghost use Rattle.jb_ext.specs.Finds.{FindsJournal, own_journal_in};
ghost use Rattle.jb_ext.specs.Looks.{Looked};
ghost use Rattle.jb_ext.specs.OwnJournal.{FoundJournal};
ghost use Rattle.jb_ext.specs.declared.fault.FindFault.{FindFault};
ghost use Rattle.jb_ext.specs.declared.fault.FindFault.TheVariants.{Own};
ghost use Rattle.jb_ext.specs.declared.fault.OwnFault.{OwnFault};
ghost use Rattle.jb_recover.specs.CheckedOutcomes.{CheckedRecoversAs, IsAllRight, checked_recovered};
ghost use Rattle.jb_recover.specs.CheckedRefusals.{checked_refusal};
ghost use Rattle.jb_recover.specs.Checking.{wrong_copy, wrong_own};
ghost use Rattle.jb_recover.specs.Window.{logged_by, window};
ghost use Rattle.jb_recover.specs.declared.checked_fault.CheckedFault.{CheckedFault};
ghost use Rattle.proof_clients.specs.ExampleCrashes.{copied_twice};
ghost use Rattle.proof_clients.specs.ExampleRecovered.{HasCheckedLog};

use jb_disk::Disk;

/// An image recovers as itself does.
/// Where its log has an older and a newer copy for home 5, no image recovers as it does that recovers to the older one
/// there; nor one that is refused.
///
/// Of `CheckedRecoversAs`.
pub fn checked_recovers_as()
    ensures meets { (size count : ℕ) (base : Image) → CheckedRecoversAs size count base base }
    ensures not_older { (size count : ℕ) (found : CheckedSuper) (older newer : List ℕ) (base c : Image) → older ≢ newer
        → HasCheckedLog size count found (copied_twice older newer) base
        → block (checked_recovered size count c) (found.plain.maxlen + 5) ≡ older
        → CheckedRecoversAs size count base c → ⊥ }
    ensures not_refused { (size count : ℕ) (fault : CheckedFault) (base c : Image)
        → checked_refusal size count base ≡ None → checked_refusal size count c ≡ Some fault
        → CheckedRecoversAs size count base c → ⊥ }
{}

/// Not all is right of an image where a block of a committed transaction is wrong, a copy that is written home, or the
/// superblock that the recovery leaves, if it has a checksum.
///
/// Of `NotRefusedIsRight`.
pub fn is_all_right()
    ensures not_own { (size count : ℕ) (found : CheckedSuper) (wrong : WrongSum) (c : Image)
        → wrong_own (checks_in found) found.plain (window found.plain c) ≡ Some wrong
        → IsAllRight size count found c → ⊥ }
    ensures not_copy { (size count : ℕ) (found : CheckedSuper) (wrong : WrongSum) (c : Image)
        → wrong_copy (checks_in found) found.plain (logged_by found.sums found.plain c) ≡ Some wrong
        → IsAllRight size count found c → ⊥ }
    ensures not_front { (size count : ℕ) (found : CheckedSuper) (c : Image) → found.sums ≢ Absent
        → super_right (block (checked_recovered size count c) 0) ≡ false → IsAllRight size count found c → ⊥ }
{}

/// The journal that is found is the file system's own. It is no other one, and none where the image has none; nor is
/// the image refused that has one, or changed.
///
/// Of `FindsJournal`.
pub fn finds_journal<D: Disk>()
    ensures meets { (sums : Checksums) (own : FoundJournal) (old new : D) → Looked D.Disk (Ok own) old new
        → own_journal_in sums (D.size old) (D.count old) (D.newest old) ≡ Ok own
        → FindsJournal D.Disk sums (Ok own) old new }
    ensures not_other { (sums : Checksums) (own other : FoundJournal) (old new : D) → own ≢ other → D.honest new
        → own_journal_in sums (D.size old) (D.count old) (D.newest old) ≡ Ok own
        → FindsJournal D.Disk sums (Ok other) old new → ⊥ }
    ensures not_where_none { (sums : Checksums) (fault : FindFault) (other : FoundJournal) (old new : D) → D.honest new
        → own_journal_in sums (D.size old) (D.count old) (D.newest old) ≡ Err fault
        → FindsJournal D.Disk sums (Ok other) old new → ⊥ }
    ensures not_refused { (sums : Checksums) (own : FoundJournal) (fault : OwnFault) (old new : D) → D.honest new
        → own_journal_in sums (D.size old) (D.count old) (D.newest old) ≡ Ok own
        → FindsJournal D.Disk sums (Err (Own fault)) old new → ⊥ }
    ensures not_changed { (sums : Checksums) (answer : Result FoundJournal FindFault) (old new : D) → D.honest new
        → D.newest new ≢ D.newest old → FindsJournal D.Disk sums answer old new → ⊥ }
{}
