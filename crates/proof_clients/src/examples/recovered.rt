//! Examples of what recovery makes of an image, at which number, and of what can be opened then.
ghost use Rattle.std.specs.Prelude.{◌≡◌, ◌≢◌, ◌+◌, ◌==◌, ◌<◌, ◌≤◌, ◌^◌, ℕ, false, List, [], ◌∷◌, length, None, Ok, Err};
ghost use Rattle.jb_disk.specs.Image.{Image, block};
ghost use Rattle.jb_super.specs.Superblock.{Superblock};
ghost use Rattle.jb_super.specs.Sound.{FitsFields};
ghost use Rattle.jb_super.specs.declared.fault.SuperFault.{SuperFault};
ghost use Rattle.jb_handle.specs.declared.stopped.Stopped.{Stopped};
ghost use Rattle.jb_format.specs.Front.{super_on};
ghost use Rattle.jb_recover.specs.Outcomes.{recovered};
ghost use Rattle.jb_log.specs.Follows.{RecoversWith};
ghost use Rattle.jb_log.specs.Stood.{stood_of};
ghost use Rattle.jb_deck.specs.Calls.{IsRecoveredTo};
ghost use Rattle.jb_deck.specs.Open.{FollowsEntry, open_refusal};
ghost use Rattle.proof_clients.specs.Examples.{wrote};
ghost use Rattle.proof_clients.specs.ExampleCrashes.{HasLog, copied_twice};
ghost use Rattle.proof_clients.specs.ExampleRecovered.{IsClean, AreOld, homes_on};

/// An image of a clean journal, whose log has old blocks alone, recovers with no handle, at the number after that of
/// its superblock.
/// One whose log has an older and a newer copy for home 5 does not recover with no handle, if the home is to hold
/// something else; nor with the older copy; nor at the number after its first transaction; nor as another journal.
///
/// Of `RecoversWith`.
pub fn recovers_with()
    ensures meets { (size count : ℕ) (sb : Superblock) (c : Image) → IsClean size count sb c
        → AreOld (sb.sequence + 1) sb c → FitsFields sb
        → RecoversWith (stood_of sb (sb.sequence + 1) size count (homes_on sb c)) [] c }
    ensures not_lost { (size count next : ℕ) (own sb : Superblock) (older newer : List ℕ) (s : ℕ → List ℕ) (c : Image)
        → HasLog size count sb (copied_twice older newer) c → s 5 ≢ newer
        → RecoversWith (stood_of own next size count s) [] c → ⊥ }
    ensures not_older { (size count next : ℕ) (own sb : Superblock) (older newer : List ℕ) (s : ℕ → List ℕ) (c : Image)
        → HasLog size count sb (copied_twice older newer) c → older ≢ newer
        → RecoversWith (stood_of own next size count s) (wrote older 0 (5 ∷ []) ∷ []) c → ⊥ }
    ensures not_number { (size count : ℕ) (own sb : Superblock) (older newer : List ℕ) (s : ℕ → List ℕ)
        (hs : List Stopped) (c : Image) → HasLog size count sb (copied_twice older newer) c → (sb.start == 0) ≡ false
        → RecoversWith (stood_of own (sb.sequence + 1) size count s) hs c → ⊥ }
    ensures not_journal { (size count next : ℕ) (own sb : Superblock) (s : ℕ → List ℕ) (hs : List Stopped) (c : Image)
        → super_on size count c ≡ Ok sb → own.maxlen ≢ sb.maxlen
        → RecoversWith (stood_of own next size count s) hs c → ⊥ }
{}

/// An image of a clean journal is recovered to no handle, at the number after that of its superblock.
/// One whose log has an older and a newer copy for home 5 is not recovered to no handle, if the home is to hold
/// something else; nor to the older copy alone, or after the newer one. An image that is recovered at a number is not
/// recovered at the next one.
///
/// Of `SinceIsRecovered`, `InterruptedIsRecovered`.
pub fn is_recovered_to()
    ensures meets { (size count : ℕ) (sb : Superblock) (c : Image) → IsClean size count sb c
        → IsRecoveredTo sb (sb.sequence + 1) size count (homes_on sb c) [] c }
    ensures not_lost { (size count next : ℕ) (own sb : Superblock) (older newer : List ℕ) (s : ℕ → List ℕ) (c : Image)
        → HasLog size count sb (copied_twice older newer) c → s 5 ≢ newer
        → IsRecoveredTo own next size count s [] c → ⊥ }
    ensures not_older { (size count next : ℕ) (own sb : Superblock) (older newer : List ℕ) (s : ℕ → List ℕ) (c : Image)
        → HasLog size count sb (copied_twice older newer) c → older ≢ newer
        → IsRecoveredTo own next size count s (wrote older 0 (5 ∷ []) ∷ []) c → ⊥ }
    ensures not_order { (size count next : ℕ) (own sb : Superblock) (older newer : List ℕ) (s : ℕ → List ℕ) (c : Image)
        → HasLog size count sb (copied_twice older newer) c → older ≢ newer
        → IsRecoveredTo own next size count s (wrote newer 0 (5 ∷ []) ∷ wrote older 1 (5 ∷ []) ∷ []) c → ⊥ }
    ensures not_number { (size count next : ℕ) (own : Superblock) (s t : ℕ → List ℕ) (hs more : List Stopped)
        (c : Image) → next + 1 < 2 ^ 32 → IsRecoveredTo own next size count s hs c
        → IsRecoveredTo own (next + 1) size count t more c → ⊥ }
{}

/// While a clean journal with a number left is opened a crash may leave its image as it was.
/// Nothing is left of a journal whose log is not clean, or that has no number left; and no image in which a block
/// before the log has changed, a block of the log has another length, or that recovers to other bytes in home 5.
///
/// Of `FollowsEntry`.
pub fn follows_entry()
    ensures meets { (size count : ℕ) (sb : Superblock) (base : Image) → IsClean size count sb base
        → sb.sequence < 4294967295 → FollowsEntry size count base base }
    ensures not_log { (size count : ℕ) (sb : Superblock) (base c : Image) → super_on size count base ≡ Ok sb
        → sb.start ≡ 4 → FollowsEntry size count base c → ⊥ }
    ensures not_spent { (size count : ℕ) (sb : Superblock) (base c : Image) → super_on size count base ≡ Ok sb
        → sb.sequence ≡ 4294967295 → FollowsEntry size count base c → ⊥ }
    ensures not_before { (size count p : ℕ) (sb : Superblock) (base c : Image) → super_on size count base ≡ Ok sb
        → 1 ≤ p → p < sb.first → block c p ≢ block base p → FollowsEntry size count base c → ⊥ }
    ensures not_length { (size count p : ℕ) (sb : Superblock) (base c : Image) → super_on size count base ≡ Ok sb
        → sb.first ≤ p → p < sb.maxlen → length (block c p) ≢ length (block base p)
        → FollowsEntry size count base c → ⊥ }
    ensures not_home { (size count : ℕ) (sb : Superblock) (base c : Image) → IsClean size count sb base
        → block (recovered size count c) (sb.maxlen + 5) ≢ block base (sb.maxlen + 5)
        → FollowsEntry size count base c → ⊥ }
{}

/// A clean journal with a number left is opened. It is not where it has a log, where its last number is used, or where
/// its superblock is refused.
///
/// Of `RecoveredOpens`.
pub fn opens()
    ensures meets { (size count : ℕ) (sb : Superblock) (c : Image) → IsClean size count sb c
        → sb.sequence < 4294967295 → open_refusal size count c ≡ None }
    ensures not_log { (size count : ℕ) (sb : Superblock) (c : Image) → super_on size count c ≡ Ok sb → sb.start ≡ 4
        → open_refusal size count c ≡ None → ⊥ }
    ensures not_spent { (size count : ℕ) (sb : Superblock) (c : Image) → IsClean size count sb c
        → sb.sequence ≡ 4294967295 → open_refusal size count c ≡ None → ⊥ }
    ensures not_refused { (size count : ℕ) (fault : SuperFault) (c : Image) → super_on size count c ≡ Err fault
        → open_refusal size count c ≡ None → ⊥ }
{}
