//! Examples of what a crash leaves: three groups of one handle each, of which the second one has two homes.
ghost use Rattle.std.specs.Prelude.{◌≡◌, ◌≢◌, ◌+◌, ◌==◌, ℕ, false, List, [], ◌∷◌, None, Some};
ghost use Rattle.jb_disk.specs.Image.{Image};
ghost use Rattle.jb_super.specs.Superblock.{Superblock};
ghost use Rattle.jb_log.specs.Follows.{RecoversWith};
ghost use Rattle.jb_log.specs.Stood.{stood_of};
ghost use Rattle.jb_disk.specs.Image.{block};
ghost use Rattle.jb_super.specs.Sound.{FitsFields};
ghost use Rattle.jb_scan.specs.declared.transaction.Transaction.{Transaction};
ghost use Rattle.jb_recover.specs.Outcomes.{RecoversAs, recovered};
ghost use Rattle.jb_recover.specs.Refusals.{image_refusal};
ghost use Rattle.jb_recover.specs.declared.fault.RecoverFault.{RecoverFault};
ghost use Rattle.proof_clients.specs.ExampleCrashes.{with_new, MayBeLeft, HasLog, copied_twice, copied_and_revoked};

/// While three groups are committed, a crash may leave an image that recovers to the first two of them, at the number
/// that comes after those, whether none of them was settled or both; and one that recovers to none.
/// It leaves none that recovers to the first group where two were settled, to the third without the second, to a half
/// of the second, to the first two with another home changed, or to the first one at the number after none.
pub fn follows_some()
    ensures meets { (own : Superblock) (next size count : ℕ) (old new : List ℕ) (c : Image)
        → RecoversWith (stood_of own (next + 2) size count (with_new (1 ∷ 2 ∷ 3 ∷ []) old new)) [] c
        → MayBeLeft own next size count 0 old new c }
    ensures meets_settled { (own : Superblock) (next size count : ℕ) (old new : List ℕ) (c : Image)
        → RecoversWith (stood_of own (next + 2) size count (with_new (1 ∷ 2 ∷ 3 ∷ []) old new)) [] c
        → MayBeLeft own next size count 2 old new c }
    ensures meets_none { (own : Superblock) (next size count : ℕ) (old new : List ℕ) (c : Image)
        → RecoversWith (stood_of own next size count (with_new [] old new)) [] c
        → MayBeLeft own next size count 0 old new c }
    ensures not_lost { (own : Superblock) (next size count number : ℕ) (old new : List ℕ) (c : Image) → old ≢ new
        → RecoversWith (stood_of own number size count (with_new (1 ∷ []) old new)) [] c
        → MayBeLeft own next size count 2 old new c → ⊥ }
    ensures not_without_second { (own : Superblock) (next size count number : ℕ) (old new : List ℕ) (c : Image)
        → old ≢ new → RecoversWith (stood_of own number size count (with_new (1 ∷ 4 ∷ []) old new)) [] c
        → MayBeLeft own next size count 0 old new c → ⊥ }
    ensures not_half { (own : Superblock) (next size count number : ℕ) (old new : List ℕ) (c : Image) → old ≢ new
        → RecoversWith (stood_of own number size count (with_new (1 ∷ 2 ∷ []) old new)) [] c
        → MayBeLeft own next size count 0 old new c → ⊥ }
    ensures not_other_home { (own : Superblock) (next size count number : ℕ) (old new : List ℕ) (c : Image)
        → old ≢ new → RecoversWith (stood_of own number size count (with_new (1 ∷ 2 ∷ 3 ∷ 7 ∷ []) old new)) [] c
        → MayBeLeft own next size count 0 old new c → ⊥ }
    ensures not_number { (own : Superblock) (next size count : ℕ) (old new : List ℕ) (c : Image) → old ≢ new
        → RecoversWith (stood_of own next size count (with_new (1 ∷ []) old new)) [] c
        → MayBeLeft own next size count 0 old new c → ⊥ }
{}

/// An image with a log recovers as itself does, and so does what recovery makes of it.
/// Where its log has two copies for a home, no image recovers as it does with the older copy in that home; where the
/// only copy is revoked later, none with that copy there, if the home held something else. Nor does one that is
/// refused.
///
/// Of `RecoversAs`.
pub fn recovers_as()
    ensures meets { (size count : ℕ) (base : Image) → RecoversAs size count base base }
    ensures meets_recovered { (size count : ℕ) (sb : Superblock) (ts : List Transaction) (base : Image)
        → HasLog size count sb ts base → (sb.start == 0) ≡ false → FitsFields sb
        → RecoversAs size count base (recovered size count base) }
    ensures not_older { (size count : ℕ) (sb : Superblock) (older newer : List ℕ) (base c : Image) → older ≢ newer
        → HasLog size count sb (copied_twice older newer) base
        → block (recovered size count c) (sb.maxlen + 5) ≡ older → RecoversAs size count base c → ⊥ }
    ensures not_revoked { (size count : ℕ) (sb : Superblock) (bytes : List ℕ) (base c : Image)
        → block base (sb.maxlen + 5) ≢ bytes → HasLog size count sb (copied_and_revoked bytes) base
        → block (recovered size count c) (sb.maxlen + 5) ≡ bytes → RecoversAs size count base c → ⊥ }
    ensures not_refused { (size count : ℕ) (sb : Superblock) (ts : List Transaction) (fault : RecoverFault)
        (base c : Image) → HasLog size count sb ts base → image_refusal size count c ≡ Some fault
        → RecoversAs size count base c → ⊥ }
{}
