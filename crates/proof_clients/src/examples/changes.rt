//! Examples of what the calls of a deck make of its homes, and of what they ask of its disk.
ghost use Rattle.std.specs.Prelude.{◌≡◌, ◌≢◌, ℕ, true, false, List, [], ◌∷◌};
ghost use Rattle.jb_disk.specs.Image.{Image};
ghost use Rattle.jb_disk.specs.Events.{Asked, Flushed, Gave};
ghost use Rattle.jb_disk.specs.File.{UnknownFile, events_of};
ghost use Rattle.jb_image.specs.Files.{as_file};
ghost use Rattle.jb_deck.specs.Changes.{HoldsAfter, fills, settles, tears};
ghost use Rattle.jb_deck.specs.Conduct.{DeckIsWellAsked};
ghost use Rattle.jb_deck.specs.Deck.{DeckKeeps, OpenDeck};
ghost use Rattle.proof_clients.specs.Examples.{wrote};
ghost use Rattle.proof_clients.specs.ExampleChanges.{freed_one, five_blocks, HasHomesAt};

/// Home 1, which held old bytes, holds the new ones after a handle has written them there and another home was filled,
/// and after it was freed and then filled; where the power failed meanwhile, also the old ones.
/// It does not hold the old ones after a handle has written it, or once it was filled; the new ones where a handle
/// wrote them into another home; or what it was filled with, where a handle has written it since.
///
/// Of `CrashHolds`.
pub fn holds_after()
    ensures meets { (old new : List ℕ) → HoldsAfter (settles (wrote new 0 (1 ∷ [])) ∷ fills 2 old ∷ []) 1 old new }
    ensures meets_filled { (old new : List ℕ) → HoldsAfter (settles (freed_one 0 1) ∷ fills 1 new ∷ []) 1 old new }
    ensures meets_torn { (old new : List ℕ) → HoldsAfter (settles (freed_one 0 1) ∷ tears 1 new ∷ []) 1 old old }
    ensures not_lost { (old new : List ℕ) → old ≢ new
        → HoldsAfter (settles (wrote new 0 (1 ∷ [])) ∷ []) 1 old old → ⊥ }
    ensures not_unfilled { (old new : List ℕ) → old ≢ new
        → HoldsAfter (settles (freed_one 0 1) ∷ fills 1 new ∷ []) 1 old old → ⊥ }
    ensures not_other_home { (old new : List ℕ) → old ≢ new
        → HoldsAfter (settles (wrote new 0 (1 ∷ [])) ∷ []) 2 old new → ⊥ }
    ensures not_older { (old new newer : List ℕ) → new ≢ newer
        → HoldsAfter (fills 1 new ∷ settles (wrote newer 0 (1 ∷ [])) ∷ []) 1 old new → ⊥ }
{}

/// A deck whose log begins at block 2 and whose last home is block 3 keeps what is outside: blocks 2 and 3 may change.
/// It has not where block 1 has changed, block 4, or block 0 after the superblock.
///
/// Of `CrashKeeps`.
pub fn keeps()
    ensures meets { (d : OpenDeck Image) (old new : List ℕ) → HasHomesAt d
        → DeckKeeps d (five_blocks 5 1 old old 4) (five_blocks 5 1 new new 4) }
    ensures not_before { (d : OpenDeck Image) → HasHomesAt d
        → DeckKeeps d (five_blocks 5 1 [] [] 4) (five_blocks 5 2 [] [] 4) → ⊥ }
    ensures not_after { (d : OpenDeck Image) → HasHomesAt d
        → DeckKeeps d (five_blocks 5 1 [] [] 4) (five_blocks 5 1 [] [] 7) → ⊥ }
    ensures not_rest { (d : OpenDeck Image) → HasHomesAt d
        → DeckKeeps d (five_blocks 5 1 [] [] 4) (five_blocks 6 1 [] [] 4) → ⊥ }
{}

/// A deck that has written to its file and synced it is asked well, also after a read that failed; and one that is
/// aborted, where the last sync failed.
/// It is not where a sync follows one that failed, where a read follows a write that failed, or where it is not aborted
/// and the last write or the last sync has failed.
///
/// Of `NoneAfterFault`, `NoneAfterAtDesk`.
pub fn well_asked()
    ensures meets { (d : OpenDeck UnknownFile) (bytes : List ℕ) → d.aborted ≡ false
        → events_of d.disk ≡ Flushed true ∷ Gave 0 true bytes ∷ Asked 0 false bytes ∷ []
        → DeckIsWellAsked as_file d }
    ensures meets_aborted { (d : OpenDeck UnknownFile) (bytes : List ℕ) → d.aborted ≡ true
        → events_of d.disk ≡ Flushed false ∷ Gave 0 true bytes ∷ [] → DeckIsWellAsked as_file d }
    ensures not_synced_again { (d : OpenDeck UnknownFile) → events_of d.disk ≡ Flushed true ∷ Flushed false ∷ []
        → DeckIsWellAsked as_file d → ⊥ }
    ensures not_read { (d : OpenDeck UnknownFile) (bytes : List ℕ)
        → events_of d.disk ≡ Asked 0 true bytes ∷ Gave 0 false bytes ∷ [] → DeckIsWellAsked as_file d → ⊥ }
    ensures not_after_write { (d : OpenDeck UnknownFile) (bytes : List ℕ) → d.aborted ≡ false
        → events_of d.disk ≡ Gave 0 false bytes ∷ [] → DeckIsWellAsked as_file d → ⊥ }
    ensures not_after_sync { (d : OpenDeck UnknownFile) → d.aborted ≡ false
        → events_of d.disk ≡ Flushed false ∷ [] → DeckIsWellAsked as_file d → ⊥ }
{}
