//! Examples of what a crash leaves of a life of a journal that was to commit two handles.
ghost use Rattle.std.specs.Prelude.{◌≡◌, ℕ, Bool, true, [], ◌∷◌};
ghost use Rattle.jb_disk.specs.Image.{Image};
ghost use Rattle.jb_deck.specs.Changes.{fills, settles};
ghost use Rattle.proof_clients.specs.Examples.{wrote};
ghost use Rattle.proof_clients.specs.ExampleCalls.{two_handled};
ghost use Rattle.proof_clients.specs.Lives.{IsPartOfLife, LeftByLife};
ghost use Rattle.jb_super.specs.Superblock.{Superblock};

/// A life may have committed neither of the two.
/// Where both were reported as committed, it has not left the first one alone. It has left the second one alone in no
/// case, nor a handle that was none of them, nor a home that was filled.
///
/// Of `LeftByLife`.
pub fn left_by_life()
    ensures meets { (own : Superblock) (count : ℕ) → IsPartOfLife own count two_handled [] 0 }
    ensures not_lost { (size count : ℕ) (base c : Image) → (left : LeftByLife size count base two_handled true c)
        → left.changes ≡ settles (wrote [] 0 (1 ∷ [])) ∷ [] → ⊥ }
    ensures not_second_alone { (size count : ℕ) (base c : Image) (committed : Bool)
        → (left : LeftByLife size count base two_handled committed c)
        → left.changes ≡ settles (wrote [] 1 (2 ∷ [])) ∷ [] → ⊥ }
    ensures not_another { (size count : ℕ) (base c : Image) (committed : Bool)
        → (left : LeftByLife size count base two_handled committed c)
        → left.changes ≡ settles (wrote [] 7 (1 ∷ [])) ∷ [] → ⊥ }
    ensures not_filled { (size count : ℕ) (base c : Image) (committed : Bool)
        → (left : LeftByLife size count base two_handled committed c)
        → left.changes ≡ fills 1 [] ∷ [] → ⊥ }
{}
