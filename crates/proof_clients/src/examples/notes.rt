//! Examples of what a client knows by its notes, and of what it may have read.
ghost use Rattle.std.specs.Prelude.{◌≡◌, ◌≢◌, ℕ, List, []};
ghost use Rattle.jb_journal.specs.Notes.{Note, IsInNotes, ReadsAs};
ghost use Rattle.proof_clients.specs.ExampleNotes.{IsSure, two_notes, known_of, nothing_known, first_known};

use jb_book::Origin;

/// By the second of two notes the handle 0 is in the transaction 7, and the handle 2 in the transaction 8.
/// In the notes is no other number of a handle, and not the handle 3; nor any handle where nothing was noted.
///
/// Of `IsInNotes`.
pub fn is_in_notes()
    ensures meets_first { IsInNotes two_notes 0 7 }
    ensures meets { IsInNotes two_notes 2 8 }
    ensures not_number { IsInNotes two_notes 2 7 → ⊥ }
    ensures not_committed { (number : ℕ) → IsInNotes two_notes 3 number → ⊥ }
    ensures not_noted { (notes : List Note) (ticket number : ℕ) → notes ≡ [] → IsInNotes notes ticket number → ⊥ }
{}

/// One handle stopped, which has written home 1. Once it is known to be committed, a read of the home gives its bytes;
/// where it is not, it may also give what the home held at the start. A read of home 2 gives what that held.
/// Where it is known to be committed no read gives other bytes, or those of the start, and none gives of home 2 what
/// that did not hold, if the start is known and the disk sure to be honest. Nobody reads who knows more handles to be
/// committed than have stopped.
///
/// Of `ReadsAs`.
pub fn reads_as<H: Origin>()
    ensures meets { ReadsAs H.begun IsSure first_known first_known 1 [] }
    ensures meets_early { ReadsAs H.begun IsSure nothing_known first_known 1 (H.begun.homes 1) }
    ensures meets_other { ReadsAs H.begun IsSure first_known first_known 2 (H.begun.homes 2) }
    ensures not_other_bytes { (found : List ℕ) → H.begun.is_known → found ≢ []
        → ReadsAs H.begun IsSure first_known first_known 1 found → ⊥ }
    ensures not_early { H.begun.is_known → H.begun.homes 1 ≢ []
        → ReadsAs H.begun IsSure first_known first_known 1 (H.begun.homes 1) → ⊥ }
    ensures not_other_home { H.begun.is_known → H.begun.homes 2 ≢ []
        → ReadsAs H.begun IsSure first_known first_known 2 [] → ⊥ }
    ensures not_stopped { (found : List ℕ)
        → ReadsAs H.begun IsSure first_known (known_of [] []) 1 found → ⊥ }
{}
