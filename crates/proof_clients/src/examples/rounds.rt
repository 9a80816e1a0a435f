//! Examples of what is said of a round of a committer.
ghost use Rattle.std.specs.Prelude.{◌≡◌, ℕ, [], ◌∷◌, Option, Some, None, Ok};
ghost use Rattle.jb_plan.specs.Batch.{Gathered};
ghost use Rattle.jb_book.specs.Origin.{unknown};
ghost use Rattle.jb_deck.specs.Deck.{OpenDeck};
ghost use Rattle.jb_deck.specs.Done.{entries_of, first_ticket};
ghost use Rattle.jb_deck.specs.declared.done.Done.{Done};
ghost use Rattle.jb_desk.specs.Journal.{CutsRound};
ghost use Rattle.jb_desk.specs.declared.committer.Round.TheVariants.{Committed};
ghost use Rattle.proof_clients.specs.Examples.{batch, six};
ghost use Rattle.proof_clients.specs.ExampleCalls.{entry_of};

use jb_book::Origin;
use jb_disk::Disk;

/// A round may have committed one handle that has changed nothing, as a transaction of a commit block alone.
/// No round has committed without a group; nor, of the three handles that its committer held, with the greedy cut; nor
/// from another ticket on than theirs, nor with a number that is used twice. Where it held none, it has not left out
/// the last of the handles that were seen.
///
/// Of `CutsRound`.
pub fn cuts_round<D: Disk, H: Origin>()
    ensures meets { (d : OpenDeck D) (done : Done) → first_ticket done ≡ 0 → entries_of done ≡ entry_of 7 0 1 1 ∷ []
        → CutsRound D.Disk unknown 1 None (Ok (Committed done)) }
    ensures not_empty { (seen : ℕ) (held : Option Gathered) (done : Done) → entries_of done ≡ []
        → CutsRound D.Disk H.begun seen held (Ok (Committed done)) → ⊥ }
    ensures not_greedy { (seen more fewer : ℕ) (done : Done)
        → entries_of done ≡ entry_of 7 0 2 more ∷ entry_of 8 2 3 fewer ∷ []
        → CutsRound D.Disk H.begun seen (Some (batch six)) (Ok (Committed done)) → ⊥ }
    ensures not_later { (seen : ℕ) (done : Done) → first_ticket done ≡ 5
        → CutsRound D.Disk H.begun seen (Some (batch six)) (Ok (Committed done)) → ⊥ }
    ensures not_number { (seen one two : ℕ) (held : Option Gathered) (done : Done)
        → entries_of done ≡ entry_of 7 0 1 one ∷ entry_of 7 1 3 two ∷ []
        → CutsRound D.Disk H.begun seen held (Ok (Committed done)) → ⊥ }
    ensures not_last { (one two : ℕ) (done : Done)
        → entries_of done ≡ entry_of 7 0 1 one ∷ entry_of 8 1 2 two ∷ []
        → CutsRound D.Disk H.begun 3 None (Ok (Committed done)) → ⊥ }
{}
