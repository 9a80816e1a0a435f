//! Examples of how a desk ends: what its clause says of the handles that stopped and of those that are settled.
ghost use Rattle.std.specs.Prelude.{◌≡◌, ◌+◌, ℕ, false, List, [], ◌∷◌, length, take};
ghost use Rattle.jb_handle.specs.declared.shape.Shape.{Shape};
ghost use Rattle.jb_handle.specs.Word.{WordMap};
ghost use Rattle.jb_handle.specs.declared.stopped.Stopped.{Stopped};
ghost use Rattle.jb_disk.specs.Image.{Image};
ghost use Rattle.jb_deck.specs.Calls.{IsRecoveredTo};
ghost use Rattle.jb_deck.specs.Deck.{OpenDeck};
ghost use Rattle.jb_deck.specs.declared.done.Entry.{Entry};
ghost use Rattle.std.proofs.Common.{Vec, Global};
ghost use Rattle.jb_book.specs.Origin.{unknown};
ghost use Rattle.jb_book.specs.Since.{AreGroups, HasFirst};
ghost use Rattle.jb_book.specs.History.{CameAbout};
ghost use Rattle.jb_book.specs.SinceMark.{EndsMarked};
ghost use Rattle.proof_clients.specs.ExampleMarks.{first, second, third, entry, by_two_seats};
ghost use Rattle.proof_clients.specs.ExampleMarks.{idle_stops, idle_group, two_entries};
ghost use Rattle.proof_clients.specs.Examples.{six};

use jb_book::Origin;
use jb_disk::Disk;

/// A desk may end with three handles of which two are settled, as one transaction.
/// No desk ends so: the same handle stands for two seats; only two of three handles stand for a seat; the history that
/// was seen has other words at a ticket; four handles are settled of the three that stopped; the numbers of the
/// transactions leave one out.
pub fn ends_marked<D: Disk, H: Origin>()
    ensures meets { (d : OpenDeck D) (bounds : Vec ℕ Global) → bounds.items ≡ (0 ∷ 2 ∷ [])
        → EndsMarked D.Disk unknown idle_stops 3 six d.disk (idle_group ∷ []) [] [] }
    ensures not_twice { (handles : ℕ) (shape : Shape) (disk : D) (trail : List Entry) (known : List WordMap)
        (marks : List (OpenDeck D))
        → EndsMarked D.Disk H.begun (((0, first) ∷ []) ∷ ((0, first) ∷ []) ∷ []) handles shape disk trail known marks
        → ⊥ }
    ensures not_missing { (shape : Shape) (disk : D) (trail : List Entry) (known : List WordMap)
        (marks : List (OpenDeck D))
        → EndsMarked D.Disk H.begun (((0, first) ∷ []) ∷ ((1, second) ∷ []) ∷ []) 3 shape disk trail known marks → ⊥ }
    ensures not_other_words { (shape : Shape) (disk : D) (trail : List Entry) (marks : List (OpenDeck D))
        → EndsMarked D.Disk H.begun by_two_seats 3 shape disk trail (third ∷ []) marks → ⊥ }
    ensures not_settled { (shape : Shape) (disk : D) (known : List WordMap) (marks : List (OpenDeck D))
        → EndsMarked D.Disk H.begun by_two_seats 3 shape disk (entry 7 0 4 ∷ []) known marks → ⊥ }
    ensures not_numbered { (shape : Shape) (disk : D) (known : List WordMap) (marks : List (OpenDeck D))
        → EndsMarked D.Disk H.begun by_two_seats 3 shape disk (entry 7 0 1 ∷ entry 9 1 3 ∷ []) known marks → ⊥ }
{}

/// By the machine of handles three handles may stop of which two are settled, as one transaction.
/// No stops came about so: the same handle stands for two seats.
pub fn came_about<D: Disk, H: Origin>()
    ensures meets { (d : OpenDeck D) (bounds : Vec ℕ Global) → bounds.items ≡ (0 ∷ 2 ∷ [])
        → CameAbout D.Disk unknown idle_stops six d.disk (idle_group ∷ []) }
    ensures not_twice { (shape : Shape) (disk : D) (trail : List Entry)
        → CameAbout D.Disk H.begun (((0, first) ∷ []) ∷ ((0, first) ∷ []) ∷ []) shape disk trail → ⊥ }
{}

/// Of three handles of which the first is settled, and then the other two in one transaction, a cut has these two
/// groups, also once the first entry was taken from the trail; and where the first handle was settled a crash may leave
/// it alone.
/// No cut of them divides the second transaction or joins both, and in a journal that has not failed none goes on after
/// them. No crash leaves the first two handles, or all at the number that comes after one transaction.
pub fn ends_between<H: Origin>()
    ensures meets { AreGroups false two_entries (0 ∷ 1 ∷ 3 ∷ []) }
    ensures meets_taken { AreGroups false (entry 8 1 3 ∷ []) (0 ∷ 1 ∷ 3 ∷ []) }
    ensures meets_left { (given : List Stopped) (c : Image) → length given ≡ 3
        → IsRecoveredTo H.begun.own (H.begun.own.sequence + 1 + 1) H.begun.size H.begun.count
        H.begun.homes (take 1 given) c
        → HasFirst H.begun given (0 ∷ 1 ∷ 3 ∷ []) 1 c }
    ensures not_divided { AreGroups false two_entries (0 ∷ 1 ∷ 2 ∷ 3 ∷ []) → ⊥ }
    ensures not_joined { AreGroups false two_entries (0 ∷ 3 ∷ []) → ⊥ }
    ensures not_further { AreGroups false two_entries (0 ∷ 1 ∷ 3 ∷ 4 ∷ []) → ⊥ }
    ensures not_within { (given : List Stopped) (least : ℕ) (c : Image)
        → (left : HasFirst H.begun given (0 ∷ 1 ∷ 3 ∷ []) least c) → left.many ≡ 2 → ⊥ }
    ensures not_number { (given : List Stopped) (least : ℕ) (c : Image)
        → (left : HasFirst H.begun given (0 ∷ 1 ∷ 3 ∷ []) least c) → left.many ≡ 3 → left.groups ≡ 1 → ⊥ }
{}
