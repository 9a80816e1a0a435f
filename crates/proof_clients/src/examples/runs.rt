//! Examples of how a desk ends whose log is known, and of what a run leaves.
ghost use Rattle.std.specs.Prelude.{◌≡◌, ◌≢◌, ◌+◌, ℕ, true, List, [], ◌∷◌, Some};
ghost use Rattle.std.proofs.Common.{Vec, Global};
ghost use Rattle.jb_disk.specs.File.{UnknownFile};
ghost use Rattle.jb_disk.specs.Image.{Image, block};
ghost use Rattle.jb_handle.specs.declared.shape.Shape.{Shape};
ghost use Rattle.jb_handle.specs.Word.{WordMap};
ghost use Rattle.jb_image.specs.declared.image_geometry.ImageGeometry.{ImageGeometry};
ghost use Rattle.jb_recover.specs.Outcomes.{recovered};
ghost use Rattle.jb_deck.specs.Deck.{OpenDeck};
ghost use Rattle.jb_book.specs.AtHome.{EndsUsing};
ghost use Rattle.jb_book.specs.Origin.{unknown};
ghost use Rattle.jb_book.specs.SinceMark.{TicketStays};
ghost use Rattle.jb_desk.specs.Ends.{is_shut};
ghost use Rattle.jb_journal.specs.Run.{RanOn};
ghost use Rattle.jb_journal.specs.RunImage.{RanInImage};
ghost use Rattle.jb_journal.specs.declared.options.Options.{Options};
ghost use Rattle.jb_journal.specs.declared.ran.Ran.{Ran};
ghost use Rattle.proof_clients.specs.Examples.{six};
ghost use Rattle.proof_clients.specs.ExampleMarks.{first, second, entry, by_two_seats, idle_stops, idle_group};
ghost use Rattle.proof_clients.specs.CutRun.{IsCutRun};
ghost use Rattle.proof_clients.specs.ExampleNotes.{HasStopped, HasStoppedFrom};
ghost use Rattle.proof_clients.specs.TwoWorkers.{TwoHaveWorked};
ghost use Rattle.proof_clients.specs.declared.telling.Found.{Found};
ghost use Rattle.proof_clients.specs.declared.telling.Found.TheVariants.{Wrote, Read};

use jb_book::Origin;
use jb_disk::{Disk, FuseDisk};

/// A desk may end with three handles of which two are settled, and with the blocks of its log in use.
/// Where all three are settled, the log is empty, the start known and the disk honest, no desk ends whose disk holds in
/// home 1 other bytes than the first one wrote, or in home 4, which none has written, other bytes than at the start.
///
/// Of `EndsUsing`.
pub fn ends_using<D: Disk, H: Origin>()
    ensures meets { (d : OpenDeck D) (bounds : Vec ℕ Global) → bounds.items ≡ (0 ∷ 2 ∷ [])
        → EndsUsing D.Disk unknown idle_stops 3 six d.disk (idle_group ∷ []) [] [] (Some d.log.live) }
    ensures not_used { (shape : Shape) (disk : D) (known : List WordMap) (marks : List (OpenDeck D))
        (used : ℕ) → (ends : EndsUsing D.Disk H.begun by_two_seats 3 shape disk (entry 7 0 3 ∷ []) known marks
        (Some used)) → used ≡ ends.marked.ends.deck.log.live + 1 → ⊥ }
    ensures not_home { (shape : Shape) (disk : D) (known : List WordMap) (marks : List (OpenDeck D))
        → H.begun.is_known → D.honest disk → block (D.newest disk) (H.begun.own.maxlen + 1) ≢ []
        → EndsUsing D.Disk H.begun by_two_seats 3 shape disk (entry 7 0 3 ∷ []) known marks (Some 0) → ⊥ }
    ensures not_other_home { (shape : Shape) (disk : D) (known : List WordMap) (marks : List (OpenDeck D))
        → H.begun.is_known → D.honest disk → block (D.newest disk) (H.begun.own.maxlen + 4) ≢ H.begun.homes 4
        → EndsUsing D.Disk H.begun by_two_seats 3 shape disk (entry 7 0 3 ∷ []) known marks (Some 0) → ⊥ }
{}

/// No run of two workers, each of whom has stopped one handle, has one answer alone, or reports three handles, or three
/// that are settled. In no run have both stopped the same handle.
///
/// Of `RanOn`.
pub fn ran_on<D: Disk, H: Origin>()
    ensures not_answers { (disk : D) (ran : Ran ℕ D) → ran.answers.items ≡ 5 ∷ []
        → RanOn D.Disk disk H.begun (HasStopped (((0, first) ∷ []) ∷ ((1, second) ∷ []) ∷ [])) 2 ran → ⊥ }
    ensures not_handles { (disk : D) (ran : Ran ℕ D) → ran.handles ≡ 3
        → RanOn D.Disk disk H.begun (HasStopped (((0, first) ∷ []) ∷ ((1, second) ∷ []) ∷ [])) 2 ran → ⊥ }
    ensures not_settled { (disk : D) (ran : Ran ℕ D) → ran.trail.items ≡ entry 7 0 3 ∷ []
        → RanOn D.Disk disk H.begun (HasStopped (((0, first) ∷ []) ∷ ((1, second) ∷ []) ∷ [])) 2 ran → ⊥ }
    ensures not_twice { (disk : D) (ran : Ran ℕ D)
        → RanOn D.Disk disk H.begun (HasStopped (((0, first) ∷ []) ∷ ((0, first) ∷ []) ∷ [])) 2 ran → ⊥ }
{}

/// Where the first worker has written and the second has read, on a disk that is honest as it is given back, the second
/// has not read other bytes, and was not told of another ticket.
///
/// Of `TwoHaveWorked`.
pub fn two_have_worked<D: Disk>()
    ensures not_other_bytes { (bytes other : List ℕ) (ticket : ℕ) (disk : D) (ran : Ran Found D) → other ≢ bytes
        → D.honest ran.disk → ran.answers.items ≡ Wrote ticket ∷ Read ticket other ∷ []
        → TwoHaveWorked D.Disk bytes disk ran → ⊥ }
    ensures not_other_ticket { (bytes : List ℕ) (ticket : ℕ) (disk : D) (ran : Ran Found D)
        → D.honest ran.disk → ran.answers.items ≡ Wrote ticket ∷ Read (ticket + 1) bytes ∷ []
        → TwoHaveWorked D.Disk bytes disk ran → ⊥ }
{}

/// No run in the file of an image has no answer where it had two workers, or tells of more settled handles than
/// stopped.
/// None whose committer ended as the desk was over has left a handle that is not settled.
///
/// Of `RanInImage`.
pub fn ran_in_image()
    ensures not_answers { (geometry : ImageGeometry) (options : Options) (left : Ran ℕ UnknownFile)
        → options.workers ≡ 2 → left.answers.items ≡ [] → RanInImage geometry options (HasStoppedFrom []) left → ⊥ }
    ensures not_more { (geometry : ImageGeometry) (options : Options) (left : Ran ℕ UnknownFile)
        → left.settled ≡ left.handles + 1 → RanInImage geometry options (HasStoppedFrom []) left → ⊥ }
    ensures not_left { (geometry : ImageGeometry) (options : Options) (left : Ran ℕ UnknownFile)
        → is_shut left.commit ≡ true → left.handles ≡ left.settled + 1
        → RanInImage geometry options (HasStoppedFrom []) left → ⊥ }
{}

/// No handle stays that no mark has. Of three handles the last one does not stay where a crash now, on an honest disk,
/// leaves an image whose home 1, once it is recovered, has other bytes than the first one wrote.
///
/// Of `ShownStays`.
pub fn ticket_stays<D: Disk, H: Origin>()
    ensures not_unmarked { (disk : D) (ticket : ℕ) → TicketStays D.Disk H.begun by_two_seats disk (entry 7 0 3 ∷ []) []
        ticket → ⊥ }
    ensures not_lost { (disk : D) (marks : List (OpenDeck D)) (c : Image) → D.honest disk → D.may_leave disk c
        → block (recovered H.begun.size H.begun.count c) (H.begun.own.maxlen + 1) ≢ []
        → TicketStays D.Disk H.begun by_two_seats disk (entry 7 0 3 ∷ []) marks 2 → ⊥ }
{}

/// No run of two workers that was cut short has no answer, or reports three handles where each of them has stopped one.
///
/// Of `IsCutRun`.
pub fn is_cut_run<D: Disk>()
    ensures not_answers { (disk : D) (ran : Ran ℕ D) → ran.answers.items ≡ []
        → IsCutRun ⟦<FuseDisk<D> as Disk>⟧ D.Disk disk (HasStoppedFrom []) 2 ran → ⊥ }
    ensures not_handles { (disk : D) (ran : Ran ℕ D) → ran.handles ≡ 3
        → IsCutRun ⟦<FuseDisk<D> as Disk>⟧ D.Disk disk
        (HasStoppedFrom (((0, first) ∷ []) ∷ ((1, second) ∷ []) ∷ [])) 2 ran → ⊥ }
{}
