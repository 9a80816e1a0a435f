//! A journal is opened for a desk.
ghost use Rattle.std.specs.Prelude.{◌≡◌, [], false, IfOk, IfErr};
ghost use Rattle.jb_deck.specs.Deck.{IsShapeOf};
ghost use Rattle.jb_handle.specs.declared.shape.Shape.{Shape as ShapeValue};
ghost use Rattle.jb_book.specs.OpenDisk.{NotOpened, WasOpenedAs};
ghost use Rattle.jb_book.specs.Since.{IsBegunOn, IsSince};

use crate::Origin;
use jb_deck::{Deck, OpenFault};
use jb_disk::Disk;
use std::alloc::Global;

/// Opens the journal on the disk of a start, for a desk over it ([`Deck::open`]).
///
/// # Errors
///
/// Those of [`Deck::open`], with the disk.
pub fn open<D: Disk, H: Origin>(alloc: Global, disk: D) -> Result<Deck<D>, (D, OpenFault)>
    requires { IsBegunOn D.Disk H.begun disk }
    ensures opened { IfOk result (λ deck. (shape : ShapeValue) → IsShapeOf deck.log.sb (D.count deck.disk) shape
        → WasOpenedAs D.Disk disk shape deck) }
    ensures new { IfOk result (λ deck. (deck.trail ≡ []) × (deck.aborted ≡ false)) }
    /// A journal that is opened on the disk of a start is as it must be since then.
    ensures since { IfOk result (IsSince D.Disk H.begun) }
    /// A disk that is not opened is refused for one of the reasons of jb_deck, and comes back.
    ensures refused { IfErr result (λ back. NotOpened D.Disk disk back.0 back.1) }
{
    Deck::open(alloc, disk)
}
