ghost use Rattle.std.specs.Prelude.{◌≡◌, ◌↔◌, IsTrue};

use jb_deck::Entry;

/// Whether two lists of entries are the same.
pub fn are_same(these: &[Entry], those: &[Entry]) -> bool
    ensures { IsTrue result ↔ (these.now ≡ those.now) }
{
    these == those
}
