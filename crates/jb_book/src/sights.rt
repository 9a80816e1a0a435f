//! What is seen of the two histories of a desk.
ghost use Rattle.std.specs.Prelude.{◌≡◌};
ghost use Rattle.jb_board.specs.HistoryRule.{with_last};

use crate::origin::{Marks, Origin};
use jb_board::{Appender, History, Prefix};
use jb_deck::Deck;
use jb_disk::Disk;
use jb_handle::Words;

/// The two histories of a desk: the words of each handle that stopped, at its ticket, and its marks, which are the
/// journal as it was when the desk was started, after each round of a committer and after each read. Neither has bytes
/// for what is in it.
#[derive(Drop)]
pub struct Histories<D: Disk, H: Origin> {
    /// The handles that stopped.
    pub stops: History<Words, H>,
    /// The marks.
    pub marks: History<Deck<D>, Marks<H>>,
}

/// What was seen of the two histories of a desk: a prefix of each.
#[derive(Drop)]
pub struct Sights<D: Disk, H: Origin> {
    /// Of the handles that stopped.
    pub stops: Prefix<Words, H>,
    /// Of the marks.
    pub marks: Prefix<Deck<D>, Marks<H>>,
}

impl<D: Disk, H: Origin> Histories<D, H> {
    ghost use Rattle.jb_book.specs.Marks.{SeesMore, SeesSame};

    /// Marks a journal as it is now, and sees all marks.
    pub fn mark(
        &self,
        appender: &mut Appender<Deck<D>, Marks<H>>,
        deck: &Deck<D>,
    ) -> Prefix<Deck<D>, Marks<H>>
        ensures whole { appender.new ≡ with_last appender.old deck.now }
        ensures prefix { result ≡ appender.new }
    {
        let mut made = self.marks.enter();
        self.marks.add(appender, &mut made, deck);
        self.marks.show(appender)
    }

    /// Sees what another has seen, too.
    pub fn learn(&self, seen: &mut Sights<D, H>, other: &mut Sights<D, H>)
        ensures own { SeesMore seen.old seen.new }
        ensures other { SeesMore other.old seen.new }
        ensures kept { SeesSame other.old other.new }
    {
        self.stops.learn(&mut seen.stops, &mut other.stops);
        self.marks.learn(&mut seen.marks, &mut other.marks);
    }
}
