/// Which journals have a text, and which lines of it are written: those that each of these lets stay.
#[derive(Clone, Copy, Debug, PartialEq, Eq)]
pub struct DumpFilter {
    /// Where there is one, the lines alone that speak of this home block: its copies, and the descriptor blocks and
    /// revoke blocks that name it, which say the number of the transaction.
    pub home: Option<u64>,
    /// Where there is a number, no line of a transaction before the last ones, this many of them.
    pub last: Option<u64>,
    /// Whether the superblock alone is shown, whatever the lines are that the two before let stay: that of any journal
    /// of version 2, also of one that is refused.
    pub superblock: bool,
    /// Whether in place of all lines those of the journal at a glance are written. The others change nothing then.
    pub summary: bool,
    /// Whether after the lines of the journal at a glance its log is drawn, and the homes that are written most.
    pub drawn: bool,
    /// Whether a journal with checksums is taken, too, and its blocks are judged by them.
    pub checksums: bool,
}

impl DumpFilter {
    ghost use Rattle.std.specs.Prelude.{◌≡◌, ◌||◌};
    ghost use Rattle.jb_dump.specs.Choices.{every_line, takes_end};
    ghost use Rattle.jb_dump.specs.Shown.{is_shown};

    /// Every line, of a journal without checksums.
    pub fn every_line() -> DumpFilter
        ensures value { result ≡ every_line }
    {
        DumpFilter {
            home: None,
            last: None,
            superblock: false,
            summary: false,
            drawn: false,
            checksums: false,
        }
    }

    /// Whether the superblock alone is shown.
    pub(crate) fn is_shown(self) -> bool
        ensures { result ≡ is_shown self }
    {
        self.superblock && !self.summary
    }

    /// Whether the last line is written: it speaks of no home block, and is not the superblock's.
    pub(crate) fn takes_end(self) -> bool
        ensures { result ≡ takes_end self }
    {
        self.home.is_none() && !self.is_head()
    }

    /// Whether no line after the superblock's is written.
    pub(crate) fn is_head(self) -> bool
        ensures { result ≡ (self.superblock || self.summary) }
    {
        self.superblock || self.summary
    }
}
