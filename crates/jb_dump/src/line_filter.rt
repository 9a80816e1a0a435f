//! Lines that are put where a filter takes them.
ghost use Rattle.std.specs.Prelude.{◌≡◌, ◌&&◌, ◌||◌, map, nat_eq};
ghost use Rattle.std.specs.List.{list_any};
ghost use Rattle.jb_dump.specs.Choices.{OfTransaction, is_head_or_any, is_named, is_recent, takes_line};
ghost use Rattle.jb_dump.specs.Lines.{home_in};

use crate::dump_filter::DumpFilter;
use jb_scan::Block;
use jb_tags::Tag;

/// Which lines of one transaction are put.
#[derive(Clone, Copy)]
pub(crate) struct LineFilter {
    /// The filter.
    pub filter: DumpFilter,
    /// How many transactions there are, where the filter asks for the last ones.
    pub total: usize,
    /// The index of the transaction.
    pub index: usize,
}

impl LineFilter {
    /// That of the transaction of an index, where there are this many transactions.
    pub(crate) fn of(filter: DumpFilter, total: usize, index: usize) -> LineFilter
        ensures { result ≡ record { filter = filter; total = total; index = index } }
    {
        LineFilter {
            filter,
            total,
            index,
        }
    }

    /// Whether a line that speaks of these home blocks is put.
    pub(crate) fn takes(self, homes: &[u64]) -> bool
        ensures { result ≡ takes_line self.filter self.total (OfTransaction self.index) homes.now }
    {
        is_named(self.filter.home, homes) && self.takes_transaction()
    }

    /// Whether the line of a descriptor block with these tags is put.
    pub(crate) fn takes_run(self, copies: &[(Tag, Block)]) -> bool
        ensures { result ≡ takes_line self.filter self.total (OfTransaction self.index) (map home_in copies.now) }
    {
        are_named(self.filter.home, copies) && self.takes_transaction()
    }

    /// Whether a line of the transaction is put that speaks of every home block.
    fn takes_transaction(self) -> bool
        ensures { result ≡ (is_recent (OfTransaction self.index) self.filter.last self.total
            && is_head_or_any (OfTransaction self.index) (self.filter.superblock || self.filter.summary)) }
    {
        self.is_recent() && !self.filter.is_head()
    }

    /// Whether the transaction is one of the last that are asked for.
    fn is_recent(self) -> bool
        ensures { result ≡ is_recent (OfTransaction self.index) self.filter.last self.total }
    {
        match self.filter.last {
            Some(last) => (self.total as u64) <= (self.index as u64).saturating_add(last),
            None => true,
        }
    }
}

/// Whether one of these home blocks is the one that is asked for, where one is.
fn is_named(home: Option<u64>, homes: &[u64]) -> bool
    ensures { result ≡ is_named home homes.now }
{
    match home {
        Some(home) => homes.contains(&home),
        None => true,
    }
}

/// Whether a copy is of the home block that is asked for, where one is.
fn are_named(home: Option<u64>, copies: &[(Tag, Block)]) -> bool
    ensures { result ≡ is_named home (map home_in copies.now) }
{
    match home {
        Some(home) => is_among(home, copies),
        None => true,
    }
}

/// Whether a copy is of this home block.
fn is_among(home: u64, copies: &[(Tag, Block)]) -> bool
    ensures { result ≡ list_any (λ h. nat_eq h home) (map home_in copies.now) }
{
    for copy in copies {
        if copy.0.home == home {
            return true;
        }
    }
    false
}
