//! What the option for checksums changes, as the contract of a function that does nothing.

ghost use Rattle.jb_dump.specs.Laws.{PlainIsDumpedAlike};

/// A journal without the features of checksums is dumped alike with [`DumpFilter::checksums`] and without: it has the
/// same text, or the same fault.
///
/// [`DumpFilter::checksums`]: crate::DumpFilter::checksums
pub fn plain_is_dumped_alike()
    /// A journal without checksums is dumped alike with the option for them and without.
    ensures { PlainIsDumpedAlike }
{}
