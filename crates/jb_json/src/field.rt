/// A field of a report: its name in JSON, and what stands under it.
#[derive(Clone, Copy)]
pub enum Field<'a> {
    /// A number, which a line has after the name.
    Counted(&'a str, u64),
    /// A number, which a line has alone.
    Bare(&'a str, u64),
    /// A word in parts, which a line has alone.
    Worded(&'a str, &'a [&'a str]),
    /// A word, which a line has alone where there is one; in JSON else `null`.
    Named(&'a str, Option<&'a str>),
    /// Whether something holds: a line has the name where it does, and else nothing.
    Marked(&'a str, bool),
    /// Whether something holds: a line has the first word where it does, and else the second.
    Chosen(&'a str, bool, &'a str, &'a str),
    /// Numbers, each of which has a line of its own, after this word; in JSON an array.
    Listed(&'a str, &'a str, &'a [u64]),
    /// Numbers of which some are missing, and of which a line has nothing; in JSON an array with `null` for those.
    Sparse(&'a str, &'a [Option<u64>]),
}

impl<'a> Field<'a> {
    ghost use Rattle.std.specs.Prelude.{◌≡◌};
    ghost use Rattle.jb_json.specs.Facts.{fact_of};
    ghost use Rattle.jb_json.specs.Objects.{fact_name};

    /// Its name in JSON.
    pub(crate) fn name(self) -> &'a str
        ensures { result.now ≡ fact_name (fact_of self.entry) }
    {
        match self {
            Field::Counted(name, _) => name,
            Field::Bare(name, _) => name,
            Field::Worded(name, _) => name,
            Field::Named(name, _) => name,
            Field::Marked(name, _) => name,
            Field::Chosen(name, _, _, _) => name,
            Field::Listed(name, _, _) => name,
            Field::Sparse(name, _) => name,
        }
    }
}
