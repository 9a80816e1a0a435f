ghost use Rattle.std.specs.Prelude.{◌≡◌};
ghost use Rattle.jb_args.specs.Advice.{option_range, option_text};

use crate::diagnostics;

/// An option, or a word, that may be bad.
#[derive(Clone, Copy, Debug)]
pub enum OptionName {
    /// `--bs` of `format`.
    Bs,
    /// `--journal` of `format`.
    Journal,
    /// `--max` of `format`.
    Max,
    /// `--uuid` of `format`.
    Uuid,
    /// `--homes` of `format`, where the image would be too long.
    Homes,
    /// `--extents` of a command over an image.
    Extents,
    /// `--list` of `recover`.
    List,
    /// `--ring` of `dump`.
    Ring,
    /// `--threads` of `load`.
    Threads,
    /// The word of `completions`.
    Shell,
}

/// A `match` of an option with its name in each arm.
macro_rules! name_in {
    (
        $of:ident
        lines {
            $($hint:ident, $status:literal, $begins:literal, $rest:literal,
              $advice:literal $($more:literal)* $(: $beside:literal)?;)*
        }
        options { $($option:ident, $name:literal, $values:literal $($rest_values:literal)*;)* }
    ) => {
        match $of { $(OptionName::$option => $name),* }
    };
}

/// A `match` of an option with what it may be in each arm.
macro_rules! values_in {
    (
        $of:ident
        lines {
            $($hint:ident, $status:literal, $begins:literal, $rest:literal,
              $advice:literal $($more:literal)* $(: $beside:literal)?;)*
        }
        options { $($option:ident, $name:literal, $values:literal $($rest_values:literal)*;)* }
    ) => {
        match $of { $(OptionName::$option => concat!($values $(, $rest_values)*)),* }
    };
}

impl OptionName {
    /// Its name, of an option with the two hyphens.
    #[tactic(auto, unfolding(crate::specs::Advice::option_text))]
    pub fn name(self) -> &'static str
        ensures { result.now ≡ option_text self }
    {
        let option = self;
        diagnostics!(name_in, option)
    }

    /// What it may be.
    #[tactic(auto, unfolding(crate::specs::Advice::option_range))]
    pub fn values(self) -> &'static str
        ensures { result.now ≡ option_range self }
    {
        let option = self;
        diagnostics!(values_in, option)
    }
}
