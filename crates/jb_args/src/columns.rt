//! The columns of the table of the lines on standard error, which the clauses read: a row's place is that of its hint.

use crate::diagnostics;

/// The table's lines as what each says to do.
macro_rules! advice {
    (
        lines {
            $($hint:ident, $status:literal, $begins:literal, $rest:literal,
              $advice:literal $($more:literal)* $(: $beside:literal)?;)*
        }
        options { $($option:ident, $name:literal, $values:literal $($rest_values:literal)*;)* }
    ) => {
        &[$(concat!($advice $(, $more)*)),*]
    };
}

/// The table's lines as the finer status of each.
macro_rules! statuses {
    (
        lines {
            $($hint:ident, $status:literal, $begins:literal, $rest:literal,
              $advice:literal $($more:literal)* $(: $beside:literal)?;)*
        }
        options { $($option:ident, $name:literal, $values:literal $($rest_values:literal)*;)* }
    ) => {
        &[$($status),*]
    };
}

/// The table's options as rows: its name, and what it may be.
macro_rules! options {
    (
        lines {
            $($hint:ident, $status:literal, $begins:literal, $rest:literal,
              $advice:literal $($more:literal)* $(: $beside:literal)?;)*
        }
        options { $($option:ident, $name:literal, $values:literal $($rest_values:literal)*;)* }
    ) => {
        &[$(($name, concat!($values $(, $rest_values)*))),*]
    };
}

/// What is to be done after each line, in the table's order: the clauses read it.
pub(crate) const ADVICE: &[&str] = diagnostics!(advice);

/// The finer status of each line, in the table's order: the clauses read it.
pub(crate) const STATUSES: &[u8] = diagnostics!(statuses);

/// Each option that may be bad, and what it may be, in the table's order: the clauses read it.
pub(crate) const OPTIONS: &[(&str, &str)] = diagnostics!(options);
