//! The topics of the help, each a text of its own, and what the help of `jb` says of them.

use super::{CommandRow, RowKind};
use crate::{diagnostics, setting_rows};

/// The end of the short help of `jb`.
pub(crate) const TOPICS: &str =
    "Settings and topics: jb help settings, files, locks, statuses, diagnostics";

/// Two texts with the lines of the settings between them: their words, and what they do.
macro_rules! settings_between {
    (
        ($before:literal, $after:literal)
        $($setting:ident, $word:literal $(, $other:literal)* => $help:literal;)*
    ) => {
        concat!($before, $("\n  ", $word $(, ", ", $other)*, "\n          ", $help),*, $after)
    };
}

/// The end of the long help of `jb`.
pub(crate) const JB: &str = setting_rows!(
    settings_between,
    (
        "Settings, of any command, anywhere before a word --:",
        "

Topics:
  jb help files
  jb help locks
  jb help settings
  jb help statuses
  jb help diagnostics"
    )
);

/// The settings.
const SETTINGS_TEXT: &str = setting_rows!(
    settings_between,
    (
        "Settings: a setting is a word of its own, anywhere before a word --, for any
command. Of two that set the same the last one counts. JB_HINTS=1 in the
environment is as --hints before them, and JB_STATUS=1 as --status.",
        ""
    )
);

/// The files that commands are about.
const FILES_TEXT: &str =
    "Files: a queue text, the FILE of cost, plan, check and load, has a line for
each handle after its first two:
  bs 1024                 the bytes of a block: 1024, 2048 or 4096
  limit 7                 the most log blocks of a group
  h w1 w2=c03b3998 r5     a handle that writes home block 1, and 2 with these
                          bytes, and revokes 5
The page jb-queue(5) has its form.
An image has the journal first, its superblock at the front, and the home
blocks after it: home block N is the block at s_maxlen + N. It is a regular
file or a block device. The FILE of dump is an image, or a journal, whatever
comes after it; a journal may be a pipe.
Where no journal begins at the front, and the image is a file system of ext2,
ext3 or ext4 that is not mounted, its own journal is found, and home block N
is block N of the image. With --extents LIST the image is a file system with
its journal in it, in the blocks that LIST says as debugfs prints them, and
home block N is block N of the image. With --journal FILE the journal is the
whole of another file, with exactly s_maxlen blocks, and home block N is block
N of the image: a file system, with its journal copied out. renumber and widen
take such a FILE as their image.";

/// The locks on them.
const LOCKS_TEXT: &str =
    "Locks: load, recover, renumber and widen lock their files while they use them
(flock), and format the one that it makes. cat shares its lock with others
that only read. A file that another program has locked is refused at once,
with jb: in use NAME and status 2. dump locks, as cat, what does not begin
with a journal, or is given with --journal or --extents, and nothing else.
Nothing keeps out a program that takes none, as cp. On a file system without
locks jb goes on without; any other fault of the lock is one of the file.";

/// The exit statuses.
const STATUSES_TEXT: &str =
    "Status: 0 where a command is done, and what it judges fits or is accepted; 1
where it is not, or an image is refused, or a read, a write or memory failed;
2 where the words, a file or a text cannot be taken.
With --status, or JB_STATUS=1 in the environment, what is said on standard
error has a status of its own, which jb help diagnostics has for each line:
  0       the command is done, and what it judges fits or is accepted
  1       what it judges does not fit, or is not accepted
  2       the words, a file or a text cannot be taken
  3       the journal or the image is refused, or refuses what is to be done
  4       a read or a write failed, of an image, a journal or standard output
  5       memory ran out
With no words jb acts as jb cost -; where standard input is a terminal it
prints its help, with status 2. A write past the limit of the file size
(ulimit -f) ends jb by the signal SIGXFSZ: format leaves an empty file then,
and an image is to be recovered, as after a crash.";

/// The lines on standard error, with the finer status of each and what is to be done.
macro_rules! diagnostics_text {
    (
        lines {
            $($hint:ident, $status:literal, $begins:literal, $rest:literal,
              $advice:literal $($more:literal)* $(: $beside:literal)?;)*
        }
        options { $($option:ident, $name:literal, $values:literal $($rest_values:literal)*;)* }
    ) => {
        concat!(
            "Diagnostics: what went wrong is one line on standard error. Where the system
has refused a call, its reason is a second line, which begins with jb: and two
spaces. On a terminal, or with --hints, that line says what to do, and then
the reason; with -q there is none. Nothing is said on a terminal where nobody
reads standard output any more, as after jb dump journal.bin | head -1. With
--journal the line ends with the name of the file that it is about, but for
DeviceFault, which is of either. A character of a name that is a control
character, or turns the direction of the text, is \\x and two digits for each
of its bytes. # is a number, REASON the system's own text, where it has one,
CALL the call that failed and its block, before which stands what to do about
the reason, HOLDER where a device is mounted or which process has locked the
file, where that is known, and [#] the status with --status; the options that
may be bad stand last.",
            $("\n  jb: ", $begins, $rest, " [", $status, "]\n          ",
              $advice $(, "\n         ", $more)* $(, ": ", $beside)?),*,
            $("\n  ", $name, "\n          is ", $values $(, "\n         ", $rest_values)*),*
        )
    };
}

/// The lines on standard error.
const DIAGNOSTICS_TEXT: &str = diagnostics!(diagnostics_text);

/// `jb help files`.
pub(super) static FILES: CommandRow = CommandRow {
    name: "files",
    kind: RowKind::Topic,
    about: "The files that commands are about",
    more: FILES_TEXT,
    words: &[],
};

/// `jb help locks`.
pub(super) static LOCKS: CommandRow = CommandRow {
    name: "locks",
    kind: RowKind::Topic,
    about: "How files are locked",
    more: LOCKS_TEXT,
    words: &[],
};

/// `jb help settings`.
pub(super) static SETTINGS: CommandRow = CommandRow {
    name: "settings",
    kind: RowKind::Topic,
    about: "What any command may be told",
    more: SETTINGS_TEXT,
    words: &[],
};

/// `jb help statuses`.
pub(super) static STATUSES: CommandRow = CommandRow {
    name: "statuses",
    kind: RowKind::Topic,
    about: "The exit statuses",
    more: STATUSES_TEXT,
    words: &[],
};

/// `jb help diagnostics`.
pub(super) static DIAGNOSTICS: CommandRow = CommandRow {
    name: "diagnostics",
    kind: RowKind::Topic,
    about: "The lines on standard error, and what to do",
    more: DIAGNOSTICS_TEXT,
    words: &[],
};
