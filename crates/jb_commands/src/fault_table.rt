//! The table of the faults of a command: what each is told as. Of a fault that has a type of its own the row names the
//! functions that read the table of that type.
ghost use Rattle.std.specs.Prelude.{◌≡◌, option_map};
ghost use Rattle.jb_commands.specs.FaultLines.{named};
ghost use Rattle.jb_commands.specs.Faults.{fault_words};
ghost use Rattle.jb_commands.specs.Lines.{names_said};

use crate::fault::CommandFault;
use crate::names::{TwoFiles, image_of, journal_of};
use crate::nested_faults::{
    extents_hint, own_hint, super_hint, system_hint, words_of_extents, words_of_own,
    words_of_super, words_of_system,
};
use crate::streams::{Numbers, words_of_sum};
use jb_args::Hint;

/// Calls a macro with the table, after the names that are given for it. A row is a fault: its name and its numbers, as
/// its line and its JSON have them; the file named after them; the exit status; and what a second line is about.
/// The file is the fault's own, or, of a command over two files, that of the journal or of the image.
macro_rules! fault_rows {
    ($form:ident $(, $with:ident)+) => {
        $form! {
            [$($with)+]
            CommandFault::CannotRead(name, code) =>
                ("cannot read", Numbers::None), own(name), 2, Hint::CannotRead(code);
            CommandFault::InUse(name, holder) =>
                ("in use", Numbers::None), own(name), 2, Hint::InUse(holder);
            CommandFault::MountsUnknown(name) =>
                ("mounts unknown", Numbers::None), own(name), 2, Hint::MountsUnknown;
            CommandFault::NoLinks(name) => ("no links", Numbers::None), own(name), 2, Hint::NoLinks;
            CommandFault::SameFile(name) => ("same file", Numbers::None), own(name), 2, Hint::SameFile;
            CommandFault::CannotMake(name, code) =>
                ("cannot make", Numbers::None), own(name), 2, Hint::CannotMake(code);
            CommandFault::BadOption(option) => ("bad option", Numbers::None), none, 2, Hint::BadOption(option);
            CommandFault::TooLong(name) => ("too long", Numbers::None), own(name), 2, Hint::TooLong;
            CommandFault::ReadFault(code) => ("ReadFault", Numbers::None), none, 1, Hint::ReadFault(code);
            CommandFault::Super(fault) => words_of_super(fault), journal, 1, super_hint(fault);
            CommandFault::ChecksumType(kind) =>
                ("Super ChecksumType", Numbers::One(u64::from(kind))), journal, 1, Hint::SuperChecksumType;
            CommandFault::SuperChecksum => ("Super Checksum", Numbers::None), journal, 1, Hint::SuperChecksum;
            CommandFault::JournalLength(blocks, maxlen) =>
                ("JournalLength", Numbers::Two(blocks, u64::from(maxlen))), journal, 1, Hint::JournalLength;
            CommandFault::FileSystem(fault) => words_of_system(fault), image, 1, system_hint(fault);
            CommandFault::Extents(fault) => words_of_extents(fault), none, 1, extents_hint(fault);
            CommandFault::Own(fault) => words_of_own(fault), none, 1, own_hint(fault);
            CommandFault::BadChecksum(what, place) =>
                (words_of_sum(what), Numbers::One(place)), journal, 1, Hint::BadChecksum;
            CommandFault::Lost(place) => ("Lost", Numbers::One(place)), journal, 1, Hint::Lost;
            CommandFault::BadRevoke(place) => ("BadRevoke", Numbers::One(place)), journal, 1, Hint::BadRevoke;
            CommandFault::HomeOutOfRange(home, number, homes) =>
                ("HomeOutOfRange", Numbers::Two(home, u64::from(number))), image, 1, Hint::HomeOutOfRange(homes);
            CommandFault::NoHome(home, homes) => ("NoHome", Numbers::One(home)), image, 1, Hint::NoHome(homes);
            CommandFault::NeedsRecovery => ("NeedsRecovery", Numbers::None), journal, 1, Hint::NeedsRecovery;
            CommandFault::NumbersSpent => ("NumbersSpent", Numbers::None), journal, 1, Hint::NumbersSpent;
            CommandFault::BlockSize => ("BlockSize", Numbers::None), none, 1, Hint::BlockSize;
            CommandFault::Accounts => ("Accounts", Numbers::None), none, 1, Hint::Accounts;
            CommandFault::Geometry => ("Geometry", Numbers::None), none, 1, Hint::Geometry;
            CommandFault::DeviceFault(failure) =>
                ("DeviceFault", Numbers::None), none, 1, Hint::DeviceFault(failure);
            CommandFault::Memory => ("Memory", Numbers::None), none, 1, Hint::Memory;
            CommandFault::WriteFault => ("WriteFault", Numbers::None), none, 1, Hint::WriteFault;
        }
    };
}

/// A `match` of a fault with the words and the numbers of its line in each arm.
macro_rules! line_in {
    (
        [$of:ident]
        $($fault:pat => $line:expr, $whose:ident $(($name:ident))?, $status:literal, $hint:expr;)*
    ) => {
        match $of { $($fault => $line),* }
    };
}

/// A `match` of a fault with the name after its line in each arm.
macro_rules! name_in {
    (
        [$of:ident $journal:ident $image:ident]
        $($fault:pat => $line:expr, $whose:ident $(($name:ident))?, $status:literal, $hint:expr;)*
    ) => {
        match $of { $($fault => named_by!($whose $(($name))?, $journal, $image)),* }
    };
}

/// The name that a row says: none, the fault's own, the journal's or the image's.
macro_rules! named_by {
    (none, $journal:ident, $image:ident) => { None };
    (own($name:ident), $journal:ident, $image:ident) => { Some($name) };
    (journal, $journal:ident, $image:ident) => { $journal };
    (image, $journal:ident, $image:ident) => { $image };
}

/// A `match` of a fault with the exit status in each arm.
macro_rules! status_in {
    (
        [$of:ident]
        $($fault:pat => $line:expr, $whose:ident $(($name:ident))?, $status:literal, $hint:expr;)*
    ) => {
        match $of { $($fault => $status),* }
    };
}

/// A `match` of a fault with its hint in each arm.
macro_rules! hint_in {
    (
        [$of:ident]
        $($fault:pat => $line:expr, $whose:ident $(($name:ident))?, $status:literal, $hint:expr;)*
    ) => {
        match $of { $($fault => $hint),* }
    };
}

impl<'a> CommandFault<'a> {
    ghost use Rattle.std.specs.Prelude.{◌≡◌};
    ghost use Rattle.jb_commands.specs.Faults.{hint_of, status_of};

    /// The program's exit status: 2 where an option or a file was the reason, else 1.
    pub fn status(self) -> u8
        ensures value { result ≡ status_of self.entry }
    {
        let fault = self;
        fault_rows!(status_in, fault)
    }

    /// What a second line is about after its line.
    pub fn hint(self) -> Hint
        /// The hint of each fault.
        ensures value { result ≡ hint_of self.entry }
    {
        let fault = self;
        fault_rows!(hint_in, fault)
    }
}

/// The name of a fault, and its numbers.
pub(crate) fn words_of(fault: CommandFault<'_>) -> (&'static str, Numbers)
    ensures { (result.0.now, result.1) ≡ fault_words fault.entry }
{
    fault_rows!(line_in, fault)
}

/// The name at the end of a fault's line: of the file that it is about, where that is known.
pub(crate) fn name_after<'a>(
    fault: CommandFault<'a>,
    files: Option<TwoFiles<'a>>,
) -> Option<&'a str>
    ensures { option_map (λ name. name.now) result ≡ named (names_said files.entry) fault.entry }
{
    let journal = journal_of(files);
    let image = image_of(files);
    fault_rows!(name_in, fault, journal, image)
}
