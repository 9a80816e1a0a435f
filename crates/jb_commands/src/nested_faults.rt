//! The tables of the faults that a `CommandFault` is made of: what each is told as.
ghost use Rattle.std.specs.Prelude.{◌≡◌};
ghost use Rattle.jb_commands.specs.Faults.{extents_hint as extents_hint_of, own_hint as own_hint_of};
ghost use Rattle.jb_commands.specs.Faults.{super_hint as super_hint_of, system_hint as system_hint_of};
ghost use Rattle.jb_commands.specs.Faults.{extents_words, super_words, system_words};
ghost use Rattle.jb_commands.specs.OwnLines.{own_words};

use crate::streams::{Numbers, words_of_field, words_of_inode, words_of_map};
use jb_args::Hint;
use jb_ext::OwnFault;
use jb_image::{ExtentsFault, FileSystemFault};
use jb_super::SuperFault;

/// Calls a macro with the table of superblocks that are refused, after a name for it. A row is a fault, its name and
/// its numbers, and what a second line is about after it.
macro_rules! super_rows {
    ($form:ident, $fault:ident) => {
        $form! {
            $fault
            SuperFault::ShortBlock => ("Super ShortBlock", Numbers::None), Hint::SuperShortBlock;
            SuperFault::NoMagic => ("Super NoMagic", Numbers::None), Hint::SuperNoMagic;
            SuperFault::NotVersion2(kind) =>
                ("Super NotVersion2", Numbers::One(u64::from(kind))), Hint::SuperNotVersion2;
            SuperFault::BlockSize(size) =>
                ("Super BlockSize", Numbers::One(u64::from(size))), Hint::SuperBlockSize;
            SuperFault::Geometry => ("Super Geometry", Numbers::None), Hint::SuperGeometry;
            SuperFault::Feature(word, bits) =>
                ("Super Feature", Numbers::Two(u64::from(word), u64::from(bits))),
                match (word, bits) { (2, 8 | 16) => Hint::SuperSummed, _ => Hint::SuperFeature };
        }
    };
}

/// The same of a journal that is not recovered into a file system.
macro_rules! system_rows {
    ($form:ident, $fault:ident) => {
        $form! {
            $fault
            FileSystemFault::BlockSize(size) =>
                ("FileSystem BlockSize", Numbers::One(u64::from(size))), Hint::FileSystemBlockSize;
            FileSystemFault::Uuid => ("FileSystem Uuid", Numbers::None), Hint::FileSystemUuid;
            FileSystemFault::Clean => ("FileSystem Clean", Numbers::None), Hint::FileSystemClean;
            FileSystemFault::Newer => ("FileSystem Newer", Numbers::None), Hint::FileSystemNewer;
            FileSystemFault::Unrecovered =>
                ("FileSystem Unrecovered", Numbers::None), Hint::FileSystemUnrecovered;
        }
    };
}

/// The same of extents that do not hold the journal.
macro_rules! extents_rows {
    ($form:ident, $fault:ident) => {
        $form! {
            $fault
            ExtentsFault::Overlap(block) => ("Extents Overlap", Numbers::One(block)), Hint::ExtentsOverlap;
            ExtentsFault::PastEnd(block) => ("Extents PastEnd", Numbers::One(block)), Hint::ExtentsPastEnd;
            ExtentsFault::Short(blocks) => ("Extents Short", Numbers::One(blocks)), Hint::ExtentsShort;
            ExtentsFault::Long(blocks) => ("Extents Long", Numbers::One(blocks)), Hint::ExtentsLong;
            ExtentsFault::NoJournal => ("Extents NoJournal", Numbers::None), Hint::ExtentsNoJournal;
            ExtentsFault::BlockSizes(one, other) =>
                ("Extents BlockSizes", Numbers::Two(u64::from(one), u64::from(other))), Hint::ExtentsBlockSizes;
            ExtentsFault::Front(block) => ("Extents Front", Numbers::One(block)), Hint::ExtentsFront;
            ExtentsFault::Home(home) => ("Extents Home", Numbers::One(home)), Hint::ExtentsHome;
            ExtentsFault::Nothing => ("Extents Nothing", Numbers::None), Hint::ExtentsNothing;
            ExtentsFault::Other(place) => ("Extents Other", Numbers::One(place)), Hint::ExtentsOther;
            ExtentsFault::Broken(place) => ("Extents Broken", Numbers::One(place)), Hint::ExtentsBroken;
        }
    };
}

/// The same of a file system's own journal that is not found.
macro_rules! own_rows {
    ($form:ident, $fault:ident) => {
        $form! {
            $fault
            OwnFault::NoSystem => ("Own NoSystem", Numbers::None), Hint::OwnNoSystem;
            OwnFault::Device => ("Own Device", Numbers::None), Hint::OwnDevice;
            OwnFault::Feature(bits) => ("Own Feature", Numbers::One(u64::from(bits))), Hint::OwnFeature;
            OwnFault::NoJournal => ("Own None", Numbers::None), Hint::OwnNone;
            OwnFault::External => ("Own External", Numbers::None), Hint::OwnExternal;
            OwnFault::Field(field, number) => (words_of_field(field), Numbers::One(number)), Hint::OwnField;
            OwnFault::Descriptor(block) => ("Own Descriptor", Numbers::One(block)), Hint::OwnDescriptor;
            OwnFault::Table(block) => ("Own Table", Numbers::One(block)), Hint::OwnTable;
            OwnFault::Inode(fault) => (words_of_inode(fault), Numbers::None), Hint::OwnInode;
            OwnFault::Map(fault) => words_of_map(fault), Hint::OwnMap;
            OwnFault::Differs => ("Own Differs", Numbers::None), Hint::OwnDiffers;
            OwnFault::NoSuper(block) => ("Own NoSuper", Numbers::One(block)), Hint::OwnNoSuper;
            OwnFault::Short => ("Own Short", Numbers::None), Hint::OwnShort;
        }
    };
}

/// A `match` of a fault with the words and the numbers of its line in each arm.
macro_rules! line_in {
    ($of:ident $($fault:pat => $line:expr, $hint:expr;)*) => { match $of { $($fault => $line),* } };
}

/// A `match` of a fault with its hint in each arm.
macro_rules! hint_in {
    ($of:ident $($fault:pat => $line:expr, $hint:expr;)*) => { match $of { $($fault => $hint),* } };
}

/// The name of the fault of a superblock that is refused, and its numbers.
pub(crate) fn words_of_super(fault: SuperFault) -> (&'static str, Numbers)
    ensures { (result.0.now, result.1) ≡ super_words fault }
{
    super_rows!(line_in, fault)
}

/// What a second line is about after it.
pub(crate) fn super_hint(fault: SuperFault) -> Hint
    ensures { result ≡ super_hint_of fault }
{
    super_rows!(hint_in, fault)
}

/// The name and the numbers of the fault of a journal that is not recovered into a file system.
pub(crate) fn words_of_system(fault: FileSystemFault) -> (&'static str, Numbers)
    ensures { (result.0.now, result.1) ≡ system_words fault }
{
    system_rows!(line_in, fault)
}

/// What a second line is about after it.
pub(crate) fn system_hint(fault: FileSystemFault) -> Hint
    ensures { result ≡ system_hint_of fault }
{
    system_rows!(hint_in, fault)
}

/// The name and the numbers of the fault of extents that do not hold the journal.
pub(crate) fn words_of_extents(fault: ExtentsFault) -> (&'static str, Numbers)
    ensures { (result.0.now, result.1) ≡ extents_words fault }
{
    extents_rows!(line_in, fault)
}

/// What a second line is about after it.
pub(crate) fn extents_hint(fault: ExtentsFault) -> Hint
    ensures { result ≡ extents_hint_of fault }
{
    extents_rows!(hint_in, fault)
}

/// The name and the numbers of the fault of a file system's own journal that is not found.
pub(crate) fn words_of_own(fault: OwnFault) -> (&'static str, Numbers)
    ensures { (result.0.now, result.1) ≡ own_words fault }
{
    own_rows!(line_in, fault)
}

/// What a second line is about after it.
pub(crate) fn own_hint(fault: OwnFault) -> Hint
    ensures { result ≡ own_hint_of fault }
{
    own_rows!(hint_in, fault)
}
