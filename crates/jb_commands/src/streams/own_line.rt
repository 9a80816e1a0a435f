//! The names of the faults for which a file system's own journal is not found.
ghost use Rattle.std.specs.Prelude.{◌≡◌};
ghost use Rattle.jb_commands.specs.OwnLines.{field_words, inode_words, map_words, map_node_words};

use crate::streams::fault_line::Numbers;
use jb_ext::{FieldName, InodeFault};
use jb_map::{MapFault, NodeFault};

/// The name of the fault of a field of the superblock.
pub(crate) fn words_of_field(field: FieldName) -> &'static str
    ensures { field_words field ≡ result.now }
{
    match field {
        FieldName::LogBlockSize => "Own Field s_log_block_size",
        FieldName::LogClusterSize => "Own Field s_log_cluster_size",
        FieldName::FirstDataBlock => "Own Field s_first_data_block",
        FieldName::BlocksCount => "Own Field s_blocks_count",
        FieldName::BlocksPerGroup => "Own Field s_blocks_per_group",
        FieldName::InodeSize => "Own Field s_inode_size",
        FieldName::InodesPerGroup => "Own Field s_inodes_per_group",
        FieldName::DescSize => "Own Field s_desc_size",
        FieldName::JournalInum => "Own Field s_journal_inum",
    }
}

/// The same of an inode that is refused.
pub(crate) fn words_of_inode(fault: InodeFault) -> &'static str
    ensures { inode_words fault ≡ result.now }
{
    match fault {
        InodeFault::NotRegular => "Own Inode NotRegular",
        InodeFault::NoLink => "Own Inode NoLink",
        InodeFault::Encrypted => "Own Inode Encrypted",
        InodeFault::Inline => "Own Inode Inline",
        InodeFault::Small => "Own Inode Small",
        InodeFault::Large => "Own Inode Large",
    }
}

/// The same of a map of the journal's blocks that is damaged, with its numbers.
pub(crate) fn words_of_map(fault: MapFault) -> (&'static str, Numbers)
    ensures { (result.0.now, result.1) ≡ map_words fault }
{
    match fault {
        MapFault::Node(place, fault) => words_of_node(place, fault),
        MapFault::Unwritten(place) => ("Own Map Unwritten", Numbers::One(place)),
        MapFault::Apart(place) => ("Own Map Apart", Numbers::One(place)),
        MapFault::OutOfRange(place) => ("Own Map OutOfRange", Numbers::One(place)),
        MapFault::Hole(place) => ("Own Map Hole", Numbers::One(place)),
        MapFault::Short(place) => ("Own Map Short", Numbers::One(place)),
        MapFault::Twice(block) => ("Own Map Twice", Numbers::One(block)),
    }
}

/// The same of a node of the map, for this place of the journal, by the number that it has.
fn words_of_node(place: u64, fault: NodeFault) -> (&'static str, Numbers)
    ensures { (result.0.now, result.1) ≡ map_node_words place fault }
{
    match fault {
        NodeFault::Magic(number) => ("Own Map Node Magic", Numbers::Two(place, u64::from(number))),
        NodeFault::Depth(number) => ("Own Map Node Depth", Numbers::Two(place, u64::from(number))),
        NodeFault::Room(number) => ("Own Map Node Room", Numbers::Two(place, u64::from(number))),
        NodeFault::Count(number) => ("Own Map Node Count", Numbers::Two(place, u64::from(number))),
        NodeFault::Empty => ("Own Map Node Empty", Numbers::One(place)),
    }
}
