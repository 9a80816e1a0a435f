//! What the homes hold, and which handles they hold it of.
use crate::checks::read_at;
use crate::keys::{HOMES, block_of, changes_of};
use jb_block::get64;
use jb_disk::MemoryDisk;
use std::process::Abort;

/// A handle that has stopped: its ticket, and the key that gives its changes.
#[derive(Clone, Copy)]
pub struct Stop {
    pub ticket: u64,
    pub key: u64,
}

/// What a home holds.
#[derive(Clone, Copy)]
pub enum Content {
    Zeros,
    /// what the handle with this key wrote there
    Of(u64),
    Torn,
}

/// What the homes hold.
pub type Contents = [Content; HOMES];

/// What was last done to a home.
#[derive(Clone, Copy)]
enum Last {
    Nothing,
    Copied(u64),
    Revoked,
}

/// What was last done to each home.
type Lasts = [Last; HOMES];

/// What a block of this home holds.
fn content_of(block: &[u8; 1024], home: usize) -> Content {
    let key = get64(block, 8);
    if *block == [0; 1024] {
        Content::Zeros
    } else if *block == block_of(key, home) {
        Content::Of(key)
    } else {
        Content::Torn
    }
}

/// Reads the homes of a disk, which begin at this block.
pub fn contents_of(rt: &impl Abort, disk: &mut MemoryDisk, first: u64) -> Contents {
    let mut contents = [Content::Torn; HOMES];
    let mut block = [0; 1024];
    for (home, content) in contents.iter_mut().enumerate() {
        read_at(rt, disk, first.saturating_add(home as u64), &mut block);
        *content = content_of(&block, home);
    }
    contents
}

/// Whether a home may hold this. One that was revoked may hold whatever a handle wrote to it before, and after a crash
/// parts of it.
fn may_hold(last: Last, content: Content, may_tear: bool) -> bool {
    match (last, content) {
        (Last::Nothing, Content::Zeros) => true,
        (Last::Copied(key), Content::Of(found)) => key == found,
        (Last::Revoked, Content::Torn) => may_tear,
        (Last::Revoked, _) => true,
        _ => false,
    }
}

/// Whether the homes may hold these.
fn may_all_hold(lasts: &Lasts, contents: &Contents, may_tear: bool) -> bool {
    for (last, content) in lasts.iter().zip(contents) {
        if !may_hold(*last, *content, may_tear) {
            return false;
        }
    }
    true
}

/// Makes the changes of the handle with this key.
fn make(lasts: &mut Lasts, key: u64) {
    for change in changes_of(key) {
        if let Some(change) = change
            && let Some(last) = lasts.get_mut(change.home)
        {
            *last = if change.is_revoke {
                Last::Revoked
            } else {
                Last::Copied(key)
            };
        }
    }
}

/// How many of the stops, which are in the order of their tickets, the homes have: `least` at least. `None` where they
/// have what no such number of stops leaves.
pub fn prefix_of(stops: &[Stop], contents: &Contents, least: u64, may_tear: bool) -> Option<u64> {
    let mut lasts = [Last::Nothing; HOMES];
    if least == 0 && may_all_hold(&lasts, contents, may_tear) {
        return Some(0);
    }
    for stop in stops {
        make(&mut lasts, stop.key);
        let count = stop.ticket.saturating_add(1);
        if least <= count && may_all_hold(&lasts, contents, may_tear) {
            return Some(count);
        }
    }
    None
}
