ghost use Rattle.std.specs.Prelude.{◌≡◌, ℕ, ◌+◌, ◌^◌, ◌<◌, ◌≤◌, drop, length, IfSome, IfNone};
ghost use Rattle.jb_deck.specs.Done.{Follow, least_after, past_after, start_of, first_ticket, entries_of};
ghost use Rattle.jb_book.specs.Account.{IsSettledBy, last_start, trail_from};

use jb_deck::{Done, Entry};

/// Where the tickets of the entries end, and the least number of a group after them, where they begin
/// at the ticket `first`, tile without a gap up to `limit` at most, and have numbers that rise from
/// `least` on.
pub fn past_of(entries: &[Entry], first: u64, least: u64, limit: u64) -> Option<(u64, u64)>
    requires narrow { least ≤ 2 ^ 32 }
    ensures follow { IfSome result (λ end. Follow first least end.0 entries.now) }
    ensures within { IfSome result (λ end. end.0 ≤ limit) }
    ensures least { IfSome result (λ end. (end.1 ≡ least_after least entries.now) × (end.1 ≤ 2 ^ 32)) }
    ensures none { IfNone result ((past : ℕ) → Follow first least past entries.now → past ≤ limit → ⊥) }
{
    let mut past = first;
    let mut next = least;
    for &entry in entries {
        if entry.first != past {
            return None;
        }
        if entry.past <= past {
            return None;
        }
        if u64::from(entry.number) < next {
            return None;
        }
        past = entry.past;
        next = after(entry.number);
    }
    if past > limit {
        return None;
    }
    Some((past, next))
}

/// The number of the entry that has the ticket, where the entries tile the tickets from their first one on and the
/// ticket is not below it.
pub fn number_in(entries: &[Entry], ticket: u64) -> Option<u32>
    requires { start_of entries.now ≤ ticket }
    ensures some { IfSome result (λ number. (settled : ℕ) → Follow (start_of entries.now) 0 settled entries.now
        → IsSettledBy entries.now ticket number × (ticket < settled)) }
    ensures none { IfNone result ((settled : ℕ) → Follow (start_of entries.now) 0 settled entries.now
        → settled ≤ ticket) }
{
    let before = entries.partition_point(|entry| entry.past <= ticket);
    let entry = entries.get(before)?;
    Some(entry.number)
}

/// The ticket of the first handle of the first entry, 0 where there is none.
pub fn first_start(entries: &[Entry]) -> u64
    ensures { result ≡ start_of entries.now }
{
    match entries.first() {
        Some(entry) => entry.first,
        None => 0,
    }
}

/// The ticket of the first handle of the last entry, 0 where there is none.
pub fn start_of_last(entries: &[Entry]) -> u64
    ensures { result ≡ last_start entries.now }
{
    match entries.last() {
        Some(entry) => entry.first,
        None => 0,
    }
}

/// How many entries at the front end at this ticket or before it. The last entry is none of them.
pub fn count_to(entries: &[Entry], past: u64) -> usize
    ensures within { result ≤ length entries.now }
    ensures rest { drop result entries.now ≡ trail_from past entries.now }
{
    let last = entries.len().saturating_sub(1);
    let mut count = 0;
    for &entry in &entries[..last] {
        if entry.past > past {
            return count;
        }
        count += 1;
    }
    count
}

/// The ticket after those of the groups that are settled.
pub fn end_of(done: &Done) -> u64
    ensures { result ≡ past_after (first_ticket done.now) (entries_of done.now) }
{
    match done.entries().last() {
        Some(entry) => entry.past,
        None => done.first(),
    }
}

/// The number after another.
fn after(number: u32) -> u64
    ensures value { result ≡ number + 1 }
    ensures narrow { result ≤ 2 ^ 32 }
{
    u64::from(number) + 1
}
