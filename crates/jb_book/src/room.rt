ghost use Rattle.std.specs.Prelude.{◌≡◌, ◌+◌, ◌<◌, ◌≤◌, ◌^◌, ◌++◌, length};
ghost use Rattle.std.specs.Prelude.{take, drop, sum, vec_len, vec_capacity, OnOk};

use jb_block::Memory;
use jb_deck::Entry;
use jb_handle::Stopped;

/// Makes room for this many further entries, and for one more handle with its credits.
pub fn make_room(
    trail: &mut Vec<Entry>,
    queue: &mut Vec<Stopped>,
    credits: &mut Vec<u32>,
    entries: usize,
) -> Result<(), Memory>
    ensures trail { trail.new.items ≡ trail.old.items }
    ensures queue { queue.new.items ≡ queue.old.items }
    ensures credits { credits.new.items ≡ credits.old.items }
    ensures kept { vec_capacity trail.old ≤ vec_capacity trail.new }
    ensures entries { OnOk result (vec_len trail.new + entries ≤ vec_capacity trail.new) }
    ensures handle { OnOk result (vec_len queue.new < vec_capacity queue.new) }
    ensures granted { OnOk result (vec_len credits.new < vec_capacity credits.new) }
{
    trail.reserve(entries)?;
    queue.reserve(1)?;
    credits.reserve(1)?;
    Ok(())
}

/// Puts entries at the trail's end, for which there is room.
pub fn push_all(trail: &mut Vec<Entry>, entries: &[Entry])
    requires { vec_len trail.old + length entries.now ≤ vec_capacity trail.old }
    ensures items { trail.new.items ≡ trail.old.items ++ entries.now }
    ensures len { vec_len trail.new ≡ vec_len trail.old + length entries.now }
    ensures capacity { vec_capacity trail.new ≡ vec_capacity trail.old }
{
    for &entry in entries {
        trail.push_reserved(entry);
    }
}

/// Drops the first `n` entries. The room that the trail has stays its own.
pub fn drop_entries(trail: &mut Vec<Entry>, n: usize)
    requires { n ≤ length trail.old.items }
    ensures items { trail.new.items ≡ drop n trail.old.items }
    ensures len { vec_len trail.new + n ≡ vec_len trail.old }
    ensures capacity { vec_capacity trail.new ≡ vec_capacity trail.old }
{
    let left = trail.len() - n;
    trail.rotate_left(n);
    trail.truncate(left);
}

/// Drops the first `n` credits, and says how many these are together.
pub fn drop_first(credits: &mut Vec<u32>, n: usize) -> u64
    requires there { n ≤ length credits.old.items }
    requires fits { sum credits.old.items < 2 ^ 64 }
    ensures items { credits.new.items ≡ drop n credits.old.items }
    ensures sum { result ≡ sum (take n credits.old.items) }
{
    let first = sum_of(&credits[..n]);
    let left = credits.len() - n;
    credits.rotate_left(n);
    credits.truncate(left);
    first
}

/// The numbers added up.
fn sum_of(numbers: &[u32]) -> u64
    requires { sum numbers.now < 2 ^ 64 }
    ensures { result ≡ sum numbers.now }
{
    let mut total = 0;
    for &number in numbers {
        total += u64::from(number);
    }
    total
}
