ghost use Rattle.std.specs.Prelude.{◌≡◌, ℕ, ◌+◌, ◌<◌, ◌≤◌, ◌^◌, ◌++◌, map};
ghost use Rattle.std.specs.Prelude.{length, drop, slice_range, sum, All, OnOk, OnErr};
ghost use Rattle.jb_cost.specs.Cut.{RisesTo};
ghost use Rattle.jb_core.specs.SplitEnds.{IsParted};

use jb_block::Memory;

/// Adds up the numbers from one place up to, but without, another.
pub fn sum_between(numbers: &[u32], from: usize, to: usize) -> u64
    requires within { (from ≤ to) × (to ≤ length numbers.now) }
    requires fits { sum (slice_range numbers.now from to) < 2 ^ 64 }
    ensures { result ≡ sum (slice_range numbers.now from to) }
{
    let mut total = 0;
    for &number in &numbers[from..to] {
        total += u64::from(number);
    }
    total
}

/// Where `n` further groups end, of which the first ends at place `from` among the ends; `start` where
/// `n` is 0.
pub fn end_after(ends: &[usize], from: usize, start: usize, n: usize) -> usize
    requires { n ≤ length (drop from ends.now) }
    ensures { (last : ℕ) → RisesTo last start (drop from ends.now) → IsParted last start n (drop from ends.now) result }
{
    if n == 0 { start } else { ends[from + n - 1] }
}

/// Appends ends, counted from `base`, to others.
pub fn push_ends(ends: &mut Vec<usize>, base: usize, more: &[usize]) -> Result<(), Memory>
    requires { All (λ end. base + end < 2 ^ 64) more.now }
    ensures ok { OnOk result (ends.new.items ≡ ends.old.items ++ map (λ end. base + end) more.now) }
    ensures err { OnErr result (ends.new.items ≡ ends.old.items) }
{
    ends.reserve(more.len())?;
    for &end in more {
        ends.push_reserved(base + end);
    }
    Ok(())
}
