ghost use Rattle.std.specs.Prelude.{◌≡◌, ℕ, ◌+◌, ◌<◌, ◌≤◌, false, not, ◌&&◌, ◌||◌, IfOk, OnOk, OnErr, nat_eq};
ghost use Rattle.std.specs.List.{list_any};
ghost use Rattle.std.specs.Ordering.{nat_cmp};
ghost use Rattle.std.specs.FinMap as map;
ghost use Rattle.std.specs.FinSet as set;
ghost use Rattle.std.specs.BTreeSet.{contains};
ghost use Rattle.jb_handle.specs.Word.{is_copy, is_free};
ghost use Rattle.jb_cost.specs.NewHomes.{new_homes};

use jb_block::Memory;
use jb_handle::Words;
use std::collections::BTreeSet;

/// How many homes were met for the first time, by their words.
#[derive(Drop)]
pub(crate) struct NewHomes {
    pub(crate) copies: u64,
    pub(crate) frees: u64,
}

/// Puts the homes of the words among those that were met, and lists those that are new. Where memory
/// is refused, some may be among them already: the list says which.
pub(crate) fn meet(
    homes: &mut BTreeSet<u64>,
    fresh: &mut Vec<u64>,
    words: &Words,
) -> Result<NewHomes, Memory>
    ensures homes { OnOk result ((q : ℕ) → contains nat_cmp homes.new
        q ≡ (contains nat_cmp homes.old q || map.contains_key words.now q)) }
    ensures copies { IfOk result (λ met. met.copies ≡ new_homes is_copy (set.from_list homes.old.keys)
        (map.entries words.now)) }
    ensures frees { IfOk result (λ met. met.frees ≡ new_homes is_free (set.from_list homes.old.keys)
        (map.entries words.now)) }
    ensures grows { OnErr result (0 < map.len words.now) }
    ensures few { IfOk result (λ met. met.copies + met.frees ≤ map.len words.now) }
    ensures partly { OnErr result ((q : ℕ) → contains nat_cmp homes.new
        q ≡ (contains nat_cmp homes.old q || list_any (nat_eq q) fresh.new.items)) }
    ensures apart { OnErr result ((q : ℕ) → (contains nat_cmp homes.old q && list_any (nat_eq q) fresh.new.items)
        ≡ false) }
{
    fresh.clear();
    fresh.reserve(words.len())?;
    let mut copies = 0;
    let mut frees = 0;
    for (home, word) in words.entries() {
        if homes.insert(*home)? {
            fresh.push_reserved(*home);
            if word.is_copy() {
                copies += 1;
            } else {
                frees += 1;
            }
        }
    }
    Ok(NewHomes { copies, frees })
}

/// Takes these homes out again.
pub(crate) fn part(homes: &mut BTreeSet<u64>, fresh: &[u64])
    ensures { (q : ℕ) → contains nat_cmp homes.new q
        ≡ (contains nat_cmp homes.old q && not (list_any (nat_eq q) fresh.now)) }
{
    for home in fresh {
        homes.remove(home);
    }
}
