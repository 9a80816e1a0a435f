//! The home blocks that are written most.
ghost use Rattle.std.specs.Prelude.{◌≡◌, ◌≤◌, ◌++◌, ◌∷◌, length, take, drop, IfOk, OnOk};
ghost use Rattle.jb_dump.specs.MostWritten.{foremost, ranked_among};

use jb_block::Memory;
use std::alloc::Global;
use std::collections::BTreeMap;

/// How many are named.
const NAMED: usize = 10;

/// The first of the home blocks by their rank, each with how often it is written.
pub(crate) fn foremost_of(
    alloc: Global,
    homes: BTreeMap<u64, u64>,
) -> Result<Vec<(u64, u64)>, Memory>
    ensures { IfOk result (λ rows. rows.items ≡ foremost homes.entries) }
{
    let mut homes = homes;
    let mut rows = Vec::new(alloc);
    while let Some(row) = homes.pop_first() {
        place_among(&mut rows, row)?;
    }
    Ok(rows)
}

/// Puts a row among the first ones, where it is one of them.
fn place_among(rows: &mut Vec<(u64, u64)>, row: (u64, u64)) -> Result<(), Memory>
    ensures { OnOk result (rows.new.items ≡ take 10 (ranked_among row rows.old.items)) }
{
    let at = rank_of(rows, row);
    rows.insert(at, row)?;
    rows.truncate(NAMED);
    Ok(())
}

/// How many of these rows come before a row by their rank.
fn rank_of(rows: &[(u64, u64)], row: (u64, u64)) -> usize
    ensures within { result ≤ length rows.now }
    ensures rank { ranked_among row rows.now ≡ take result rows.now ++ row ∷ drop result rows.now }
{
    let mut at = 0;
    while at < rows.len() && rows[at].1 >= row.1 {
        at += 1;
    }
    at
}
