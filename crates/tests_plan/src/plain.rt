use jb_block::Memory;
use jb_cost::{Geometry, group_cost};
use jb_handle::{Stopped, is_within_size};
use std::alloc::Global;
use tests_support::{Must, Test, check};

/// What a plain planner finds: it looks at all groups, and counts each from nothing.
#[derive(Drop)]
pub(crate) struct PlainPlan {
    pub(crate) prices: Vec<Option<u64>>,
    pub(crate) froms: Vec<usize>,
}

impl PlainPlan {
    /// The plan of no handle.
    fn new(alloc: Global) -> Result<PlainPlan, Memory> {
        let prices = vec![in alloc; Some(0)]?;
        let froms = vec![in alloc; 0]?;
        Ok(PlainPlan { prices, froms })
    }

    /// Adds the least price of a prefix, and the bound from which it is attained, if one is.
    fn push(&mut self, best: Option<(u64, usize)>) -> Result<(), Memory> {
        match best {
            Some((total, from)) => {
                self.prices.push(Some(total))?;
                self.froms.push(from)?;
            }
            None => {
                self.prices.push(None)?;
                self.froms.push(0)?;
            }
        }
        Ok(())
    }
}

/// The least price of each prefix of a queue, and the first bound from which its last group attains it.
pub(crate) fn plan_plainly(
    test: &impl Test,
    alloc: Global,
    handles: &[Stopped],
    geometry: Geometry,
    limit: u32,
) -> PlainPlan {
    let mut plan = PlainPlan::new(alloc).must(test, "memory");
    for end in 1..handles.len().saturating_add(1) {
        let part = handles.get(..end).must(test, "a first part");
        let best = best_group(test, alloc, part, geometry, limit, &plan.prices);
        plan.push(best).must(test, "memory")
    }
    plan
}

/// The least price of handles by their last group, and the first bound from which it is attained.
fn best_group(
    test: &impl Test,
    alloc: Global,
    handles: &[Stopped],
    geometry: Geometry,
    limit: u32,
    prices: &[Option<u64>],
) -> Option<(u64, usize)> {
    let mut best = None;
    for (from, price) in prices.iter().enumerate() {
        let group = handles.get(from..).must(test, "a last group");
        let total = group_total(test, alloc, group, geometry, limit, *price);
        best = better(best, total, from);
    }
    best
}

/// The least of what is found and of a total from a bound, which is less than all before it where it is taken.
fn better(best: Option<(u64, usize)>, total: Option<u64>, from: usize) -> Option<(u64, usize)> {
    match (best, total) {
        (Some((least, _)), Some(total)) if total < least => Some((total, from)),
        (None, Some(total)) => Some((total, from)),
        _ => best,
    }
}

/// The price of a start and the cost of a group from there, if it has one and the group fits.
fn group_total(
    test: &impl Test,
    alloc: Global,
    group: &[Stopped],
    geometry: Geometry,
    limit: u32,
    price: Option<u64>,
) -> Option<u64> {
    check(test, is_within_size(group), "too many handles");
    let cost = group_cost(alloc, group, geometry).must(test, "memory");
    match price {
        Some(price) if cost <= u64::from(limit) => Some(price.saturating_add(cost)),
        _ => None,
    }
}
