ghost use Rattle.std.specs.Prelude.{ℕ, ◌^◌, ◌<◌, ◌≤◌, List, Option, length, IfSome, IfNone};
ghost use Rattle.jb_cost.specs.LastTouch.{all_owned, owned_cost};
ghost use Rattle.jb_cost.specs.Starts.{BestStart};
ghost use Rattle.jb_cost.specs.Spans.{FitOwned, FitPrices, StillFit};
ghost use Rattle.jb_cost.specs.Search.{IsWalk, GoesEarlier, StaysBest, AreBeyondLimit};

use crate::geometry::Geometry;
use crate::group_size::GroupSize;
use crate::group_start::GroupStart;
use crate::owned::Owned;
use crate::shortcuts::Shortcuts;
use crate::span::{SPAN, span_end};

/// A search as far as it has come: what the handles from `low` on take as one group, and the best of
/// their starts.
#[derive(Clone, Copy)]
pub(crate) struct StartSearch {
    tally: GroupSize,
    low: usize,
    /// The handles from `low` up to this one are idle.
    until: usize,
    best: Option<GroupStart>,
}

/// The best start of a group that ends with the last handle. It goes leftwards, over a span in one
/// step where it can, and else over the handles that own a home: with each of them a group costs
/// more, so the first one over the limit ends the search.
pub(crate) fn best_start(
    geometry: Geometry,
    owned: &[Owned],
    shortcuts: &mut Shortcuts,
    limit: u32,
) -> Option<GroupStart>
    requires few { all_owned owned.now ≤ 2 ^ 62 }
    requires fit { FitOwned owned.now shortcuts.old }
    ensures fit { StillFit owned.now shortcuts.old shortcuts.new }
    ensures best { (ps : List (Option ℕ)) → FitPrices ps owned.now shortcuts.old →
        BestStart (owned_cost geometry owned.now) limit ps 0 (length owned.now) result }
{
    let mut walk = StartSearch {
        tally: GroupSize::none(geometry),
        low: owned.len(),
        until: owned.len(),
        best: None,
    };
    while walk.low > 0 {
        match further(walk, owned, shortcuts, limit) {
            Some(next) => walk = next,
            None => break,
        }
    }
    walk.best
}

/// The search one step further, or `None` where the next group is over the limit.
fn further(
    walk: StartSearch,
    owned: &[Owned],
    shortcuts: &mut Shortcuts,
    limit: u32,
) -> Option<StartSearch>
    requires few { all_owned owned.now ≤ 2 ^ 62 }
    requires fit { FitOwned owned.now shortcuts.old }
    requires walk { IsWalk owned.now walk × (0 < walk.low) }
    ensures fit { StillFit owned.now shortcuts.old shortcuts.new }
    ensures next { IfSome result (GoesEarlier owned.now walk) }
    ensures best { StaysBest owned.now limit shortcuts.old walk result }
    ensures over { IfNone result (AreBeyondLimit walk.tally.geometry owned.now limit walk.low) }
{
    if let Some(next) = over_span(walk, owned, shortcuts, limit) {
        return Some(next);
    }
    over_stretch(walk, owned, shortcuts, limit)
}

/// The search beyond the span of the handle before it, where those of the span that it has gone over are idle,
/// the groups from all of its starts are within the limit, and each of these has as many descriptors and
/// revoke blocks as the group so far.
fn over_span(
    walk: StartSearch,
    owned: &[Owned],
    shortcuts: &mut Shortcuts,
    limit: u32,
) -> Option<StartSearch>
    requires few { all_owned owned.now ≤ 2 ^ 62 }
    requires fit { FitOwned owned.now shortcuts.old }
    requires walk { IsWalk owned.now walk × (0 < walk.low) }
    ensures fit { StillFit owned.now shortcuts.old shortcuts.new }
    ensures next { IfSome result (GoesEarlier owned.now walk) }
    ensures best { StaysBest owned.now limit shortcuts.old walk result }
{
    let Some(end) = span_end(walk.low, walk.until) else {
        return None
    };
    let span = shortcuts.span(owned, end);
    let tally = walk.tally.plus(span.owned());
    if tally.cost() > u64::from(limit) {
        return None;
    }
    if !tally.names_as(walk.tally) {
        return None;
    }
    let earlier = match span.least {
        Some(least) => Some(least.dearer(walk.tally.cost())),
        None => None,
    };
    Some(StartSearch {
        tally,
        low: span.from,
        until: end - SPAN,
        best: GroupStart::better(walk.best, earlier),
    })
}

/// The search beyond the stretch before it, or `None` where the group is over the limit.
fn over_stretch(
    walk: StartSearch,
    owned: &[Owned],
    shortcuts: &mut Shortcuts,
    limit: u32,
) -> Option<StartSearch>
    requires few { all_owned owned.now ≤ 2 ^ 62 }
    requires fit { FitOwned owned.now shortcuts.old }
    requires walk { IsWalk owned.now walk × (0 < walk.low) }
    ensures fit { StillFit owned.now shortcuts.old shortcuts.new }
    ensures next { IfSome result (GoesEarlier owned.now walk) }
    ensures best { StaysBest owned.now limit shortcuts.old walk result }
    ensures over { IfNone result (AreBeyondLimit walk.tally.geometry owned.now limit walk.low) }
{
    let start = walk.low - 1;
    let tally = walk.tally.plus(owned[start]);
    let cost = tally.cost();
    if cost > u64::from(limit) {
        return None;
    }
    let stretch = shortcuts.stretch(owned, start);
    Some(StartSearch {
        tally,
        low: stretch.from,
        until: start,
        best: GroupStart::better(walk.best, GroupStart::of(stretch.least, cost)),
    })
}
