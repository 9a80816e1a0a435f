ghost use Rattle.std.specs.Prelude.{◌≡◌, ℕ, ◌+◌, ◌<◌, not, length, OnOk};
ghost use Rattle.std.specs.Option.{ForSome};
ghost use Rattle.std.specs.Ordering.{nat_cmp};
ghost use Rattle.std.specs.BTreeMap.{get};
ghost use Rattle.std.specs.FinMap as map;
ghost use Rattle.jb_cost.specs.LastTouch.{owned_at, copies_of, frees_of, left_copy};
ghost use Rattle.jb_cost.specs.LastTouch.{AreOwners, Owns, OwnsNoMore, Lose, later_touch};
ghost use Rattle.jb_cost.specs.Spans.{AreSpans, KeepSpans};

use crate::owned::{Owned, Touch};
use crate::span::{Span, forget};
use jb_block::Memory;
use jb_handle::Words;
use std::collections::BTreeMap;

/// Adds a further handle with its words. It owns their homes from now on, and a handle that owned one
/// of them has lost it. Where memory is refused, some may have gone to it already.
pub(crate) fn take_over(
    last: &mut BTreeMap<u64, Touch>,
    owned: &mut Vec<Owned>,
    spans: &mut Vec<Option<Span>>,
    words: &Words,
) -> Result<(), Memory>
    requires owners { AreOwners owned.old.items last.old }
    requires spans { AreSpans owned.old.items spans.old.items }
    ensures owners { AreOwners owned.new.items last.new }
    ensures follows { OnOk result ((q : ℕ) → get nat_cmp last.new q ≡ later_touch (length owned.old.items)
        (map.get words.now q) (get nat_cmp last.old q)) }
    ensures number { OnOk result (length owned.new.items ≡ length owned.old.items + 1) }
    ensures less { (k : ℕ) → k < length owned.old.items →
        OwnsNoMore (owned_at owned.old.items k) (owned_at owned.new.items k) }
    ensures spans { KeepSpans owned.old.items owned.new.items spans.old.items spans.new.items }
{
    let handle = owned.len();
    owned.push(Owned::none())?;
    for (home, word) in words.entries() {
        let copy = word.is_copy();
        let before = last.insert(*home, Touch { handle, copy })?;
        lose(owned, spans, before);
        owned[handle] = owned[handle].with(copy);
    }
    Ok(())
}

/// Takes a home from the handle that touched it last, if there is one. What is known of the span with
/// that handle no longer holds.
fn lose(owned: &mut Vec<Owned>, spans: &mut Vec<Option<Span>>, before: Option<Touch>)
    requires owner { ForSome before (Owns owned.old.items) }
    requires spans { AreSpans owned.old.items spans.old.items }
    ensures copies { Lose copies_of left_copy before owned.old.items owned.new.items }
    ensures frees { Lose frees_of not before owned.old.items owned.new.items }
    ensures number { length owned.new.items ≡ length owned.old.items }
    ensures less { (k : ℕ) → OwnsNoMore (owned_at owned.old.items k) (owned_at owned.new.items k) }
    ensures spans { KeepSpans owned.old.items owned.new.items spans.old.items spans.new.items }
{
    let Some(touch) = before else { return };
    forget(spans, touch.handle);
    owned[touch.handle] = owned[touch.handle].without(touch.copy);
}
