ghost use Rattle.std.specs.Prelude.{◌≡◌, ◌≢◌, ℕ, ◌+◌, ◌/◌, ◌%◌, ◌<◌, ◌≤◌, length, Some, IfSome};
ghost use Rattle.jb_cost.specs.declared.span.Span.{Span as SpanValue};
ghost use Rattle.jb_cost.specs.Spans.{span_at};

use crate::group_start::GroupStart;
use crate::owned::Owned;

/// The handles of a span.
pub(crate) const SPAN: usize = 8;

/// Eight handles in a row, and the idle ones before them. So long as each keeps what it owns, a
/// search goes over all of them in one step.
#[derive(Clone, Copy)]
pub(crate) struct Span {
    pub(crate) from: usize,
    /// The homes that the handles own.
    pub(crate) copies: u64,
    pub(crate) frees: u64,
    /// The best start among them, where a group costs as much as there are copies.
    pub(crate) least: Option<GroupStart>,
}

impl Span {
    ghost use Rattle.std.specs.Prelude.{◌≡◌};

    /// What its handles own.
    pub(crate) fn owned(self) -> Owned
        ensures copies { result.copies ≡ self.copies }
        ensures frees { result.frees ≡ self.frees }
    {
        Owned {
            copies: self.copies,
            frees: self.frees,
        }
    }
}

/// The end of the span of the handle before `low`, if it is at most `until`. A search that has come to `low`
/// can go over the whole span, and counts no home twice, where the handles from `low` up to `until` are idle.
pub(crate) fn span_end(low: usize, until: usize) -> Option<usize>
    requires order { (0 < low) × (low ≤ until) }
    ensures end { IfSome result (λ end. (end % 8 ≡ 0) × (end < low + 8)) }
    ensures inside { IfSome result (λ end. (low ≤ end) × (end ≤ until)) }
{
    let place = (low - 1) / SPAN;
    if place >= until / SPAN {
        return None;
    }
    Some((place + 1) * SPAN)
}

/// Forgets the span with a handle, if there is one.
pub(crate) fn forget(spans: &mut Vec<Option<Span>>, handle: usize)
    ensures places { length spans.new.items ≡ length spans.old.items }
    ensures others { (k : ℕ) (s : SpanValue) → span_at spans.new.items k ≡ Some s →
        (span_at spans.old.items k ≡ Some s) × (k ≢ handle / 8) }
{
    let place = handle / SPAN;
    if place < spans.len() {
        spans[place] = None;
    }
}
