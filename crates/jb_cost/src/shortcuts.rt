use crate::group_start::GroupStart;
use crate::join::joined;
use crate::owned::Owned;
use crate::span::{SPAN, Span};
use crate::stretch::{PricedStart, Stretch};
use jb_block::Memory;
use std::alloc::Global;

/// What earlier searches found out, so that a search does not look at each handle.
#[derive(Drop)]
pub(crate) struct Shortcuts {
    /// For each handle the starts that cost as much as the one with it.
    pub(crate) stretches: Vec<Stretch>,
    /// For each eight handles what they own and their best start, if that was counted and has not
    /// changed since.
    pub(crate) spans: Vec<Option<Span>>,
}

impl Shortcuts {
    ghost use Rattle.std.specs.Prelude.{◌≡◌, ℕ, [], ◌∷◌, ◌++◌, ◌+◌, ◌*◌, ◌/◌, ◌%◌, ◌^◌};
    ghost use Rattle.std.specs.Prelude.{◌<◌, ◌≤◌, List, Option, Some, length, OnOk};
    ghost use Rattle.jb_cost.specs.declared.span.Span.{Span as SpanValue};
    ghost use Rattle.jb_cost.specs.LastTouch.{all_owned};
    ghost use Rattle.jb_cost.specs.Starts.{LeastPrice, BestStart, AreIdle, GoBack, AreLeast, stretch_at};
    ghost use Rattle.jb_cost.specs.Spans.{IsSpan, IsBestOf, span_at, FitOwned, FitPrices, StillFit};

    /// Those of no handles. Takes no memory.
    pub(crate) fn new(alloc: Global) -> Shortcuts
        ensures stretches { result.stretches.items ≡ [] }
        ensures spans { result.spans.items ≡ [] }
    {
        Shortcuts {
            stretches: Vec::new(alloc),
            spans: Vec::new(alloc),
        }
    }

    /// Adds the stretch of a further handle, which is its own start alone.
    pub(crate) fn push(&mut self, from: usize, least: Option<PricedStart>) -> Result<(), Memory>
        ensures stretches { OnOk result
            (self.new.stretches.items ≡ self.old.stretches.items ++ record { from = from; least = least } ∷ []) }
        ensures places { OnOk result (length self.old.spans.items ≡ length self.old.stretches.items / 8 →
            length self.new.spans.items ≡ length self.new.stretches.items / 8) }
        ensures spans { OnOk result ((k : ℕ) (s : SpanValue) → span_at self.new.spans.items k ≡ Some s →
            span_at self.old.spans.items k ≡ Some s) }
    {
        self.stretches.push(Stretch { from, least })?;
        if self.stretches.len().is_multiple_of(SPAN) {
            self.spans.push(None)?;
        }
        Ok(())
    }

    /// The stretch that ends with a handle, with those before it that have become idle. Each of these
    /// is passed over for good.
    pub(crate) fn stretch(&mut self, owned: &[Owned], start: usize) -> Stretch
        requires inside { start < length owned.now }
        requires fit { FitOwned owned.now self.old }
        ensures fit { StillFit owned.now self.old self.new }
        ensures back { result.from ≤ start }
        ensures idle { AreIdle owned.now result.from start }
        ensures least { (ps : List (Option ℕ)) → FitPrices ps owned.now self.old →
            LeastPrice ps result.from (start + 1) result.least }
    {
        let stretch = joined(owned, &self.stretches, start);
        self.stretches[start] = stretch;
        stretch
    }

    /// The span before a handle, where one ends.
    pub(crate) fn span(&mut self, owned: &[Owned], end: usize) -> Span
        requires few { all_owned owned.now ≤ 2 ^ 62 }
        requires inside { (0 < end) × (end ≤ length owned.now) }
        requires whole { end % 8 ≡ 0 }
        requires fit { FitOwned owned.now self.old }
        ensures fit { StillFit owned.now self.old self.new }
        ensures span { IsSpan owned.now end result }
        ensures best { (ps : List (Option ℕ)) → FitPrices ps owned.now self.old →
            IsBestOf ps owned.now end result }
    {
        let place = end / SPAN - 1;
        if let Some(span) = self.spans[place] {
            return span;
        }
        let span = self.counted(owned, end);
        self.spans[place] = Some(span);
        span
    }

    /// The span before a handle, by a walk over its stretches.
    fn counted(&mut self, owned: &[Owned], end: usize) -> Span
        requires few { all_owned owned.now ≤ 2 ^ 62 }
        requires inside { (8 ≤ end) × (end ≤ length owned.now) }
        requires fit { FitOwned owned.now self.old }
        ensures fit { StillFit owned.now self.old self.new }
        ensures span { IsSpan owned.now end result }
        ensures best { (ps : List (Option ℕ)) → FitPrices ps owned.now self.old →
            IsBestOf ps owned.now end result }
    {
        let mut sum = Owned::none();
        let mut least = None;
        let mut low = end;
        while low > end - SPAN {
            let start = low - 1;
            sum = sum.plus(owned[start]);
            let stretch = self.stretch(owned, start);
            least = GroupStart::better(least, GroupStart::of(stretch.least, sum.copies));
            low = stretch.from;
        }
        Span {
            from: low,
            copies: sum.copies,
            frees: sum.frees,
            least,
        }
    }
}
