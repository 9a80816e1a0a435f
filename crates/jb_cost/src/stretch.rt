/// A start of a group, and its price.
#[derive(Clone, Copy)]
pub(crate) struct PricedStart {
    pub(crate) from: usize,
    pub(crate) price: u64,
}

impl PricedStart {
    ghost use Rattle.std.specs.Prelude.{◌≡◌};
    ghost use Rattle.jb_cost.specs.Starts.{priced_of, lesser_of};

    /// A start with its price, if it has one.
    pub(crate) fn of(from: usize, price: Option<u64>) -> Option<PricedStart>
        ensures { result ≡ priced_of from price }
    {
        match price {
            Some(price) => Some(PricedStart { from, price }),
            None => None,
        }
    }

    /// The one with the lesser price of two starts, the earlier one where the prices are equal.
    pub(crate) fn lesser(
        earlier: Option<PricedStart>,
        later: Option<PricedStart>,
    ) -> Option<PricedStart>
        ensures { result ≡ lesser_of earlier later }
    {
        let Some(first) = earlier else { return later };
        match later {
            Some(later) if later.price < first.price => Some(later),
            _ => Some(first),
        }
    }
}

/// The starts from `from` up to a handle: those between them are idle, so that a group costs the same
/// from each. The one with the least price represents them all.
#[derive(Clone, Copy)]
pub(crate) struct Stretch {
    pub(crate) from: usize,
    pub(crate) least: Option<PricedStart>,
}
