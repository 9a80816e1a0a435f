use crate::stretch::PricedStart;

/// A start of a group, with its price and the cost of the group.
#[derive(Clone, Copy, Debug, PartialEq, Eq)]
pub struct GroupStart {
    /// The first handle of the group.
    pub from: usize,
    /// The price of the start: the log blocks of the handles before it.
    pub price: u64,
    /// The log blocks of the group.
    pub cost: u64,
}

impl GroupStart {
    ghost use Rattle.std.specs.Prelude.{◌≡◌, ◌+◌, ◌^◌, ◌<◌, Option, Some};
    ghost use Rattle.jb_cost.specs.Starts.{better_of, dearer_by, found_start};

    /// A start whose group costs so much, if there is one.
    pub(crate) fn of(start: Option<PricedStart>, cost: u64) -> Option<GroupStart>
        ensures { result ≡ found_start start cost }
    {
        let Some(start) = start else { return None };
        Some(GroupStart {
            from: start.from,
            price: start.price,
            cost,
        })
    }

    /// The same start, where the group costs so much more.
    pub(crate) fn dearer(self, more: u64) -> GroupStart
        requires { self.cost + more < 2 ^ 64 }
        ensures { Some result ≡ dearer_by more (Some self) }
    {
        GroupStart {
            from: self.from,
            price: self.price,
            cost: self.cost + more,
        }
    }

    /// The better of the best start so far and an earlier one; the earlier one where they are equal.
    pub(crate) fn better(
        best: Option<GroupStart>,
        earlier: Option<GroupStart>,
    ) -> Option<GroupStart>
        ensures { result ≡ better_of best earlier }
    {
        let Some(found) = earlier else { return best };
        match best {
            Some(best) if best.sum() < found.sum() => Some(best),
            _ => Some(found),
        }
    }

    /// Price and cost added up. The sum of any two fits in 128 bits.
    pub fn sum(self) -> u128
        ensures { result ≡ self.price + self.cost }
    {
        u128::from(self.price) + u128::from(self.cost)
    }
}
