/// The handle that touched a home block last, and whether it left a copy there.
#[derive(Clone, Copy)]
pub(crate) struct Touch {
    pub(crate) handle: usize,
    pub(crate) copy: bool,
}

/// How many home blocks a handle owns, which are those that no later handle touches: the ones where
/// it left a copy, and the ones that it freed.
#[derive(Clone, Copy)]
pub(crate) struct Owned {
    pub(crate) copies: u64,
    pub(crate) frees: u64,
}

impl Owned {
    ghost use Rattle.std.specs.Prelude.{◌≡◌, ◌↔◌, ◌+◌, ◌^◌, ◌<◌, ◌≤◌, IsTrue, if◌then◌else◌};
    ghost use Rattle.jb_cost.specs.LastTouch.{IsIdle};

    pub(crate) fn none() -> Owned
        ensures copies { result.copies ≡ 0 }
        ensures frees { result.frees ≡ 0 }
    {
        Owned {
            copies: 0,
            frees: 0,
        }
    }

    /// With a home block more.
    pub(crate) fn with(self, copy: bool) -> Owned
        requires room { self.copies + self.frees + 1 < 2 ^ 64 }
        ensures copies { result.copies ≡ self.copies + (if copy then 1 else 0) }
        ensures frees { result.frees ≡ self.frees + (if copy then 0 else 1) }
    {
        if copy {
            Owned {
                copies: self.copies + 1,
                frees: self.frees,
            }
        } else {
            Owned {
                copies: self.copies,
                frees: self.frees + 1,
            }
        }
    }

    /// Without a home block that it owns.
    pub(crate) fn without(self, copy: bool) -> Owned
        requires copies { (if copy then 1 else 0) ≤ self.copies }
        requires frees { (if copy then 0 else 1) ≤ self.frees }
        ensures copies { result.copies + (if copy then 1 else 0) ≡ self.copies }
        ensures frees { result.frees + (if copy then 0 else 1) ≡ self.frees }
    {
        if copy {
            Owned {
                copies: self.copies - 1,
                frees: self.frees,
            }
        } else {
            Owned {
                copies: self.copies,
                frees: self.frees - 1,
            }
        }
    }

    /// What two handles own together.
    pub(crate) fn plus(self, other: Owned) -> Owned
        requires copies { self.copies + other.copies < 2 ^ 64 }
        requires frees { self.frees + other.frees < 2 ^ 64 }
        ensures copies { result.copies ≡ self.copies + other.copies }
        ensures frees { result.frees ≡ self.frees + other.frees }
    {
        Owned {
            copies: self.copies + other.copies,
            frees: self.frees + other.frees,
        }
    }

    /// Whether it owns nothing.
    pub(crate) fn is_idle(self) -> bool
        ensures { IsTrue result ↔ IsIdle self }
    {
        self.copies == 0 && self.frees == 0
    }
}
