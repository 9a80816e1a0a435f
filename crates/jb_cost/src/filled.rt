ghost use Rattle.std.specs.Prelude.{◌≡◌, ◌↔◌, ◌+◌, ◌*◌, ◌^◌, ◌<◌, ◌≤◌};
ghost use Rattle.std.specs.Int.{div_ceil};

/// Entries that are put into blocks, of which each holds this many, and the blocks that they take.
#[derive(Clone, Copy)]
pub(crate) struct Filled {
    pub(crate) per: u32,
    pub(crate) entries: u64,
    pub(crate) blocks: u64,
    /// The entries that these blocks have room for.
    room: u64,
    ghost some: { 1 ≤ per },
    ghost enough: { blocks ≡ div_ceil entries per },
    ghost full: { room ≡ blocks * per },
}

impl Filled {
    /// No entries, of which a block holds this many.
    pub(crate) fn none(per: u32) -> Filled
        requires { 1 ≤ per }
        ensures per { result.per ≡ per }
        ensures entries { result.entries ≡ 0 }
    {
        Filled {
            per,
            entries: 0,
            blocks: 0,
            room: 0,
        }
    }

    /// With this many entries more. Only where they need a further block is there a division.
    pub(crate) fn with(self, more: u64) -> Filled
        requires { self.entries + more ≤ 2 ^ 62 }
        ensures per { result.per ≡ self.per }
        ensures entries { result.entries ≡ self.entries + more }
    {
        let entries = self.entries + more;
        if entries <= self.room {
            return Filled {
                per: self.per,
                entries,
                blocks: self.blocks,
                room: self.room,
            };
        }
        let per = u64::from(self.per);
        let blocks = entries.div_ceil(per);
        Filled {
            per: self.per,
            entries,
            blocks,
            room: blocks * per,
        }
    }
}
