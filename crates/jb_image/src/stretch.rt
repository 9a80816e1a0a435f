//! Stretches of the bytes of a file or a device.
ghost use Rattle.std.specs.Prelude.{◌≡◌, IsTrue};
ghost use Rattle.jb_image.specs.Stretches.{Meet, all_bytes, bytes_from, placed_in};

/// The bytes from one place on and before another one.
#[derive(Clone, Copy)]
pub(crate) struct ByteStretch {
    /// The place of the first byte.
    from: u64,
    /// The place after the last one; `u64::MAX` where there is no last one.
    end: u64,
}

impl ByteStretch {
    /// All bytes.
    pub fn all() -> ByteStretch
        ensures value { result ≡ all_bytes }
    {
        ByteStretch {
            from: 0,
            end: u64::MAX,
        }
    }

    /// This many bytes from a place on; all from there on, where the length is 0, as the system says of a loop device.
    pub fn new(from: u64, len: u64) -> ByteStretch
        ensures value { result ≡ bytes_from from len }
    {
        ByteStretch {
            from,
            end: if len == 0 {
                u64::MAX
            } else {
                from.saturating_add(len)
            },
        }
    }

    /// The bytes of this stretch of a device as bytes of what is below it, of which the device is a stretch.
    pub fn placed_in(self, held: ByteStretch) -> ByteStretch
        ensures value { result ≡ placed_in self held }
    {
        ByteStretch {
            from: held.from.saturating_add(self.from),
            end: held.from.saturating_add(self.end).min(held.end),
        }
    }

    /// Whether two stretches have a byte in common.
    pub fn meets(self, other: ByteStretch) -> bool
        ensures common { IsTrue result → Meet self other }
        ensures all { Meet self other → IsTrue result }
    {
        let from = self.from.max(other.from);
        from < self.end && from < other.end
    }
}
