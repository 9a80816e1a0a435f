//! Numbers that look like chance, the same at each run.
ghost use Rattle.std.specs.Prelude.{◌≡◌, ◌<◌};

/// A generator's state (Knuth's MMIX).
#[derive(Clone, Copy)]
pub struct Seed {
    pub state: u64,
}

impl Seed {
    /// The next number, of 31 bits.
    pub fn next(&mut self) -> u64 {
        self.state = self
            .state
            .wrapping_mul(6_364_136_223_846_793_005)
            .wrapping_add(1_442_695_040_888_963_407);
        self.state >> 33
    }

    /// A number below a limit, or 0.
    pub fn below(&mut self, limit: u64) -> u64
        ensures below { 0 < limit → result < limit }
        ensures none { limit ≡ 0 → result ≡ 0 }
    {
        let number = self.next();
        if limit == 0 { 0 } else { number % limit }
    }
}
