/// What a certificate claims of a queue: a cut that takes the fewest log blocks, or that no cut fits the limit.
#[derive(Debug, Drop, PartialEq, Eq)]
pub enum CertAnswer {
    /// A cut, by the ends of its pieces, each a number of handles, and the log blocks of its groups added up.
    Cut {
        /// The ends of the pieces, the opening 0 included.
        bounds: Vec<usize>,
        /// The log blocks of all groups.
        total: u64,
    },
    /// No cut fits the limit.
    NoCut,
}

/// A claim on a queue of handles, with the prices that prove it.
#[derive(Debug, Drop, PartialEq, Eq)]
pub struct Cert {
    /// Price i is the fewest log blocks in which the first i handles fit, or `None` where they do not.
    pub prices: Vec<Option<u64>>,
    /// The cut, or that there is none.
    pub answer: CertAnswer,
}
