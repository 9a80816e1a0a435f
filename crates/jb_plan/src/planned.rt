/// How a queue of handles is best cut into groups.
#[derive(Debug, Drop, PartialEq, Eq)]
pub enum Answer {
    /// A cut that fits the limit, where no cut that fits it takes fewer log blocks.
    Cut {
        /// The bounds of the groups, counted in handles: 0 first, then the end of each group.
        bounds: Vec<usize>,
        /// The log blocks that the groups take, added up.
        total: u64,
    },
    /// No cut fits: some handle alone takes more log blocks than the limit.
    NoCut,
}

/// What `plan` found out about a queue of handles.
#[derive(Debug, Drop, PartialEq, Eq)]
pub struct Planned {
    /// A least cut of the queue, or that there is none.
    pub answer: Answer,
    /// Price i is the least number of log blocks that the first i handles take, or `None` where no
    /// cut of them fits; one price more than handles.
    pub prices: Vec<Option<u64>>,
}
