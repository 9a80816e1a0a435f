use thiserror::Error;

/// What the check of a certificate says of it.
#[derive(Clone, Copy, Debug, PartialEq, Eq)]
pub enum Verdict {
    /// The claimed cut takes the fewest log blocks, or no cut fits, as claimed.
    Accepted,
    /// The first fault of the certificate.
    Refused(Reason),
}

/// The faults of a certificate, in the order in which they are tested. Bounds count handles.
#[derive(Clone, Copy, Debug, PartialEq, Eq, Error)]
pub enum Reason {
    /// The price of no handles is not 0.
    #[error("the price of no handles is not 0")]
    OpeningPrice,
    /// The handles from the first bound up to the second fit one group, and with it the second bound
    /// costs less than its price: the least first bound, and of its second bounds the least.
    #[error("the group from {0} to {1} makes the price at {1} too high")]
    Undercut(usize, usize),
    /// The bounds do not begin with 0, do not rise, or do not end with the number of handles.
    #[error("the bounds do not rise from 0 to the number of handles")]
    NotACut,
    /// The handles from the first bound up to the second take more log blocks than the limit: the
    /// first such group of the cut.
    #[error("the group from {0} to {1} takes more log blocks than the limit")]
    OverLimit(usize, usize),
    /// The stated total is not the sum of the groups' costs.
    #[error("the total is not the sum of the groups' costs")]
    TotalDiffers,
    /// The last price is not the total, or is a number where no cut is claimed.
    #[error("the last price is not the total, or is a number where no cut is claimed")]
    EndPrice,
}
