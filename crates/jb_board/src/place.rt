use std::marker::Brand;

/// Names one history, which the caller picks where it passes [`Brand`].
pub trait Place {
    ghost use Rattle.atomic_table.specs.Seated.{TableId};

    /// Its identity.
    ghost history: { TableId };
}

impl Place for Brand {
    ghost use Rattle.jb_board.specs.Place.{nowhere};

    ghost history = { nowhere };
}
