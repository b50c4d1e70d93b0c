/// Where the reading of a format stands.
#[derive(Clone, Copy, Drop)]
pub(crate) enum Reading {
    Plain,
    /// After a `%`.
    Percent,
    /// After `%l`.
    Long,
}

/// What a byte of a format may be after a `%`.
#[derive(Clone, Copy, Drop)]
pub(crate) enum Mark {
    Percent,
    Decimal,
    Character,
    Long,
    Other,
}
