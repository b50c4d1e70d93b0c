ghost use Rattle.std.specs.Prelude.{◌≡◌};
ghost use Rattle.cc_source.specs.Gives.{is_ended};

use sqlite_items::Items;

/// How a statement ended, with the cells of the value that it gives.
#[derive(Drop)]
pub(crate) enum Ending {
    /// By itself.
    Ended,
    /// By `break`.
    Broke,
    /// By `continue`.
    Continued,
    /// By `return` in a function, with its value.
    Returned(Items<i64>),
    /// By `treturn`, with the value of the transaction.
    Replied(Items<i64>),
    /// By `return` in `main` or a process body.
    Finished,
}

impl Ending {
    /// Whether what follows goes on.
    pub(crate) fn is_by_itself(&self) -> bool
        ensures ended { result ≡ is_ended self.now }
    {
        matches!(self, Ending::Ended)
    }
}
