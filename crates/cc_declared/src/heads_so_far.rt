use crate::visible::Visible;
use cc_faults::{FaultAt, KindHead, Signature};
use sqlite_items::Items;

/// What is known of the items so far: what is visible behind them, how many transactions they have, the heads of the functions but `main`,
/// and those of the process types.
#[derive(Drop)]
pub(crate) struct Heads {
    pub(crate) visible: Visible,
    pub(crate) transactions: u32,
    pub(crate) functions: Items<Result<Signature, FaultAt>>,
    pub(crate) kinds: Items<KindHead>,
}
