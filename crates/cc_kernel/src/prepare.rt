ghost use Rattle.std.specs.Prelude.{◌≡◌, ◌<◌, ◌≤◌, ◌++◌, ℕ, ℤ, List, All, IfNone, IfOk, IfSome, OnOk, length, pos, replicate};
ghost use Rattle.cc_base.specs.Grants.{HasKind};
ghost use Rattle.cc_base.specs.declared.request.Request.TheVariants.{Create};
ghost use Rattle.cc_kernel.specs.Contract.{IsEnoughFor, Moment};
ghost use Rattle.cc_kernel.specs.Invariant.{HasRoom, IsReadyFor, prepared_for};
ghost use Rattle.cc_kernel.specs.Store.{contents};
ghost use Rattle.cc_kernel.specs.declared.store.Store.{Store};
ghost use Rattle.cc_kernel.specs.Stacks.{AreWithin, served_by};

use crate::need::Need;
use crate::store::Store;
use cc_base::{Behave, Cells, Memory, Request};
use cc_rules::Journal;
use std::alloc::Global;
use std::sync::Arc;

/// Makes room for the events, the calls, the deadline and the process of one step.
pub(crate) fn make_room<P: Drop>(store: &mut Store<P>, journal: &mut Journal) -> Result<(), Memory>
    ensures contents { contents store.new ≡ contents store.old }
    ensures most { store.new.most ≡ store.old.most }
    ensures items { journal.new.items ≡ journal.old.items }
    ensures ok { OnOk result (HasRoom store.new journal.new.spare) }
    ensures room { HasRoom store.old journal.old.spare → HasRoom store.new journal.new.spare }
{
    store.deadlines.reserve_one()?;
    journal.reserve(store.deadlines.count() + 4)?;
    store.pending.reserve_one()?;
    store.served.reserve_one()?;
    store.seats.reserve_one()
}

// The cells with so many zeros at their end.
fn with_zeros(value: &Cells, zeros: usize) -> Result<Cells, Memory>
    ensures { IfOk result (λ cells. cells ≡ value.now ++ replicate zeros (pos 0)) }
{
    let mut cells = value.copy()?;
    for _ in 0..zeros {
        cells.push(0)?;
    }
    Ok(cells)
}

/// What has to be made for the request, where the value of no call that is served has more cells than this.
pub(crate) fn need_for<B: Behave>(
    code: &Arc<B>,
    alloc: Global,
    most: usize,
    request: &Request,
) -> Result<Need<B::Proc>, Memory>
    requires kind { (kind : ℕ) (args : List ℤ) → request.now ≡ Create kind args → HasKind (B.means code.now.value) kind (length args) }
    ensures enough { IfOk result (λ need. IsEnoughFor (prepared_for need) request.now) }
    ensures ready { IfOk result (λ need. (store : Store B.Proc) (events : ℕ) → AreWithin (B.means code.now.value) most (served_by store.served) → HasRoom store events → IsReadyFor (B.means code.now.value) (B.at code.now.value) store events need) }
{
    match request {
        Request::Create { kind, args } => {
            let own = args.copy()?;
            let process = B::start(code, alloc, *kind, args.copy()?)?;
            Ok(Need::Making {
                kind: *kind,
                args: own,
                process,
            })
        }
        Request::Reply { value } => {
            let value = with_zeros(value, most)?;
            Ok(Need::Answering { value, zeros: most })
        }
        _ => Ok(Need::Step),
    }
}

/// What has to be made for the request, or for a Time, where the value of no call that is served has more cells than this.
pub(crate) fn need_of<B: Behave>(
    code: &Arc<B>,
    alloc: Global,
    most: usize,
    next: Option<&Request>,
) -> Result<Need<B::Proc>, Memory>
    requires kind { IfSome next (λ r. (kind : ℕ) (args : List ℤ) → r.now ≡ Create kind args → HasKind (B.means code.now.value) kind (length args)) }
    ensures request { IfSome next.entry (λ r. IfOk result (λ need. IsEnoughFor (prepared_for need) r.now)) }
    ensures time { IfNone next.entry (IfOk result (λ need. prepared_for need ≡ Moment)) }
    ensures ready { IfOk result (λ need. (store : Store B.Proc) (events : ℕ) → AreWithin (B.means code.now.value) most (served_by store.served) → HasRoom store events → IsReadyFor (B.means code.now.value) (B.at code.now.value) store events need) }
{
    match next {
        None => Ok(Need::Moment),
        Some(request) => need_for(code, alloc, most, request),
    }
}
