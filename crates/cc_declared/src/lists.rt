//! Lists that are made one by one, up to the first fault.

ghost use Rattle.std.specs.Prelude.{◌≡◌, [], ◌∷◌, IfOk};
ghost use Rattle.cc_declared.specs.Lists as spec;
ghost use Rattle.cc_faults.specs.Faults.{noted};
ghost use Rattle.cc_faults.specs.declared.fault.TypeKind.TheVariants as kind;

use cc_base::{Memory, Place};
use cc_faults::{FaultAt, Identifier, Least, TypeKind, note};
use cc_typed::DataType;
use sqlite_items::Items;

/// One more type at the end, or the first fault.
#[tactic(auto, unfolding(crate::specs::Lists::and_put))]
pub(crate) fn put(
    all: Result<Items<DataType>, FaultAt>,
    one: Result<DataType, FaultAt>,
) -> Result<Result<Items<DataType>, FaultAt>, Memory>
    ensures { IfOk result (λ r. r ≡ spec.and_put all one) }
{
    match all {
        Err(fault) => Ok(Err(fault)),
        Ok(all) => match one {
            Err(fault) => Ok(Err(fault)),
            Ok(t) => {
                let mut all = all;
                all.push(t)?;
                Ok(Ok(all))
            }
        },
    }
}

/// What was found first, unless the second has a fault.
#[tactic(auto, unfolding(crate::specs::Lists::and_keep))]
pub(crate) fn keep<T: Drop, U: Drop>(
    all: Result<T, FaultAt>,
    one: Result<U, FaultAt>,
) -> Result<T, FaultAt>
    ensures { result ≡ spec.and_keep all one }
{
    match all {
        Err(fault) => Err(fault),
        Ok(v) => match one {
            Err(fault) => Err(fault),
            Ok(_) => Ok(v),
        },
    }
}

/// What was found, unless its name is taken.
#[tactic(auto, unfolding(crate::specs::Lists::unless_taken))]
pub(crate) fn unless_taken<T: Drop>(
    taken: bool,
    x: Identifier,
    found: Result<T, FaultAt>,
) -> Result<T, FaultAt>
    ensures { result ≡ spec.unless_taken taken x found }
{
    if taken {
        return Err(FaultAt {
            place: x.place,
            kind: TypeKind::Duplicate,
        });
    }
    found
}

/// Notes a fault, and gives it.
#[tactic(auto, using(crate::proofs::Laws::rules))]
pub(crate) fn noted_fault(least: &mut Least, place: Place, kind: TypeKind) -> FaultAt
    ensures fault { result ≡ record { place = place; kind = kind } }
    ensures noted { least.new ≡ noted least.old (record { place = place; kind = kind } ∷ []) }
{
    let fault = FaultAt { place, kind };
    note(least, fault);
    fault
}
