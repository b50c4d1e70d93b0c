//! The rows that are asked of where a phrase stands.

ghost use Rattle.std.specs.Prelude.{◌≡◌, if◌then◌else◌};
ghost use Rattle.cc_faults.specs.Faults.{noted};
ghost use Rattle.cc_faults.specs.Judged.{answer, faults};
ghost use Rattle.cc_faults.specs.Rows as row;
ghost use Rattle.cc_faults.specs.declared.answer.Answer.TheVariants as an;

use cc_base::Place;
use cc_faults::{Answer, Around, FaultAt, Least, Leaves, Reply, Role, TypeKind, note, wrong};
use cc_typed::DataType;

/// AcceptPlace: the kind of the process body in which `accept` or `select` stands.
#[tactic(auto, using(crate::proofs::Laws::rows))]
pub fn in_body(least: &mut Least, role: Role, place: Place) -> Answer<Result<u32, FaultAt>>
    ensures value { result ≡ answer (row.in_body role place) }
    ensures noted { least.new ≡ noted least.old (faults (row.in_body role place)) }
{
    match role {
        Role::Body(kind) => Answer::Good(kind),
        _ => {
            wrong(least, place, TypeKind::AcceptPlace);
            Answer::Faulty
        }
    }
}

/// TreturnPlace: the type with which the accept replies that is round a `treturn`.
#[tactic(auto, using(crate::proofs::Laws::rows))]
pub fn replying(least: &mut Least, reply: Reply, place: Place) -> Answer<DataType>
    ensures value { result ≡ answer (row.replying reply place) }
    ensures noted { least.new ≡ noted least.old (faults (row.replying reply place)) }
{
    match reply {
        Reply::Nowhere => {
            wrong(least, place, TypeKind::TreturnPlace);
            Answer::Faulty
        }
        Reply::With(Ok(t)) => Answer::Good(t),
        Reply::With(Err(fault)) => {
            note(least, fault);
            Answer::Typeless
        }
    }
}

/// LoopPlace and LeavesAccept: what `break` and `continue` leave or go on with.
#[tactic(auto, using(crate::proofs::Laws::rows))]
pub fn leaving(least: &mut Least, leaves: Leaves, place: Place) -> Answer<()>
    ensures value { result ≡ answer (row.leaving leaves place) }
    ensures noted { least.new ≡ noted least.old (faults (row.leaving leaves place)) }
{
    match leaves {
        Leaves::Nothing => {
            wrong(least, place, TypeKind::LoopPlace);
            Answer::Faulty
        }
        Leaves::Inside => Answer::Good(()),
        Leaves::Outside => {
            wrong(least, place, TypeKind::LeavesAccept);
            Answer::Faulty
        }
    }
}

/// LeavesAccept: no `return` stands in an accept's block.
#[tactic(auto, using(crate::proofs::Laws::rows))]
pub fn outside_accept(least: &mut Least, reply: Reply, place: Place) -> Answer<()>
    ensures value { result ≡ answer (row.outside_accept reply place) }
    ensures noted { least.new ≡ noted least.old (faults (row.outside_accept reply place)) }
{
    match reply {
        Reply::Nowhere => Answer::Good(()),
        Reply::With(_) => {
            wrong(least, place, TypeKind::LeavesAccept);
            Answer::Faulty
        }
    }
}

/// NotPure: a part of a kind that no pure expression is made of.
#[tactic(auto, using(crate::proofs::Laws::rows))]
pub fn impure(least: &mut Least, around: Around, place: Place) -> Answer<()>
    ensures value { result ≡ answer (row.impure around place) }
    ensures noted { least.new ≡ noted least.old (faults (row.impure around place)) }
{
    if around.pure {
        wrong(least, place, TypeKind::NotPure);
        return Answer::Faulty;
    }
    Answer::Good(())
}

/// NotPure of a field or an element, which is pure where it is one of a place.
#[tactic(auto, using(crate::proofs::Laws::rows))]
pub fn impure_part(least: &mut Least, is_place: bool, around: Around, place: Place) -> Answer<()>
    ensures value { result ≡ (if is_place then an.Good tt else answer (row.impure around place)) }
    ensures noted { least.new ≡ (if is_place then least.old else noted least.old (faults (row.impure around place))) }
{
    if is_place {
        return Answer::Good(());
    }
    impure(least, around, place)
}
