//! Accepts: the transaction, and what is known of it as an outcome, which each name of the accept and each `treturn` has.

ghost use Rattle.std.specs.Option.{option_copied};
ghost use Rattle.std.specs.Prelude.{◌≡◌, List};
ghost use Rattle.std.specs.Result.{result_map_both};
ghost use Rattle.cc_faults.specs.Faults.{noted};
ghost use Rattle.cc_faults.specs.Judged.{answer, answer_map, answer_pair, checked, faults, map, outcome};
ghost use Rattle.cc_faults.specs.Rows as row;
ghost use Rattle.cc_faults.specs.Statements as statement;
ghost use Rattle.cc_faults.specs.declared.fault.TypeKind.TheVariants as kind;
ghost use Rattle.cc_rows.specs.Accepts as accept;
ghost use Rattle.cc_rows.specs.Accepts.{types_in};
ghost use Rattle.cc_rows.specs.Called.{transaction_in};

use crate::calls::{Transaction, counted_transaction, known_transaction};
use crate::places::in_body;
use crate::values::{type_at, type_or_void};
use cc_base::Place;
use cc_faults::{
    Answer, FaultAt, Identifier, Least, Role, TransactionHead, TypeKind, known_part, pair,
};
use cc_typed::{AcceptPart, DataType, Statement};
use sqlite_items::Items;

/// UnknownTransaction and Arity: the transaction that is accepted in a body, with as many names as it has parameters.
#[tactic(auto, using(crate::proofs::Laws::joined))]
pub fn accepted<'t>(
    least: &mut Least,
    role: Role,
    place: Place,
    x: Identifier,
    head: Option<&'t TransactionHead>,
    names: usize,
) -> Answer<Transaction<'t>>
    ensures value { answer_map transaction_in result ≡ answer (accept.accepted role place x (option_copied head.entry) names) }
    ensures noted { least.new ≡ noted least.old (faults (accept.accepted role place x (option_copied head.entry) names)) }
{
    let kind = in_body(least, role, place);
    match known_part(least, kind) {
        Answer::Good(_) => {
            let found = known_transaction(least, x, head);
            counted_transaction(least, x.place, names, found)
        }
        Answer::Typeless => Answer::Typeless,
        Answer::Faulty => Answer::Faulty,
    }
}

/// The value that a transaction has: an asynchronous one has none, whatever its line holds.
#[tactic(auto, using(crate::proofs::Laws::outcomes))]
fn value_back_of(head: &TransactionHead) -> Result<DataType, FaultAt>
    ensures { result ≡ outcome (statement.value_back_of head.now) }
{
    if head.is_async {
        return Ok(DataType::Void);
    }
    match &head.signature {
        Ok(types) => Ok(types.result),
        Err(fault) => Err(*fault),
    }
}

/// What is known of a transaction that isn't there.
fn unknown_transaction(x: Identifier) -> FaultAt
    ensures { result ≡ record { place = x.place; kind = kind.UnknownTransaction } }
{
    FaultAt {
        place: x.place,
        kind: TypeKind::UnknownTransaction,
    }
}

/// What is known of an accept that stands in no body.
fn accept_outside(place: Place) -> FaultAt
    ensures { result ≡ record { place = place; kind = kind.AcceptPlace } }
{
    FaultAt {
        place,
        kind: TypeKind::AcceptPlace,
    }
}

/// The value of a transaction that is accepted, where it is there.
#[tactic(auto, using(crate::proofs::Laws::outcomes))]
fn reply_with(x: Identifier, head: Option<&TransactionHead>) -> Result<DataType, FaultAt>
    ensures { result ≡ outcome (checked (row.has_transaction x (option_copied head.entry)) statement.value_back_of) }
{
    match head {
        None => Err(unknown_transaction(x)),
        Some(head) => value_back_of(head),
    }
}

/// With what an accept replies, or the fault for which that isn't known.
#[tactic(auto, using(crate::proofs::Laws::outcomes))]
pub fn reply_of(
    role: Role,
    place: Place,
    x: Identifier,
    head: Option<&TransactionHead>,
) -> Result<DataType, FaultAt>
    ensures reply { result ≡ outcome (checked (accept.transaction_accepted role place x (option_copied head.entry)) statement.value_back_of) }
{
    match role {
        Role::Body(Ok(_)) => reply_with(x, head),
        Role::Body(Err(fault)) => Err(fault),
        _ => Err(accept_outside(place)),
    }
}

/// The types of a transaction's parameters, where there are as many names.
#[tactic(auto, using(crate::proofs::Laws::outcomes))]
fn types_counted<'t>(
    place: Place,
    head: &'t TransactionHead,
    names: usize,
) -> Result<&'t [DataType], FaultAt>
    ensures { types_in result ≡ outcome (map statement.parameter_types (accept.counted place names head.now)) }
{
    match &head.signature {
        Ok(types) => {
            if names != types.parameters.len() {
                return Err(FaultAt {
                    place,
                    kind: TypeKind::Arity,
                });
            }
            Ok(types.parameters.as_slice())
        }
        Err(fault) => Err(*fault),
    }
}

/// The types of the parameters of a transaction that is accepted, where it is there.
#[tactic(auto, using(crate::proofs::Laws::outcomes))]
fn types_named<'t>(
    x: Identifier,
    head: Option<&'t TransactionHead>,
    names: usize,
) -> Result<&'t [DataType], FaultAt>
    ensures { types_in result ≡ outcome (map statement.parameter_types (checked (row.has_transaction x (option_copied head.entry)) (accept.counted x.place names))) }
{
    match head {
        None => Err(unknown_transaction(x)),
        Some(head) => types_counted(x.place, head, names),
    }
}

/// The types that an accept's names have, or the fault for which they aren't known.
#[tactic(auto, using(crate::proofs::Laws::outcomes))]
pub fn types_accepted<'t>(
    role: Role,
    place: Place,
    x: Identifier,
    head: Option<&'t TransactionHead>,
    names: usize,
) -> Result<&'t [DataType], FaultAt>
    ensures types { types_in result ≡ outcome (map statement.parameter_types (accept.accepted role place x (option_copied head.entry) names)) }
{
    match role {
        Role::Body(Ok(_)) => types_named(x, head, names),
        Role::Body(Err(fault)) => Err(fault),
        _ => Err(accept_outside(place)),
    }
}

/// The type of an accept's name of this number, or the fault for which it isn't known.
pub fn type_of_name(types: Result<&[DataType], FaultAt>, number: usize) -> Result<DataType, FaultAt>
    ensures of { result ≡ result_map_both (statement.kth number) (λ (f : FaultAt). f) (types_in types.entry) }
{
    match types {
        Ok(types) => Ok(type_or_void(type_at(types, number))),
        Err(fault) => Err(fault),
    }
}

/// An accept with the site of this number.
pub fn part_made<H: Drop>(
    site: u32,
    head: Answer<H>,
    block: Answer<Items<Statement>>,
) -> Answer<AcceptPart>
    ensures part { result ≡ answer_map (λ (v : H × List Statement). record { site = site; block = v.1 }) (answer_pair head block) }
{
    match pair(head, block) {
        Answer::Good((_, block)) => Answer::Good(AcceptPart { site, block }),
        Answer::Typeless => Answer::Typeless,
        Answer::Faulty => Answer::Faulty,
    }
}
