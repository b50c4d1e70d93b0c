//! What is called: functions, process types that are created, and transactions.

ghost use Rattle.std.specs.Option.{option_copied};
ghost use Rattle.std.specs.Prelude.{◌≡◌, ℕ, IfOk, List, length, slice_get};
ghost use Rattle.cc_faults.specs.Expressions as phrase;
ghost use Rattle.cc_faults.specs.Faults.{noted};
ghost use Rattle.cc_faults.specs.Judged.{answer, answer_map, answer_pair, answer_then, faults, faults_then, good_of, known, mapped};
ghost use Rattle.cc_faults.specs.Made as made;
ghost use Rattle.cc_faults.specs.Rows as row;
ghost use Rattle.cc_rows.specs.Called as called;
ghost use Rattle.cc_rows.specs.Taken.{taken};
ghost use Rattle.cc_rows.specs.Called.{behind_in, function_in, kind_in, transaction_from, transaction_in, types_in};

use crate::found::{parts_of, type_in, with_step};
use cc_base::Place;
use cc_faults::{
    Answer, FaultAt, Found, Identifier, KindHead, Least, Signature, TransactionHead, TypeKind,
    as_many, note, pair, wrong,
};
use cc_typed::{Argument, ChainStep, DataType, Expression};
use sqlite_items::Items;
use std::alloc::{AllocError, Global};

/// The types of parameters, and that of what is given back.
#[derive(Clone, Copy, Drop)]
pub struct Types<'t> {
    pub parameters: &'t [DataType],
    pub result: DataType,
}

/// A function: its number and its types.
#[derive(Clone, Copy, Drop)]
pub struct Function<'t> {
    pub number: u32,
    pub types: Types<'t>,
}

/// A process type: its number and the types of its parameters.
#[derive(Clone, Copy, Drop)]
pub struct Kind<'t> {
    pub number: u32,
    pub parameters: &'t [DataType],
}

/// A transaction and its types.
#[derive(Clone, Copy, Drop)]
pub struct Transaction<'t> {
    pub head: &'t TransactionHead,
    pub types: Types<'t>,
}

/// The types that are known of a head; the fault for which they aren't is noted.
#[tactic(auto, using(crate::proofs::Laws::rows))]
fn known_types<'t>(
    least: &mut Least,
    signature: &'t Result<Signature, FaultAt>,
) -> Answer<Types<'t>>
    ensures value { answer_map types_in result ≡ answer (known signature.now) }
    ensures noted { least.new ≡ noted least.old (faults (known signature.now)) }
{
    match signature {
        Ok(types) => Answer::Good(Types {
            parameters: types.parameters.as_slice(),
            result: types.result,
        }),
        Err(fault) => {
            note(least, *fault);
            Answer::Typeless
        }
    }
}

/// A function of this number, with what is known of its head.
#[tactic(auto, using(crate::proofs::Laws::joined))]
fn with_signature<'t>(
    least: &mut Least,
    number: u32,
    signature: Option<&'t Result<Signature, FaultAt>>,
) -> Answer<Function<'t>>
    ensures value { answer_map function_in result ≡ answer (phrase.with_signature number (option_copied signature.entry)) }
    ensures noted { least.new ≡ noted least.old (faults (phrase.with_signature number (option_copied signature.entry))) }
{
    let Some(signature) = signature else {
        let types = Types {
            parameters: &[],
            result: DataType::Void,
        };
        return Answer::Good(Function { number, types });
    };
    match known_types(least, signature) {
        Answer::Good(types) => Answer::Good(Function { number, types }),
        Answer::Typeless => Answer::Typeless,
        Answer::Faulty => Answer::Faulty,
    }
}

/// The function that is called, with its types; where its head has a fault, that is noted.
#[tactic(auto, using(crate::proofs::Laws::joined))]
pub fn function_head<'t>(
    least: &mut Least,
    functions: &'t [Result<Signature, FaultAt>],
    function: Answer<u32>,
) -> Answer<Function<'t>>
    ensures value { answer_map function_in result ≡ answer_then function (λ (f : ℕ). phrase.with_signature f (slice_get functions.now f)) }
    ensures noted { least.new ≡ noted least.old (faults_then function (λ (f : ℕ). phrase.with_signature f (slice_get functions.now f))) }
{
    match function {
        Answer::Good(number) => with_signature(least, number, functions.get(number as usize)),
        Answer::Typeless => Answer::Typeless,
        Answer::Faulty => Answer::Faulty,
    }
}

/// A process type of this number, with what is known of its parameters.
#[tactic(auto, using(crate::proofs::Laws::joined))]
fn with_parameters<'t>(
    least: &mut Least,
    number: u32,
    head: Option<&'t KindHead>,
) -> Answer<Kind<'t>>
    ensures value { answer_map kind_in result ≡ answer (phrase.with_parameters number (option_copied head.entry)) }
    ensures noted { least.new ≡ noted least.old (faults (phrase.with_parameters number (option_copied head.entry))) }
{
    let Some(head) = head else {
        return Answer::Good(Kind {
            number,
            parameters: &[],
        });
    };
    match &head.parameters {
        Ok(types) => Answer::Good(Kind {
            number,
            parameters: types.as_slice(),
        }),
        Err(fault) => {
            note(least, *fault);
            Answer::Typeless
        }
    }
}

/// The process type that is created, with the types of its parameters; where they have a fault, that is noted.
#[tactic(auto, using(crate::proofs::Laws::joined))]
pub fn kind_head<'t>(
    least: &mut Least,
    kinds: &'t [KindHead],
    kind: Answer<u32>,
) -> Answer<Kind<'t>>
    ensures value { answer_map kind_in result ≡ answer_then kind (λ (k : ℕ). phrase.with_parameters k (slice_get kinds.now k)) }
    ensures noted { least.new ≡ noted least.old (faults_then kind (λ (k : ℕ). phrase.with_parameters k (slice_get kinds.now k))) }
{
    match kind {
        Answer::Good(number) => with_parameters(least, number, kinds.get(number as usize)),
        Answer::Typeless => Answer::Typeless,
        Answer::Faulty => Answer::Faulty,
    }
}

/// UnknownTransaction: the transaction that is had by the name, with its types; where its line has a fault, that is noted.
#[tactic(auto, using(crate::proofs::Laws::joined))]
pub fn known_transaction<'t>(
    least: &mut Least,
    x: Identifier,
    head: Option<&'t TransactionHead>,
) -> Answer<Transaction<'t>>
    ensures value { answer_map transaction_in result ≡ answer (transaction_from x (option_copied head.entry)) }
    ensures noted { least.new ≡ noted least.old (faults (transaction_from x (option_copied head.entry))) }
{
    let Some(head) = head else {
        wrong(least, x.place, TypeKind::UnknownTransaction);
        return Answer::Faulty;
    };
    match known_types(least, &head.signature) {
        Answer::Good(types) => Answer::Good(Transaction { head, types }),
        Answer::Typeless => Answer::Typeless,
        Answer::Faulty => Answer::Faulty,
    }
}

/// UnknownTransaction: what is found, with the transaction of it that is called.
#[tactic(auto, using(crate::proofs::Laws::joined, crate::proofs::Behind::pairs))]
pub fn transaction_behind<'t>(
    least: &mut Least,
    x: Identifier,
    head: Option<&'t TransactionHead>,
    value: Answer<Found>,
) -> Answer<(Found, Transaction<'t>)>
    ensures value { answer_map behind_in result ≡ answer_then value (called.transaction_behind x (option_copied head.entry)) }
    ensures noted { least.new ≡ noted least.old (faults_then value (called.transaction_behind x (option_copied head.entry))) }
{
    match value {
        Answer::Good(found) => {
            let transaction = known_transaction(least, x, head);
            pair(Answer::Good(found), transaction)
        }
        Answer::Typeless => Answer::Typeless,
        Answer::Faulty => Answer::Faulty,
    }
}

/// Arity: a function with as many arguments as it has parameters.
#[tactic(auto, using(crate::proofs::Laws::rows))]
pub fn counted_function<'t>(
    least: &mut Least,
    place: Place,
    given: usize,
    function: Answer<Function<'t>>,
) -> Answer<Function<'t>>
    ensures value { answer_map function_in result ≡ answer_then (answer_map function_in function.entry) (λ (h : ℕ × Signature). row.as_many place given (length h.1.parameters) h) }
    ensures noted { least.new ≡ noted least.old (faults_then (answer_map function_in function.entry) (λ (h : ℕ × Signature). row.as_many place given (length h.1.parameters) h)) }
{
    match function {
        Answer::Good(function) => {
            if given != function.types.parameters.len() {
                wrong(least, place, TypeKind::Arity);
                return Answer::Faulty;
            }
            Answer::Good(function)
        }
        Answer::Typeless => Answer::Typeless,
        Answer::Faulty => Answer::Faulty,
    }
}

/// Arity: a process type with as many arguments as it has parameters.
#[tactic(auto, using(crate::proofs::Laws::rows))]
pub fn counted_kind<'t>(
    least: &mut Least,
    place: Place,
    given: usize,
    kind: Answer<Kind<'t>>,
) -> Answer<Kind<'t>>
    ensures value { answer_map kind_in result ≡ answer_then (answer_map kind_in kind.entry) (λ (h : ℕ × List DataType). row.as_many place given (length h.1) h) }
    ensures noted { least.new ≡ noted least.old (faults_then (answer_map kind_in kind.entry) (λ (h : ℕ × List DataType). row.as_many place given (length h.1) h)) }
{
    match kind {
        Answer::Good(kind) => {
            if given != kind.parameters.len() {
                wrong(least, place, TypeKind::Arity);
                return Answer::Faulty;
            }
            Answer::Good(kind)
        }
        Answer::Typeless => Answer::Typeless,
        Answer::Faulty => Answer::Faulty,
    }
}

/// Arity: a transaction that is accepted with as many names as it has parameters.
#[tactic(auto, using(crate::proofs::Laws::rows))]
pub fn counted_transaction<'t>(
    least: &mut Least,
    place: Place,
    given: usize,
    transaction: Answer<Transaction<'t>>,
) -> Answer<Transaction<'t>>
    ensures value { answer_map transaction_in result ≡ answer_then (answer_map transaction_in transaction.entry) (λ (h : TransactionHead × Signature). row.as_many place given (length h.1.parameters) h) }
    ensures noted { least.new ≡ noted least.old (faults_then (answer_map transaction_in transaction.entry) (λ (h : TransactionHead × Signature). row.as_many place given (length h.1.parameters) h)) }
{
    match transaction {
        Answer::Good(transaction) => {
            if given != transaction.types.parameters.len() {
                wrong(least, place, TypeKind::Arity);
                return Answer::Faulty;
            }
            Answer::Good(transaction)
        }
        Answer::Typeless => Answer::Typeless,
        Answer::Faulty => Answer::Faulty,
    }
}

/// Arity: a call of a transaction with as many arguments as it has parameters.
#[tactic(auto, using(crate::proofs::Laws::rows))]
pub fn counted_behind<'t>(
    least: &mut Least,
    place: Place,
    given: usize,
    call: Answer<(Found, Transaction<'t>)>,
) -> Answer<(Found, Transaction<'t>)>
    ensures value { answer_map behind_in result ≡ answer_then (answer_map behind_in call.entry) (λ (h : Found × (TransactionHead × Signature)). row.as_many place given (length h.1.1.parameters) h) }
    ensures noted { least.new ≡ noted least.old (faults_then (answer_map behind_in call.entry) (λ (h : Found × (TransactionHead × Signature)). row.as_many place given (length h.1.1.parameters) h)) }
{
    match call {
        Answer::Good(call) => {
            if given != call.1.types.parameters.len() {
                wrong(least, place, TypeKind::Arity);
                return Answer::Faulty;
            }
            Answer::Good(call)
        }
        Answer::Typeless => Answer::Typeless,
        Answer::Faulty => Answer::Faulty,
    }
}

/// The types of a function's parameters, where they are known.
pub fn function_parameters<'t>(function: &Answer<Function<'t>>) -> &'t [DataType]
    ensures types { result.now ≡ phrase.no_types (mapped phrase.function_types (good_of (answer_map function_in function.now))) }
{
    match function {
        Answer::Good(function) => function.types.parameters,
        Answer::Typeless => &[],
        Answer::Faulty => &[],
    }
}

/// The types of a process type's parameters, where they are known.
pub fn kind_parameters<'t>(kind: &Answer<Kind<'t>>) -> &'t [DataType]
    ensures types { result.now ≡ phrase.no_types (mapped phrase.kind_types (good_of (answer_map kind_in kind.now))) }
{
    match kind {
        Answer::Good(kind) => kind.parameters,
        Answer::Typeless => &[],
        Answer::Faulty => &[],
    }
}

/// The types of the parameters of a transaction that is called, where they are known.
pub fn parameters_behind<'t>(call: &Answer<(Found, Transaction<'t>)>) -> &'t [DataType]
    ensures types { result.now ≡ phrase.no_types (mapped phrase.transaction_types (good_of (answer_map behind_in call.now))) }
{
    match call {
        Answer::Good((_, transaction)) => transaction.types.parameters,
        Answer::Typeless => &[],
        Answer::Faulty => &[],
    }
}

/// Whether a call behind what is found may be synchronous: it isn't known to be asynchronous.
pub fn may_be_synchronous(head: Option<&TransactionHead>) -> bool
    ensures synchronous { result ≡ phrase.may_be_synchronous (option_copied head.entry) }
{
    match head {
        None => true,
        Some(head) => !head.is_async,
    }
}

/// `f(args)`
pub fn function_applied(
    function: Answer<Function<'_>>,
    args: Answer<Items<Argument>>,
) -> Answer<Found>
    ensures applied { result ≡ answer_map phrase.function_applied (answer_pair (answer_map function_in function.entry) args) }
{
    match pair(function, args) {
        Answer::Good((function, args)) => Answer::Good(Found::Value(Expression::CallFunction {
            function: function.number,
            args,
            data_type: function.types.result,
        })),
        Answer::Typeless => Answer::Typeless,
        Answer::Faulty => Answer::Faulty,
    }
}

/// `create T(args)`
pub fn created(kind: Answer<Kind<'_>>, args: Answer<Items<Argument>>) -> Answer<Found>
    ensures created { result ≡ answer_map phrase.created (answer_pair (answer_map kind_in kind.entry) args) }
{
    match pair(kind, args) {
        Answer::Good((kind, args)) => Answer::Good(Found::Value(Expression::CreateProcess {
            kind: kind.number,
            args,
        })),
        Answer::Typeless => Answer::Typeless,
        Answer::Faulty => Answer::Faulty,
    }
}

/// A call of a transaction behind what is found.
fn call_of(
    alloc: Global,
    found: Found,
    is_async: bool,
    transaction: u32,
    args: Items<Argument>,
    data_type: DataType,
) -> Result<Found, AllocError>
    ensures { IfOk result (λ v. v ≡ made.call_of found is_async transaction args data_type) }
{
    if is_async {
        let step = ChainStep::Send { transaction, args };
        return Ok(with_step(alloc, found, step, DataType::Void)?);
    }
    let process = type_in(&found);
    let (first, steps) = parts_of(alloc, found)?;
    Ok(Found::Call {
        first,
        steps,
        process,
        transaction,
        args,
        data_type,
    })
}

/// `.t(args)`
pub fn transacted(
    alloc: Global,
    call: Answer<(Found, Transaction<'_>)>,
    args: Answer<Items<Argument>>,
) -> Result<Answer<Found>, AllocError>
    ensures transacted { IfOk result (λ r. r ≡ answer_map phrase.transacted (answer_pair (answer_map behind_in call.entry) args)) }
{
    match pair(call, args) {
        Answer::Good(((found, transaction), args)) => {
            let Transaction { head, types } = transaction;
            Ok(Answer::Good(call_of(alloc, found, head.is_async, head.number, args, types.result)?))
        }
        Answer::Typeless => Ok(Answer::Typeless),
        Answer::Faulty => Ok(Answer::Faulty),
    }
}

/// BadFormat at the format, and else Arity: `printf` with as many arguments as its format takes numbers. These are known where the
/// format is well formed.
#[tactic(auto, using(crate::proofs::Laws::rows))]
pub fn format_counted(
    least: &mut Least,
    format: Place,
    place: Place,
    given: usize,
    numbers: Option<usize>,
) -> Answer<()>
    ensures value { result ≡ answer (taken format place given numbers) }
    ensures noted { least.new ≡ noted least.old (faults (taken format place given numbers)) }
{
    let Some(numbers) = numbers else {
        wrong(least, format, TypeKind::BadFormat);
        return Answer::Faulty;
    };
    as_many(least, place, given, numbers, ())
}
