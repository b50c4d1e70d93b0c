//! Types, lengths and lists of names in plain form.

ghost use Rattle.std.specs.Prelude.{◌≡◌, IfOk, map};
ghost use Rattle.cc_names.specs.Plains as spec;

use crate::mentions::Numbers;
use crate::phrases::identifier;
use cc_base::{Memory, NumberType};
use cc_faults::{Identifier, Length, TypeName};
use cc_grammar as tree;
use sqlite_items::Items;
use std::alloc::Global;

pub(crate) fn type_of(numbers: &Numbers, t: &tree::TypeName) -> Result<TypeName, Memory>
    ensures { IfOk result (λ y. y ≡ spec.type_of numbers.now.names numbers.now.formats t.now) }
{
    match t {
        tree::TypeName::Void(place) => Ok(TypeName::Void(*place)),
        tree::TypeName::Char(_) => Ok(TypeName::Number(NumberType::Char)),
        tree::TypeName::Int(_) => Ok(TypeName::Number(NumberType::Int)),
        tree::TypeName::Long(_) => Ok(TypeName::Number(NumberType::Long)),
        tree::TypeName::Structure(_, x) => Ok(TypeName::Structure(identifier(numbers, x)?)),
        tree::TypeName::Enumeration(_, x) => Ok(TypeName::Enumeration(identifier(numbers, x)?)),
        tree::TypeName::Process(_, x) => Ok(TypeName::Process(identifier(numbers, x)?)),
    }
}

pub(crate) fn optional_type(
    numbers: &Numbers,
    t: &Option<tree::TypeName>,
) -> Result<Option<TypeName>, Memory>
    ensures { IfOk result (λ y. y ≡ spec.optional_type numbers.now.names numbers.now.formats t.now) }
{
    match t {
        None => Ok(None),
        Some(t) => Ok(Some(type_of(numbers, t)?)),
    }
}

/// The type of a function, which is `int` where none is written.
pub(crate) fn type_or_int(numbers: &Numbers, t: &Option<tree::TypeName>) -> Result<TypeName, Memory>
    ensures { IfOk result (λ y. y ≡ spec.type_or_int numbers.now.names numbers.now.formats t.now) }
{
    match t {
        None => Ok(TypeName::Number(NumberType::Int)),
        Some(t) => type_of(numbers, t),
    }
}

pub(crate) fn length_of(numbers: &Numbers, n: &tree::Length) -> Result<Length, Memory>
    ensures { IfOk result (λ y. y ≡ spec.length_of numbers.now.names numbers.now.formats n.now) }
{
    match n {
        tree::Length::Number { place, value, .. } => Ok(Length::Number {
            place: *place,
            value: *value,
        }),
        tree::Length::Character { place, value } => Ok(Length::Number {
            place: *place,
            value: *value as i64,
        }),
        tree::Length::Name(x) => Ok(Length::Name(identifier(numbers, x)?)),
    }
}

pub(crate) fn optional_length(
    numbers: &Numbers,
    n: &Option<tree::Length>,
) -> Result<Option<Length>, Memory>
    ensures { IfOk result (λ y. y ≡ spec.optional_length numbers.now.names numbers.now.formats n.now) }
{
    match n {
        None => Ok(None),
        Some(n) => Ok(Some(length_of(numbers, n)?)),
    }
}

pub(crate) fn optional_identifier(
    numbers: &Numbers,
    x: &Option<tree::Identifier>,
) -> Result<Option<Identifier>, Memory>
    ensures { IfOk result (λ y. y ≡ spec.optional_identifier numbers.now.names numbers.now.formats x.now) }
{
    match x {
        None => Ok(None),
        Some(x) => Ok(Some(identifier(numbers, x)?)),
    }
}

pub(crate) fn identifiers(
    alloc: Global,
    numbers: &Numbers,
    all: &[tree::Identifier],
) -> Result<Items<Identifier>, Memory>
    ensures { IfOk result (λ y. y ≡ map (spec.identifier numbers.now.names numbers.now.formats) all.now) }
{
    let mut found = Items::new(alloc);
    for x in all {
        found.push(identifier(numbers, x)?)?;
    }
    Ok(found)
}

/// The types of the parameters of a transaction or a specification, whose names declare nothing.
pub(crate) fn parameter_types(
    alloc: Global,
    numbers: &Numbers,
    all: &[tree::TransactionParameter],
) -> Result<Items<TypeName>, Memory>
    ensures { IfOk result (λ y. y ≡ map (spec.parameter_type numbers.now.names numbers.now.formats) all.now) }
{
    let mut found = Items::new(alloc);
    for p in all {
        found.push(type_of(numbers, &p.of)?)?;
    }
    Ok(found)
}
