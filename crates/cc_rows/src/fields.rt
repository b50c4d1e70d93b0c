//! A field of what is found.

ghost use Rattle.std.specs.Option.{option_copied};
ghost use Rattle.std.specs.Prelude.{◌≡◌, IfOk, OnOk, slice_get};
ghost use Rattle.cc_faults.specs.Expressions as phrase;
ghost use Rattle.cc_faults.specs.Faults.{noted};
ghost use Rattle.cc_faults.specs.Judged.{answer_then, faults_then, map};
ghost use Rattle.cc_faults.specs.Rows as row;
ghost use Rattle.cc_rows.specs.Fields as fields;
ghost use Rattle.cc_typed.specs.Table.{fields_of};

use crate::found::{part_of, type_in};
use cc_faults::{Answer, Found, Identifier, Least, TypeKind, wrong};
use cc_typed::{DataType, ElementType, PartStep, Structure};
use std::alloc::{AllocError, Global};

/// The type of a field of this number, which is `void` where it isn't there.
fn field_type(structure: Option<&Structure>, field: u32) -> DataType
    ensures { result ≡ phrase.field_type (slice_get (fields_of (option_copied structure.entry)) field) }
{
    let Some(structure) = structure else {
        return DataType::Void;
    };
    match structure.fields.get(field as usize) {
        None => DataType::Void,
        Some(found) => found.data_type,
    }
}

/// The type of a field of a value of this type.
fn type_of_field(structures: &[Structure], t: DataType, field: u32) -> DataType
    ensures { result ≡ fields.type_of_field structures.now t field }
{
    match t {
        DataType::Single(ElementType::Struct { number }) => {
            field_type(structures.get(number as usize), field)
        }
        _ => DataType::Void,
    }
}

fn with_field(
    alloc: Global,
    structures: &[Structure],
    found: Found,
    field: u32,
) -> Result<Found, AllocError>
    ensures { IfOk result (λ v. v ≡ fields.with_field structures.now found field) }
{
    let data_type = type_of_field(structures, type_in(&found), field);
    Ok(part_of(alloc, found, PartStep::Field { field, data_type })?)
}

/// UnknownField: the field `x` of what is found, which has this number, where the structure has it.
#[tactic(auto, using(crate::proofs::Laws::joined))]
pub fn field_of(
    alloc: Global,
    least: &mut Least,
    structures: &[Structure],
    x: Identifier,
    field: Option<u32>,
    value: Answer<Found>,
) -> Result<Answer<Found>, AllocError>
    ensures value { IfOk result (λ r. r ≡ answer_then value (λ (v : Found). map (fields.with_field structures.now v) (row.has_field x field))) }
    ensures noted { OnOk result (least.new ≡ noted least.old (faults_then value (λ (v : Found). map (fields.with_field structures.now v) (row.has_field x field)))) }
{
    match value {
        Answer::Good(found) => {
            let Some(field) = field else {
                wrong(least, x.place, TypeKind::UnknownField);
                return Ok(Answer::Faulty);
            };
            Ok(Answer::Good(with_field(alloc, structures, found, field)?))
        }
        Answer::Typeless => Ok(Answer::Typeless),
        Answer::Faulty => Ok(Answer::Faulty),
    }
}
