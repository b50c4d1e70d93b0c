//! The names and the formats that the items of a text mention. The names of the parameters of transactions and specifications are no names
//! of the text.

ghost use Rattle.std.specs.Prelude.{◌≡◌, OnOk};
ghost use Rattle.cc_names.specs.Mentions.{in_constants, in_field_names, in_fields, in_item, in_items, in_optional_transactions, in_parameter_types, in_parameters, in_transactions, in_value};
ghost use Rattle.cc_names.specs.Seen.{after, in_constant, in_field, in_field_name, in_parameter, in_parameter_type, in_transaction};

use crate::code_mentions::see_entries;
use crate::mentions::{
    Numbers, see_length, see_name, see_names, see_optional_length, see_optional_name,
    see_optional_type, see_type,
};
use cc_base::Memory;
use cc_grammar::{
    Constant, ConstantValue, Declarator, Field, Item, Parameter, Transaction, TransactionParameter,
};
use sqlite_items::Items;

#[tactic(auto, using(crate::proofs::Walks::seen))]
fn see_field_name<'t>(numbers: &mut Numbers<'t>, d: &'t Declarator) -> Result<(), Memory>
    ensures { OnOk result (numbers.new ≡ after numbers.old (in_field_name d.now)) }
{
    see_name(numbers, &d.name)?;
    see_optional_length(numbers, &d.length)
}

#[tactic(auto, using(crate::proofs::Walks::seen))]
fn see_field_names<'t>(numbers: &mut Numbers<'t>, all: &'t [Declarator]) -> Result<(), Memory>
    ensures { OnOk result (numbers.new ≡ after numbers.old (in_field_names all.now)) }
{
    for d in all {
        see_field_name(numbers, d)?;
    }
    Ok(())
}

#[tactic(auto, using(crate::proofs::Walks::seen))]
fn see_field<'t>(numbers: &mut Numbers<'t>, f: &'t Field) -> Result<(), Memory>
    ensures { OnOk result (numbers.new ≡ after numbers.old (in_field f.now)) }
{
    see_type(numbers, &f.of)?;
    see_field_names(numbers, f.declarators.as_slice())
}

#[tactic(auto, using(crate::proofs::Walks::seen))]
fn see_fields<'t>(numbers: &mut Numbers<'t>, all: &'t [Field]) -> Result<(), Memory>
    ensures { OnOk result (numbers.new ≡ after numbers.old (in_fields all.now)) }
{
    for f in all {
        see_field(numbers, f)?;
    }
    Ok(())
}

#[tactic(auto, using(crate::proofs::Walks::seen))]
fn see_value<'t>(numbers: &mut Numbers<'t>, value: &'t Option<ConstantValue>) -> Result<(), Memory>
    ensures { OnOk result (numbers.new ≡ after numbers.old (in_value value.now)) }
{
    match value {
        None => Ok(()),
        Some(value) => see_length(numbers, &value.length),
    }
}

#[tactic(auto, using(crate::proofs::Walks::seen))]
fn see_constant<'t>(numbers: &mut Numbers<'t>, c: &'t Constant) -> Result<(), Memory>
    ensures { OnOk result (numbers.new ≡ after numbers.old (in_constant c.now)) }
{
    see_name(numbers, &c.name)?;
    see_value(numbers, &c.value)
}

#[tactic(auto, using(crate::proofs::Walks::seen))]
fn see_constants<'t>(numbers: &mut Numbers<'t>, all: &'t [Constant]) -> Result<(), Memory>
    ensures { OnOk result (numbers.new ≡ after numbers.old (in_constants all.now)) }
{
    for c in all {
        see_constant(numbers, c)?;
    }
    Ok(())
}

#[tactic(auto, using(crate::proofs::Walks::seen))]
fn see_parameter_type<'t>(
    numbers: &mut Numbers<'t>,
    p: &'t TransactionParameter,
) -> Result<(), Memory>
    ensures { OnOk result (numbers.new ≡ after numbers.old (in_parameter_type p.now)) }
{
    see_type(numbers, &p.of)
}

#[tactic(auto, using(crate::proofs::Walks::seen))]
fn see_parameter_types<'t>(
    numbers: &mut Numbers<'t>,
    all: &'t [TransactionParameter],
) -> Result<(), Memory>
    ensures { OnOk result (numbers.new ≡ after numbers.old (in_parameter_types all.now)) }
{
    for p in all {
        see_parameter_type(numbers, p)?;
    }
    Ok(())
}

#[tactic(auto, using(crate::proofs::Walks::seen))]
fn see_transaction<'t>(numbers: &mut Numbers<'t>, d: &'t Transaction) -> Result<(), Memory>
    ensures { OnOk result (numbers.new ≡ after numbers.old (in_transaction d.now)) }
{
    see_optional_type(numbers, &d.result)?;
    see_name(numbers, &d.name)?;
    see_parameter_types(numbers, d.parameters.as_slice())
}

#[tactic(auto, using(crate::proofs::Walks::seen))]
fn see_transactions<'t>(numbers: &mut Numbers<'t>, all: &'t [Transaction]) -> Result<(), Memory>
    ensures { OnOk result (numbers.new ≡ after numbers.old (in_transactions all.now)) }
{
    for d in all {
        see_transaction(numbers, d)?;
    }
    Ok(())
}

#[tactic(auto, using(crate::proofs::Walks::seen))]
fn see_optional_transactions<'t>(
    numbers: &mut Numbers<'t>,
    all: &'t Option<Items<Transaction>>,
) -> Result<(), Memory>
    ensures { OnOk result (numbers.new ≡ after numbers.old (in_optional_transactions all.now)) }
{
    match all {
        None => Ok(()),
        Some(all) => see_transactions(numbers, all.as_slice()),
    }
}

#[tactic(auto, using(crate::proofs::Walks::seen))]
fn see_parameter<'t>(numbers: &mut Numbers<'t>, p: &'t Parameter) -> Result<(), Memory>
    ensures { OnOk result (numbers.new ≡ after numbers.old (in_parameter p.now)) }
{
    see_type(numbers, &p.of)?;
    see_name(numbers, &p.name)
}

#[tactic(auto, using(crate::proofs::Walks::seen))]
fn see_parameters<'t>(numbers: &mut Numbers<'t>, all: &'t [Parameter]) -> Result<(), Memory>
    ensures { OnOk result (numbers.new ≡ after numbers.old (in_parameters all.now)) }
{
    for p in all {
        see_parameter(numbers, p)?;
    }
    Ok(())
}

#[tactic(auto, using(crate::proofs::Walks::seen))]
fn see_item<'t>(numbers: &mut Numbers<'t>, item: &'t Item) -> Result<(), Memory>
    ensures { OnOk result (numbers.new ≡ after numbers.old (in_item item.now)) }
{
    match item {
        Item::Structure { name, fields } => {
            see_name(numbers, name)?;
            see_fields(numbers, fields.as_slice())
        }
        Item::Enumeration { name, constants } => {
            see_optional_name(numbers, name)?;
            see_constants(numbers, constants.as_slice())
        }
        Item::Specification {
            name,
            parameters,
            transactions,
        } => {
            see_name(numbers, name)?;
            see_parameter_types(numbers, parameters.as_slice())?;
            see_optional_transactions(numbers, transactions)
        }
        Item::Body { name, names, block } => {
            see_name(numbers, name)?;
            see_names(numbers, names.as_slice())?;
            see_entries(numbers, block.as_slice())
        }
        Item::Function {
            result: of,
            function,
        } => {
            see_optional_type(numbers, of)?;
            see_name(numbers, &function.name)?;
            see_parameters(numbers, function.parameters.as_slice())?;
            see_entries(numbers, function.block.as_slice())
        }
    }
}

/// Mentions the names and the formats of these items.
#[tactic(auto, using(crate::proofs::Walks::seen))]
pub(crate) fn see_items<'t>(numbers: &mut Numbers<'t>, all: &'t [Item]) -> Result<(), Memory>
    ensures { OnOk result (numbers.new ≡ after numbers.old (in_items all.now)) }
{
    for item in all {
        see_item(numbers, item)?;
    }
    Ok(())
}
