//! The plain tree of a text.

ghost use Rattle.std.specs.Prelude.{◌≡◌, ◌++◌, [], IfOk, OnOk, map};
ghost use Rattle.cc_faults.specs.declared.plain.Item.TheVariants as plain;
ghost use Rattle.cc_names.specs.Mentions.{formats_among, in_items, names_among};
ghost use Rattle.cc_names.specs.Names.{numbered, once};
ghost use Rattle.cc_names.specs.Plains as spec;

use crate::item_mentions::see_items;
use crate::mentions::Numbers;
use crate::phrases::identifier;
use crate::statements::block;
use crate::strings::Strings;
use crate::written::{
    identifiers, length_of, optional_identifier, optional_length, optional_type, parameter_types,
    type_of, type_or_int,
};
use cc_base::Memory;
use cc_faults::{Constant, ConstantValue, Field, Item, Parameter, Plain, Transaction};
use cc_grammar as tree;
use cc_grammar::{Declarator, Tree};
use sqlite_items::Items;
use std::alloc::Global;

fn field_of(numbers: &Numbers, of: &tree::TypeName, d: &Declarator) -> Result<Field, Memory>
    ensures { IfOk result (λ y. y ≡ spec.field_of numbers.now.names numbers.now.formats of.now d.now) }
{
    let of = type_of(numbers, of)?;
    let name = identifier(numbers, &d.name)?;
    let length = optional_length(numbers, &d.length)?;
    Ok(Field { of, name, length })
}

fn push_fields(
    numbers: &Numbers,
    found: &mut Items<Field>,
    of: &tree::TypeName,
    all: &[Declarator],
) -> Result<(), Memory>
    ensures { OnOk result (found.new ≡ found.old ++ map (spec.field_of numbers.now.names numbers.now.formats of.now) all.now) }
{
    for d in all {
        found.push(field_of(numbers, of, d)?)?;
    }
    Ok(())
}

/// The fields of a structure, each with the type that it shares with those beside it.
#[tactic(auto, using(crate::proofs::PlainCode::plain_statements))]
fn fields_of(alloc: Global, numbers: &Numbers, all: &[tree::Field]) -> Result<Items<Field>, Memory>
    ensures { IfOk result (λ y. y ≡ spec.fields_of numbers.now.names numbers.now.formats all.now) }
{
    let mut found = Items::new(alloc);
    for f in all {
        push_fields(numbers, &mut found, &f.of, f.declarators.as_slice())?;
    }
    Ok(found)
}

fn value_of(
    numbers: &Numbers,
    value: &Option<tree::ConstantValue>,
) -> Result<Option<ConstantValue>, Memory>
    ensures { IfOk result (λ y. y ≡ spec.value_of numbers.now.names numbers.now.formats value.now) }
{
    match value {
        None => Ok(None),
        Some(v) => {
            let length = length_of(numbers, &v.length)?;
            Ok(Some(ConstantValue {
                negative: v.negative,
                length,
            }))
        }
    }
}

fn constant_of(numbers: &Numbers, c: &tree::Constant) -> Result<Constant, Memory>
    ensures { IfOk result (λ y. y ≡ spec.constant_of numbers.now.names numbers.now.formats c.now) }
{
    let name = identifier(numbers, &c.name)?;
    let value = value_of(numbers, &c.value)?;
    Ok(Constant { name, value })
}

fn constants_of(
    alloc: Global,
    numbers: &Numbers,
    all: &[tree::Constant],
) -> Result<Items<Constant>, Memory>
    ensures { IfOk result (λ y. y ≡ map (spec.constant_of numbers.now.names numbers.now.formats) all.now) }
{
    let mut found = Items::new(alloc);
    for c in all {
        found.push(constant_of(numbers, c)?)?;
    }
    Ok(found)
}

fn transaction_of(
    alloc: Global,
    numbers: &Numbers,
    d: &tree::Transaction,
) -> Result<Transaction, Memory>
    ensures { IfOk result (λ y. y ≡ spec.transaction_of numbers.now.names numbers.now.formats d.now) }
{
    let of = optional_type(numbers, &d.result)?;
    let name = identifier(numbers, &d.name)?;
    let parameters = parameter_types(alloc, numbers, d.parameters.as_slice())?;
    Ok(Transaction {
        result: of,
        name,
        parameters,
    })
}

fn transactions_in(
    alloc: Global,
    numbers: &Numbers,
    all: &[tree::Transaction],
) -> Result<Items<Transaction>, Memory>
    ensures { IfOk result (λ y. y ≡ map (spec.transaction_of numbers.now.names numbers.now.formats) all.now) }
{
    let mut found = Items::new(alloc);
    for d in all {
        let one = transaction_of(alloc, numbers, d)?;
        found.push(one)?;
    }
    Ok(found)
}

fn transactions_of(
    alloc: Global,
    numbers: &Numbers,
    all: &Option<Items<tree::Transaction>>,
) -> Result<Items<Transaction>, Memory>
    ensures { IfOk result (λ y. y ≡ spec.transactions_of numbers.now.names numbers.now.formats all.now) }
{
    match all {
        None => Ok(Items::new(alloc)),
        Some(all) => transactions_in(alloc, numbers, all.as_slice()),
    }
}

fn parameter_of(numbers: &Numbers, p: &tree::Parameter) -> Result<Parameter, Memory>
    ensures { IfOk result (λ y. y ≡ spec.parameter_of numbers.now.names numbers.now.formats p.now) }
{
    let of = type_of(numbers, &p.of)?;
    let name = identifier(numbers, &p.name)?;
    Ok(Parameter { of, name })
}

fn parameters_of(
    alloc: Global,
    numbers: &Numbers,
    all: &[tree::Parameter],
) -> Result<Items<Parameter>, Memory>
    ensures { IfOk result (λ y. y ≡ map (spec.parameter_of numbers.now.names numbers.now.formats) all.now) }
{
    let mut found = Items::new(alloc);
    for p in all {
        found.push(parameter_of(numbers, p)?)?;
    }
    Ok(found)
}

fn structure(
    alloc: Global,
    numbers: &Numbers,
    name: &tree::Identifier,
    fields: &[tree::Field],
) -> Result<Item, Memory>
    ensures { IfOk result (λ y. y ≡ plain.Structure (spec.identifier numbers.now.names numbers.now.formats name.now) (spec.fields_of numbers.now.names numbers.now.formats fields.now)) }
{
    let name = identifier(numbers, name)?;
    let fields = fields_of(alloc, numbers, fields)?;
    Ok(Item::Structure { name, fields })
}

fn enumeration(
    alloc: Global,
    numbers: &Numbers,
    name: &Option<tree::Identifier>,
    constants: &[tree::Constant],
) -> Result<Item, Memory>
    ensures { IfOk result (λ y. y ≡ plain.Enumeration (spec.optional_identifier numbers.now.names numbers.now.formats name.now) (map (spec.constant_of numbers.now.names numbers.now.formats) constants.now)) }
{
    let name = optional_identifier(numbers, name)?;
    let constants = constants_of(alloc, numbers, constants)?;
    Ok(Item::Enumeration { name, constants })
}

fn specification(
    alloc: Global,
    numbers: &Numbers,
    name: &tree::Identifier,
    parameters: &[tree::TransactionParameter],
    transactions: &Option<Items<tree::Transaction>>,
) -> Result<Item, Memory>
    ensures { IfOk result (λ y. y ≡ plain.Specification (spec.identifier numbers.now.names numbers.now.formats name.now) (map (spec.parameter_type numbers.now.names numbers.now.formats) parameters.now) (spec.transactions_of numbers.now.names numbers.now.formats transactions.now)) }
{
    let name = identifier(numbers, name)?;
    let parameters = parameter_types(alloc, numbers, parameters)?;
    let transactions = transactions_of(alloc, numbers, transactions)?;
    Ok(Item::Specification {
        name,
        parameters,
        transactions,
    })
}

fn body(
    alloc: Global,
    numbers: &Numbers,
    name: &tree::Identifier,
    names: &[tree::Identifier],
    entries: &[tree::Entry],
) -> Result<Item, Memory>
    ensures { IfOk result (λ y. y ≡ plain.Body (spec.identifier numbers.now.names numbers.now.formats name.now) (map (spec.identifier numbers.now.names numbers.now.formats) names.now) (spec.block_of_list numbers.now.names numbers.now.formats entries.now)) }
{
    let name = identifier(numbers, name)?;
    let names = identifiers(alloc, numbers, names)?;
    let block = block(alloc, numbers, entries)?;
    Ok(Item::Body { name, names, block })
}

fn function(
    alloc: Global,
    numbers: &Numbers,
    of: &Option<tree::TypeName>,
    f: &tree::Function,
) -> Result<Item, Memory>
    ensures { IfOk result (λ y. y ≡ plain.Function (spec.type_or_int numbers.now.names numbers.now.formats of.now) (spec.identifier numbers.now.names numbers.now.formats f.now.name) (map (spec.parameter_of numbers.now.names numbers.now.formats) f.now.parameters) (spec.block_of_list numbers.now.names numbers.now.formats f.now.block)) }
{
    let of = type_or_int(numbers, of)?;
    let name = identifier(numbers, &f.name)?;
    let parameters = parameters_of(alloc, numbers, f.parameters.as_slice())?;
    let block = block(alloc, numbers, f.block.as_slice())?;
    Ok(Item::Function {
        result: of,
        name,
        parameters,
        block,
    })
}

fn item_of(alloc: Global, numbers: &Numbers, item: &tree::Item) -> Result<Item, Memory>
    ensures { IfOk result (λ y. y ≡ spec.item_of numbers.now.names numbers.now.formats item.now) }
{
    match item {
        tree::Item::Structure { name, fields } => structure(
            alloc,
            numbers,
            name,
            fields.as_slice(),
        ),
        tree::Item::Enumeration { name, constants } => enumeration(
            alloc,
            numbers,
            name,
            constants.as_slice(),
        ),
        tree::Item::Specification {
            name,
            parameters,
            transactions,
        } => specification(alloc, numbers, name, parameters.as_slice(), transactions),
        tree::Item::Body { name, names, block } => body(
            alloc,
            numbers,
            name,
            names.as_slice(),
            block.as_slice(),
        ),
        tree::Item::Function {
            result: of,
            function: f,
        } => function(alloc, numbers, of, f),
    }
}

fn items_of(alloc: Global, numbers: &Numbers, all: &[tree::Item]) -> Result<Items<Item>, Memory>
    ensures { IfOk result (λ y. y ≡ map (spec.item_of numbers.now.names numbers.now.formats) all.now) }
{
    let mut found = Items::new(alloc);
    for x in all {
        let one = item_of(alloc, numbers, x)?;
        found.push(one)?;
    }
    Ok(found)
}

/// The names and the formats of a text, with their numbers.
#[tactic(auto, using(crate::proofs::Walks::numbered_names))]
fn numbers_of<'t>(alloc: Global, tree: &'t Tree) -> Result<Numbers<'t>, Memory>
    ensures names { IfOk result (λ n. n.names ≡ numbered (names_among (in_items tree.now.items))) }
    ensures formats { IfOk result (λ n. n.formats ≡ once [] (formats_among (in_items tree.now.items))) }
{
    let mut numbers = Numbers {
        names: Strings::new(alloc),
        formats: Strings::new(alloc),
    };
    numbers.names.mention(b"main")?;
    see_items(&mut numbers, tree.items.as_slice())?;
    Ok(numbers)
}

/// The plain tree of a text: names and formats have numbers, rows of operators are of two kinds, and each declared name has its type.
/// A text of more than 2^32 - 1 names is out of memory.
#[tactic(auto, unfolding(crate::specs::Plains::plain))]
pub fn plain(alloc: Global, tree: &Tree) -> Result<Plain, Memory>
    ensures plain { IfOk result (λ t. t ≡ spec.plain tree.now) }
{
    let numbers = numbers_of(alloc, tree)?;
    let names = numbers.names.count()?;
    let formats = numbers.formats.copies(alloc)?;
    let items = items_of(alloc, &numbers, tree.items.as_slice())?;
    Ok(Plain {
        names,
        formats,
        items,
    })
}
