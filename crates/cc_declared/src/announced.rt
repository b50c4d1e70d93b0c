//! What is visible before the first item: functions and process types.

ghost use Rattle.std.specs.Prelude.{◌≡◌, ◌+◌, IfOk, OnOk, if◌then◌else◌, nat_eq};
ghost use Rattle.cc_faults.specs.Declarations as spec;
ghost use Rattle.cc_faults.specs.declared.scope.Meaning.TheVariants as meaning;

use crate::names::{entry, is_there, put_at};
use crate::visible::Visible;
use cc_base::Memory;
use cc_faults::{Identifier, Item, Meaning, Named, Plain};
use sqlite_items::Items;
use std::alloc::Global;

/// One more, in 32 bits.
pub(crate) fn one_more(count: u32) -> Result<u32, Memory>
    ensures { IfOk result (λ n. n ≡ count + 1) }
{
    match count.checked_add(1) {
        Some(more) => Ok(more),
        None => Err(Memory),
    }
}

/// No entry for each of so many names.
fn nothing<T: Drop>(alloc: Global, count: u32) -> Result<Items<Option<T>>, Memory>
    ensures { IfOk result (λ r. r ≡ spec.nothing count) }
{
    let mut entries = Items::new(alloc);
    for _ in 0..count {
        entries.push(None)?;
    }
    Ok(entries)
}

/// The first of two functions of one name is announced.
fn put_first(names: &mut Items<Option<Named>>, x: Identifier, meaning: Meaning)
    ensures { names.new ≡ spec.with_first names.old x meaning }
{
    if !is_there(entry(names.as_slice(), x)) {
        put_at(names, x.name, Some(Named { scope: 0, meaning }));
    }
}

/// Announces a function, where so many others than `main` stand before it, and how many there are with it.
fn announce_function(
    count: u32,
    names: &mut Items<Option<Named>>,
    x: Identifier,
) -> Result<u32, Memory>
    ensures count { IfOk result (λ n. n ≡ count + (if nat_eq x.name 0 then 0 else 1)) }
    ensures names { OnOk result (names.new ≡ spec.with_first names.old x (if nat_eq x.name 0 then meaning.Main else meaning.Function count)) }
{
    if x.name == 0 {
        put_first(names, x, Meaning::Main);
        return Ok(count);
    }
    put_first(names, x, Meaning::Function(count));
    one_more(count)
}

/// Announces the function that an item may be.
fn announce(count: u32, names: &mut Items<Option<Named>>, item: &Item) -> Result<u32, Memory>
    ensures count { IfOk result (λ n. n ≡ count + spec.functions_in item.now) }
    ensures names { OnOk result (names.new ≡ spec.announced_by count names.old item.now) }
{
    match item {
        Item::Function { name, .. } => announce_function(count, names, *name),
        Item::Structure { .. }
        | Item::Enumeration { .. }
        | Item::Specification { .. }
        | Item::Body { .. } => Ok(count),
    }
}

/// Announces the functions of a text.
fn announce_all(names: &mut Items<Option<Named>>, items: &[Item]) -> Result<(), Memory>
    ensures { OnOk result (names.new ≡ spec.announced 0 names.old items.now) }
{
    let mut count = 0;
    for item in items {
        count = announce(count, names, item)?;
    }
    Ok(())
}

/// The first of two process types of one name is announced.
fn put_process(names: &mut Items<Option<u32>>, x: Identifier, kind: u32)
    ensures { names.new ≡ spec.with_process names.old x kind }
{
    if !is_there(entry(names.as_slice(), x)) {
        put_at(names, x.name, Some(kind));
    }
}

/// Announces the process type that an item may specify.
fn specify(kind: u32, names: &mut Items<Option<u32>>, item: &Item) -> Result<u32, Memory>
    ensures kind { IfOk result (λ k. k ≡ kind + spec.kinds_in item.now) }
    ensures names { OnOk result (names.new ≡ spec.specified_by kind names.old item.now) }
{
    match item {
        Item::Specification { name, .. } => {
            put_process(names, *name, kind);
            one_more(kind)
        }
        Item::Structure { .. }
        | Item::Enumeration { .. }
        | Item::Body { .. }
        | Item::Function { .. } => Ok(kind),
    }
}

/// Announces the process types of a text.
fn specify_all(names: &mut Items<Option<u32>>, items: &[Item]) -> Result<(), Memory>
    ensures { OnOk result (names.new ≡ spec.specified 1 names.old items.now) }
{
    let mut kind = 1;
    for item in items {
        kind = specify(kind, names, item)?;
    }
    Ok(())
}

/// What is visible before the first item: the functions and the process types of the whole text, and of two of one name the first.
pub fn at_start(alloc: Global, text: &Plain) -> Result<Visible, Memory>
    ensures start { IfOk result (λ v. v ≡ spec.at_start text.now) }
{
    let mut names = nothing(alloc, text.names)?;
    announce_all(&mut names, text.items.as_slice())?;
    let mut processes_named = nothing(alloc, text.names)?;
    specify_all(&mut processes_named, text.items.as_slice())?;
    let structures_named = nothing(alloc, text.names)?;
    let enumerations_named = nothing(alloc, text.names)?;
    Ok(Visible {
        names,
        structures_named,
        enumerations_named,
        processes_named,
        structures: Items::new(alloc),
        members: Items::new(alloc),
        variables: Items::new(alloc),
        sites: Items::new(alloc),
    })
}
