//! Whether the tables of a select agree with the alternatives that it opens.

ghost use Rattle.std.specs.Prelude.{◌≡◌, ◌+◌, ◌<◌, ◌↔◌, ◌∷◌, [], IsTrue, false, get_or, length, slice_get, IfOk};
ghost use Rattle.cc_code.specs.Checked.{AreMarks};
ghost use Rattle.cc_code.specs.Control.{GoesWithin, Reaches, successors_within};
ghost use Rattle.cc_code.specs.Reach.{IsMarked, IsSmall, place_of};
ghost use Rattle.cc_code.specs.Rules.{Agrees, AgreesIn, AgreesThere, OffersAgree};
ghost use Rattle.cc_code.specs.Waiting.{AreSelects, IsAscending};
ghost use Rattle.cc_code.specs.Works.{entry_of, table_at};

use crate::code::{RawCode, TableEntry};
use crate::facts::is_marked;
use crate::instr::Instr;
use crate::reach::{Extent, Start, place_of, reach};
use crate::tables::ascending_entry;
use crate::waits::{Selects, Waits, waits_from};
use std::alloc::{AllocError, Global};

/// The first entry of an alternative, where it may be known that the alternatives of the table rise.
fn first_entry(table: &[TableEntry], rises: bool, alt: u32) -> Option<TableEntry>
    requires { IsTrue rises → IsAscending table.now }
    ensures { result ≡ entry_of alt table.now }
{
    if rises {
        ascending_entry(table, alt)
    } else {
        scanned_entry(table, alt)
    }
}

/// The first entry of an alternative.
fn scanned_entry(table: &[TableEntry], alt: u32) -> Option<TableEntry>
    ensures { result ≡ entry_of alt table.now }
{
    for entry in table {
        if entry.alt == alt {
            return Some(*entry);
        }
    }
    None
}

/// Whether the table agrees where a select waits at the address.
fn agrees_there(raw: &RawCode, selects: &Selects, at: usize, alt: u32, site: Option<u32>) -> bool
    requires { AreSelects raw.now selects.now }
    ensures { IsTrue result ↔ AgreesThere raw.now alt site (slice_get raw.now.instrs at) }
{
    match raw.instrs.get(at) {
        Some(Instr::SelWait(table)) => agrees_in(raw, selects, *table, alt, site),
        _ => true,
    }
}

/// Whether the alternatives of a table are known to rise.
fn rises(ascending: &Vec<bool>, table: usize) -> bool
    ensures { result ≡ get_or ascending.now.items table false }
{
    match ascending.get(table) {
        Some(rises) => *rises,
        None => false,
    }
}

/// Whether the first entry of the alternative in a table, if there is one, has this site.
fn agrees_in(raw: &RawCode, selects: &Selects, table: u32, alt: u32, site: Option<u32>) -> bool
    requires { AreSelects raw.now selects.now }
    ensures { IsTrue result ↔ AgreesIn alt site (entry_of alt (table_at raw.now table)) }
{
    let rises = rises(&selects.ascending, table as usize);
    match raw.tables.get(table as usize) {
        Some(table) => match first_entry(table.as_slice(), rises, alt) {
            Some(entry) => entry.site == site,
            None => true,
        },
        None => true,
    }
}

/// What is reached from the address after another within one select.
fn within_select(alloc: Global, raw: &RawCode, at: usize) -> Result<Vec<Option<u32>>, AllocError>
    requires small { IsSmall raw.now }
    requires address { at < length raw.now.instrs }
    ensures { IfOk result (λ m. AreMarks raw.now (Reaches (GoesWithin raw.now) ((at + 1) ∷ [])) m.items) }
{
    let start = Start {
        place: place_of(raw, at + 1),
        label: 0,
    };
    let labels = reach(alloc, raw, Extent::Select, &[start])?;
    Ok(labels)
}

/// Whether the table agrees where a select waits at the address, if that is marked.
fn agrees_if(
    raw: &RawCode,
    selects: &Selects,
    labels: &Vec<Option<u32>>,
    at: usize,
    alt: u32,
    site: Option<u32>,
) -> bool
    requires small { IsSmall raw.now }
    requires address { at < length raw.now.instrs }
    requires selects { AreSelects raw.now selects.now }
    ensures { IsTrue result ↔ (IsMarked labels.now.items (place_of raw.now at) → AgreesThere raw.now alt site (slice_get raw.now.instrs at)) }
{
    !is_marked(raw, labels, at) || agrees_there(raw, selects, at, alt, site)
}

/// Whether the tables agree of each select at which an alternative that is opened at the address may be waited for.
fn agrees_everywhere(
    alloc: Global,
    raw: &RawCode,
    selects: &Selects,
    at: usize,
    alt: u32,
    site: Option<u32>,
) -> Result<bool, AllocError>
    requires small { IsSmall raw.now }
    requires address { at < length raw.now.instrs }
    requires offer { successors_within raw.now at (slice_get raw.now.instrs at) ≡ (at + 1) ∷ [] }
    requires selects { AreSelects raw.now selects.now }
    ensures { IfOk result (λ agree. IsTrue agree ↔ Agrees raw.now at alt site) }
{
    let labels = within_select(alloc, raw, at)?;
    for wait in 0..raw.instrs.len() {
        if !agrees_if(raw, selects, &labels, wait, alt, site) {
            return Ok(false);
        }
    }
    Ok(true)
}

/// Whether it is known that the tables agree.
fn is_known_to_agree(
    raw: &RawCode,
    selects: &Selects,
    at: usize,
    alt: u32,
    site: Option<u32>,
) -> bool
    requires small { IsSmall raw.now }
    requires address { at < length raw.now.instrs }
    requires offer { successors_within raw.now at (slice_get raw.now.instrs at) ≡ (at + 1) ∷ [] }
    requires selects { AreSelects raw.now selects.now }
    ensures { IsTrue result → Agrees raw.now at alt site }
{
    match waits_from(&selects.waits, at + 1) {
        Waits::Never => true,
        Waits::At(table) => agrees_in(raw, selects, table, alt, site),
        Waits::Unknown => false,
    }
}

/// The same as `agrees_everywhere`, and without a walk from the address where what is known says it.
fn agrees(
    alloc: Global,
    raw: &RawCode,
    selects: &Selects,
    at: usize,
    alt: u32,
    site: Option<u32>,
) -> Result<bool, AllocError>
    requires small { IsSmall raw.now }
    requires address { at < length raw.now.instrs }
    requires offer { successors_within raw.now at (slice_get raw.now.instrs at) ≡ (at + 1) ∷ [] }
    requires selects { AreSelects raw.now selects.now }
    ensures { IfOk result (λ agree. IsTrue agree ↔ Agrees raw.now at alt site) }
{
    if is_known_to_agree(raw, selects, at, alt, site) {
        return Ok(true);
    }
    let agree = agrees_everywhere(alloc, raw, selects, at, alt, site)?;
    Ok(agree)
}

/// Whether the tables agree with what the instruction opens.
pub(crate) fn offers_agree(
    alloc: Global,
    raw: &RawCode,
    selects: &Selects,
    at: usize,
    instr: Instr,
) -> Result<bool, AllocError>
    requires small { IsSmall raw.now }
    requires selects { AreSelects raw.now selects.now }
    requires there { slice_get raw.now.instrs at ≡ Some instr }
    ensures { IfOk result (λ agree. IsTrue agree ↔ OffersAgree raw.now at instr) }
{
    match instr {
        Instr::OfferAccept { alt, site } => {
            let agree = agrees(alloc, raw, selects, at, alt, Some(site))?;
            Ok(agree)
        }
        Instr::OfferAfter(alt) | Instr::OfferNow(alt) | Instr::OfferEnd(alt) => {
            let agree = agrees(alloc, raw, selects, at, alt, None)?;
            Ok(agree)
        }
        _ => Ok(true),
    }
}
