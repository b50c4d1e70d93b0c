//! What holds of the tables of selects, each judged once.

ghost use Rattle.std.specs.List.{All};
ghost use Rattle.std.specs.Prelude.{◌≡◌, ◌-◌, ◌<◌, ◌≤◌, ◌↔◌, IsTrue, Some, length, slice_get, IfOk};
ghost use Rattle.cc_code.specs.Checked.{AreLeading, AreLevel};
ghost use Rattle.cc_code.specs.Rules.{HasHeight, IsAddress};
ghost use Rattle.cc_code.specs.Waiting.{AreAscending, AreBelow, AreFrom, IsAscending};
ghost use Rattle.cc_code.specs.Works.{entry_of};
ghost use Rattle.cc_code.specs.declared.code.TableEntry.{TableEntry};

use crate::code::{RawCode, TableEntry};
use crate::rules::{has_height, is_address};
use std::alloc::{AllocError, Global};

/// Whether a table leads to instructions alone.
fn table_leads(raw: &RawCode, table: &[TableEntry]) -> bool
    ensures { IsTrue result ↔ All (λ (e : TableEntry). IsAddress raw.now e.address) table.now }
{
    for entry in table {
        if !is_address(raw, entry.address) {
            return false;
        }
    }
    true
}

/// For each table whether it leads to instructions alone.
pub(crate) fn leading(alloc: Global, raw: &RawCode) -> Result<Vec<bool>, AllocError>
    ensures { IfOk result (λ bits. AreLeading raw.now bits.items) }
{
    let mut bits = Vec::new(alloc);
    for table in raw.tables.as_slice() {
        bits.push(table_leads(raw, table.as_slice()))?;
    }
    Ok(bits)
}

/// Whether a table leads to heights of 0 alone.
fn table_level(raw: &RawCode, table: &[TableEntry]) -> bool
    ensures { IsTrue result ↔ All (λ (e : TableEntry). HasHeight raw.now 0 e.address) table.now }
{
    for entry in table {
        if !has_height(raw, 0, entry.address as usize) {
            return false;
        }
    }
    true
}

/// For each table whether it leads to heights of 0 alone.
pub(crate) fn level(alloc: Global, raw: &RawCode) -> Result<Vec<bool>, AllocError>
    ensures { IfOk result (λ bits. AreLevel raw.now bits.items) }
{
    let mut bits = Vec::new(alloc);
    for table in raw.tables.as_slice() {
        bits.push(table_level(raw, table.as_slice()))?;
    }
    Ok(bits)
}

/// The entry of a table at a place.
pub(crate) fn entry_at(table: &[TableEntry], at: usize) -> TableEntry
    requires { at < length table.now }
    ensures { slice_get table.now at ≡ Some result }
{
    table[at]
}

/// Whether the alternatives of a table rise.
fn is_ascending(table: &[TableEntry]) -> bool
    ensures { IsTrue result → IsAscending table.now }
{
    for at in 1..table.len() {
        let last = entry_at(table, at - 1);
        let next = entry_at(table, at);
        if next.alt <= last.alt {
            return false;
        }
    }
    true
}

/// For each table whether its alternatives rise, as those that a compiler makes do.
pub(crate) fn ascending(alloc: Global, raw: &RawCode) -> Result<Vec<bool>, AllocError>
    ensures { IfOk result (λ bits. AreAscending raw.now bits.items) }
{
    let mut bits = Vec::new(alloc);
    for table in raw.tables.as_slice() {
        bits.push(is_ascending(table.as_slice()))?;
    }
    Ok(bits)
}

/// A half of the places from `low` to `high` in which the first entry stands whose alternative is not below this one.
fn halved(table: &[TableEntry], alt: u32, low: usize, high: usize) -> (usize, usize)
    requires rises { IsAscending table.now }
    requires some { low < high }
    requires there { high ≤ length table.now }
    requires below { AreBelow table.now alt low }
    requires above { AreFrom table.now alt high }
    ensures fewer { result.1 - result.0 < high - low }
    ensures order { result.0 ≤ result.1 }
    ensures there { result.1 ≤ length table.now }
    ensures below { AreBelow table.now alt result.0 }
    ensures above { AreFrom table.now alt result.1 }
{
    let middle = low + (high - low) / 2;
    if entry_at(table, middle).alt < alt {
        (middle + 1, high)
    } else {
        (low, middle)
    }
}

/// The place of the first entry whose alternative is not below this one, in a table whose alternatives rise.
fn lower_bound(table: &[TableEntry], alt: u32) -> usize
    requires { IsAscending table.now }
    ensures below { AreBelow table.now alt result }
    ensures above { AreFrom table.now alt result }
{
    let mut low = 0;
    let mut high = table.len();
    'halves: while low < high {
        let (next_low, next_high) = halved(table, alt, low, high);
        low = next_low;
        high = next_high;
    }
    low
}

/// The first entry of an alternative, in a table whose alternatives rise.
pub(crate) fn ascending_entry(table: &[TableEntry], alt: u32) -> Option<TableEntry>
    requires { IsAscending table.now }
    ensures { result ≡ entry_of alt table.now }
{
    let at = lower_bound(table, alt);
    if at >= table.len() {
        return None;
    }
    let entry = entry_at(table, at);
    if entry.alt == alt { Some(entry) } else { None }
}
