ghost use Rattle.std.specs.List.{list_all};
ghost use Rattle.std.specs.Prelude.{◌≡◌, ◌+◌, ◌<◌, ◌≤◌, if◌then◌else◌, nat_le, Some, None, MatchOption};
ghost use Rattle.cc_typed.specs.Checked.{parts_of};
ghost use Rattle.cc_typed.specs.KnownTypes.{are_parameters, is_known, is_known_element, is_known_field, is_known_structure, is_process_type, is_whole};
ghost use Rattle.cc_typed.specs.Table.{are_fields, are_structures, cells_in, element_cells, is_below, is_element_below, is_field, is_table};
ghost use Rattle.cc_typed.specs.Typed.{are_typed_structures, most_things};

use crate::parts::ProgramParts;
use crate::types::{DataType, ElementType, Field, Structure, array_type, cells_in};
use cc_base::limits::{MOST_ELEMENTS, MOST_PARAMETER_CELLS, MOST_TYPE_CELLS};

/// The most things of one sort that can have numbers.
const MOST_THINGS: u64 = 4_294_967_296;

/// Whether so many things can have numbers.
pub(crate) fn few(count: usize) -> bool
    ensures { result ≡ nat_le count most_things }
{
    count as u64 <= MOST_THINGS
}

/// Whether the process type is there; `main` is none.
pub(crate) fn process_kind(parts: &ProgramParts, kind: u32) -> bool
    ensures { result ≡ is_process_type (parts_of parts.now) kind }
{
    0 < kind && (kind as usize) < parts.kinds.len()
}

fn known_element(parts: &ProgramParts, element: ElementType) -> bool
    ensures { result ≡ is_known_element (parts_of parts.now) element }
{
    match element {
        ElementType::Number(_) => true,
        ElementType::Process { kind } => process_kind(parts, kind),
        ElementType::Struct { number } => (number as usize) < parts.structures.len(),
    }
}

/// Whether a variable may have this type.
pub(crate) fn known_type(parts: &ProgramParts, t: DataType) -> bool
    ensures { result ≡ is_known (parts_of parts.now) t }
{
    match t {
        DataType::Void => false,
        DataType::Single(element) => known_element(parts, element),
        DataType::Array { element, length } => known_element(parts, element)
            && 0 < length
            && length <= MOST_ELEMENTS
            && cells_in(parts.structures.as_slice(), t) <= MOST_TYPE_CELLS as u64,
    }
}

/// Whether a parameter or a result may have this type.
pub(crate) fn whole_type(parts: &ProgramParts, t: DataType) -> bool
    ensures { result ≡ is_whole (parts_of parts.now) t }
{
    known_type(parts, t) && !array_type(t)
}

pub(crate) fn known_types(parts: &ProgramParts, ts: &[DataType]) -> bool
    ensures { result ≡ list_all (is_known (parts_of parts.now)) ts.now }
{
    for t in ts {
        if !known_type(parts, *t) {
            return false;
        }
    }
    true
}

/// The sum of cells, where it is at most this.
fn sum_within(before: u64, cells: u64, most: u32) -> Option<u64>
    ensures bound { MatchOption result (most < before + cells) (λ sum. (sum ≡ before + cells) × sum ≤ most) }
    ensures sum { result ≡ (if nat_le (before + cells) most then Some (before + cells) else None) }
{
    match before.checked_add(cells) {
        Some(sum) => if sum <= most as u64 { Some(sum) } else { None },
        None => None,
    }
}

/// Whether the types are those of parameters, with few cells.
#[tactic(auto, using(crate::proofs::InLists::sums))]
pub(crate) fn parameter_types(parts: &ProgramParts, ts: &[DataType]) -> bool
    ensures { result ≡ are_parameters (parts_of parts.now) ts.now }
{
    let mut sum = 0;
    for t in ts {
        if !whole_type(parts, *t) {
            return false;
        }
        let cells = cells_in(parts.structures.as_slice(), *t);
        match sum_within(sum, cells, MOST_PARAMETER_CELLS) {
            Some(more) => sum = more,
            None => return false,
        }
    }
    true
}

fn element_below(number: usize, element: ElementType) -> bool
    ensures { result ≡ is_element_below number element }
{
    match element {
        ElementType::Number(_) => true,
        ElementType::Process { .. } => true,
        ElementType::Struct { number: other } => (other as usize) < number,
    }
}

/// Whether a type is not `void` and names only structures before this one.
fn type_below(number: usize, t: DataType) -> bool
    ensures { result ≡ is_below number t }
{
    match t {
        DataType::Void => false,
        DataType::Single(element) => element_below(number, element),
        DataType::Array { element, .. } => element_below(number, element),
    }
}

/// The cells up to the end of a field of the structure of this number, where so many cells stand before the field; none
/// where it is no such field.
fn after_field(structures: &[Structure], number: usize, before: u64, field: &Field) -> Option<u64>
    ensures { result ≡ (if is_field structures.now number before field.now then Some (before + cells_in structures.now field.now.data_type) else None) }
{
    if !type_below(number, field.data_type) || field.offset as u64 != before {
        return None;
    }
    sum_within(
        before,
        cells_in(structures, field.data_type),
        MOST_TYPE_CELLS,
    )
}

/// Whether the fields of the structure of this number are in order and have these cells.
#[tactic(auto, using(crate::proofs::InLists::tables))]
fn table_fields(structures: &[Structure], number: usize, fields: &[Field], cells: u32) -> bool
    ensures { result ≡ are_fields structures.now number 0 fields.now cells }
{
    let mut before = 0;
    for field in fields {
        match after_field(structures, number, before, field) {
            Some(after) => before = after,
            None => return false,
        }
    }
    before == cells as u64
}

/// Whether each structure names earlier ones only and keeps its numbers of cells.
#[tactic(auto, using(crate::proofs::InLists::tables))]
fn table(structures: &[Structure]) -> bool
    ensures { result ≡ is_table structures.now }
{
    for number in 0..structures.len() {
        let structure = &structures[number];
        if !table_fields(
            structures,
            number,
            structure.fields.as_slice(),
            structure.cells,
        ) {
            return false;
        }
    }
    true
}

fn known_fields(parts: &ProgramParts, fields: &[Field]) -> bool
    ensures { result ≡ list_all (is_known_field (parts_of parts.now)) fields.now }
{
    for field in fields {
        if !known_type(parts, field.data_type) {
            return false;
        }
    }
    true
}

/// Whether there are fields, and a variable may have their types.
fn known_structure(parts: &ProgramParts, structure: &Structure) -> bool
    ensures { result ≡ is_known_structure (parts_of parts.now) structure.now }
{
    !structure.fields.is_empty() && known_fields(parts, structure.fields.as_slice())
}

fn known_structures(parts: &ProgramParts, structures: &[Structure]) -> bool
    ensures { result ≡ list_all (is_known_structure (parts_of parts.now)) structures.now }
{
    for structure in structures {
        if !known_structure(parts, structure) {
            return false;
        }
    }
    true
}

pub(crate) fn typed_structures(parts: &ProgramParts) -> bool
    ensures { result ≡ are_typed_structures (parts_of parts.now) }
{
    table(parts.structures.as_slice()) && known_structures(parts, parts.structures.as_slice())
}
