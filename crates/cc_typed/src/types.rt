ghost use Rattle.std.specs.List.{list_all};
ghost use Rattle.std.specs.Prelude.{◌≡◌, ◌*◌, slice_get};
ghost use Rattle.cc_typed.specs.Parting.{is_element_of, is_field_of, is_of_type, part_offset};
ghost use Rattle.cc_typed.specs.Table.{cells_in, element_cells};
ghost use Rattle.cc_typed.specs.Typed.{is_choice, is_comparable, is_equality};
ghost use Rattle.cc_typed.specs.Types.{Int, Long, is_arithmetic, is_array, is_assignable, is_process, is_process_of, is_same, is_same_all, is_same_number, is_struct, is_void, number_in, of_number, of_process};

use cc_base::{Comparison, NumberType, arithmetic};
use sqlite_items::Items;

/// A type that the elements of an array may have.
#[derive(Clone, Copy, Debug, Drop, PartialEq, Eq)]
pub enum ElementType {
    Number(NumberType),
    /// Processes of this kind.
    Process { kind: u32 },
    /// The structure of this number.
    Struct { number: u32 },
}

/// A type. Two structures are the same where their declarations are, which have numbers.
#[derive(Clone, Copy, Debug, Drop, PartialEq, Eq)]
pub enum DataType {
    Void,
    /// A type that is no array.
    Single(ElementType),
    Array { element: ElementType, length: u32 },
}

/// A field of a structure, with the number of cells before it.
#[derive(Clone, Copy, Debug, Drop, PartialEq, Eq)]
pub struct Field {
    pub data_type: DataType,
    pub offset: u32,
}

/// A structure: its fields in order, and how many cells its values have.
#[derive(Drop)]
pub struct Structure {
    pub fields: Items<Field>,
    pub cells: u32,
}

impl DataType {
    /// The type of numbers of a number type.
    pub fn number(number_type: NumberType) -> DataType
        ensures number { result ≡ of_number number_type }
    {
        DataType::Single(ElementType::Number(number_type))
    }

    pub fn int() -> DataType
        ensures int { result ≡ Int }
    {
        DataType::number(NumberType::Int)
    }

    pub fn long() -> DataType
        ensures long { result ≡ Long }
    {
        DataType::number(NumberType::Long)
    }

    /// The type of its numbers; `int` for a type without any.
    pub fn number_type(self) -> NumberType
        ensures number { result ≡ number_in self }
    {
        match self {
            DataType::Single(ElementType::Number(number_type)) => number_type,
            DataType::Single(ElementType::Process { .. }) => NumberType::Int,
            DataType::Single(ElementType::Struct { .. }) => NumberType::Int,
            DataType::Void => NumberType::Int,
            DataType::Array { .. } => NumberType::Int,
        }
    }

    /// Whether it is a type of numbers.
    pub fn is_arithmetic(self) -> bool
        ensures arithmetic { result ≡ is_arithmetic self }
    {
        matches!(self, DataType::Single(ElementType::Number(_)))
    }

    /// The type of processes of a kind.
    pub fn process(kind: u32) -> DataType
        ensures process { result ≡ of_process kind }
    {
        DataType::Single(ElementType::Process { kind })
    }
}

pub(crate) fn same_number(t: NumberType, u: NumberType) -> bool
    ensures { result ≡ is_same_number t u }
{
    t == u
}

/// Whether two types are the same.
pub(crate) fn same_type(t: DataType, u: DataType) -> bool
    ensures { result ≡ is_same t u }
{
    t == u
}

/// How many cells the values of an element's type have.
fn element_cells(structures: &[Structure], element: ElementType) -> u32
    ensures { result ≡ element_cells structures.now element }
{
    match element {
        ElementType::Number(_) => 1,
        ElementType::Process { .. } => 1,
        ElementType::Struct { number } => match structures.get(number as usize) {
            Some(structure) => structure.cells,
            None => 0,
        },
    }
}

fn product(a: u32, b: u32) -> u64
    ensures { result ≡ a * b }
{
    (a as u64) * (b as u64)
}

/// How many cells the values of a type have, by the table of structures; a structure that is not in the table has none.
pub fn cells_in(structures: &[Structure], t: DataType) -> u64
    ensures cells { result ≡ cells_in structures.now t }
{
    match t {
        DataType::Void => 0,
        DataType::Single(element) => element_cells(structures, element) as u64,
        DataType::Array { element, length } => product(length, element_cells(structures, element)),
    }
}

/// How many cells of a value stand before its part of this number, by the table of structures; 0 where there is no such part.
pub fn part_offset(structures: &[Structure], t: DataType, part: u32) -> u64
    ensures offset { result ≡ part_offset structures.now t part }
{
    match t {
        DataType::Single(ElementType::Struct { number }) => match structures.get(number as usize) {
            Some(structure) => match structure.fields.get(part as usize) {
                Some(field) => field.offset as u64,
                None => 0,
            },
            None => 0,
        },
        DataType::Single(ElementType::Number(_)) => 0,
        DataType::Single(ElementType::Process { .. }) => 0,
        DataType::Void => 0,
        DataType::Array { element, .. } => product(part, element_cells(structures, element)),
    }
}

pub(crate) fn void_type(t: DataType) -> bool
    ensures { result ≡ is_void t }
{
    matches!(t, DataType::Void)
}

pub(crate) fn arithmetic_type(t: DataType) -> bool
    ensures { result ≡ is_arithmetic t }
{
    t.is_arithmetic()
}

fn process_type(t: DataType) -> bool
    ensures { result ≡ is_process t }
{
    matches!(t, DataType::Single(ElementType::Process { .. }))
}

fn struct_type(t: DataType) -> bool
    ensures { result ≡ is_struct t }
{
    matches!(t, DataType::Single(ElementType::Struct { .. }))
}

pub(crate) fn array_type(t: DataType) -> bool
    ensures { result ≡ is_array t }
{
    matches!(t, DataType::Array { .. })
}

pub(crate) fn process_type_of(kind: u32, t: DataType) -> bool
    ensures { result ≡ is_process_of kind t }
{
    same_type(DataType::process(kind), t)
}

/// Whether it is a structure whose field of this number has this type.
pub(crate) fn has_field(structures: &[Structure], t: DataType, field: u32, u: DataType) -> bool
    ensures { result ≡ is_field_of structures.now t field u }
{
    match t {
        DataType::Single(ElementType::Struct { number }) => match structures.get(number as usize) {
            Some(structure) => match structure.fields.get(field as usize) {
                Some(found) => same_type(found.data_type, u),
                None => false,
            },
            None => false,
        },
        DataType::Single(ElementType::Number(_)) => false,
        DataType::Single(ElementType::Process { .. }) => false,
        DataType::Void => false,
        DataType::Array { .. } => false,
    }
}

/// Whether it is an array with elements of this type.
pub(crate) fn element_of(t: DataType, u: DataType) -> bool
    ensures { result ≡ is_element_of t u }
{
    match t {
        DataType::Array { element, .. } => same_type(DataType::Single(element), u),
        DataType::Void => false,
        DataType::Single(_) => false,
    }
}

/// Whether a value of one type may be assigned to another.
pub(crate) fn assignable(from: DataType, to: DataType) -> bool
    ensures { result ≡ is_assignable from to }
{
    arithmetic_type(from) && arithmetic_type(to)
        || (process_type(to) || struct_type(to)) && same_type(from, to)
}

/// Whether a third type is that of a choice between values of two types.
pub(crate) fn choice_type(yes: DataType, no: DataType, t: DataType) -> bool
    ensures { result ≡ is_choice yes no t }
{
    if arithmetic_type(yes) && arithmetic_type(no) {
        let number_type = arithmetic::wider(yes.number_type(), no.number_type());
        same_type(DataType::number(number_type), t)
    } else {
        (process_type(yes) || struct_type(yes) || void_type(yes))
            && same_type(yes, no)
            && same_type(yes, t)
    }
}

fn is_equality(comparison: Comparison) -> bool
    ensures { result ≡ is_equality comparison }
{
    matches!(comparison, Comparison::Equal | Comparison::Different)
}

/// Whether values of two types may be compared so.
pub(crate) fn comparable(comparison: Comparison, t: DataType, u: DataType) -> bool
    ensures { result ≡ is_comparable comparison t u }
{
    arithmetic_type(t) && arithmetic_type(u)
        || is_equality(comparison) && process_type(t) && same_type(t, u)
}

/// Whether the types in two lists are the same in order.
#[tactic(auto, using(crate::proofs::InLists::sames))]
pub(crate) fn same_types(ts: &[DataType], us: &[DataType]) -> bool
    ensures { result ≡ is_same_all ts.now us.now }
{
    if ts.len() != us.len() {
        return false;
    }
    for at in 0..ts.len() {
        if !same_type(ts[at], us[at]) {
            return false;
        }
    }
    true
}
