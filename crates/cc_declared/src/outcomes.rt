//! What types that are written come to: the type, or the first of the faults as they are found. Nothing is noted.

ghost use Rattle.std.specs.Prelude.{◌≡◌, ℕ};
ghost use Rattle.cc_declared.specs.Lists.{paired, ruled};
ghost use Rattle.cc_faults.specs.Declarations.{field_with};
ghost use Rattle.cc_faults.specs.Judged.{both, checked, known, map, outcome};
ghost use Rattle.cc_faults.specs.Made as made;
ghost use Rattle.cc_faults.specs.Rows as row;
ghost use Rattle.cc_faults.specs.Scopes.{entry_at};
ghost use Rattle.cc_faults.specs.declared.fault.TypeKind.TheVariants as kind;
ghost use Rattle.cc_faults.specs.Statements.{local_type};
ghost use Rattle.cc_typed.specs.Types.{of_process, of_struct};
ghost use Rattle.cc_typed.specs.declared.types.DataType.{DataType};

use crate::lengths::{elements, is_length};
use crate::names::entry;
use crate::types::{are_few, array_of};
use crate::visible::Visible;
use cc_base::Place;
use cc_faults::{
    FaultAt, Field, Identifier, Length, Local, LocalForm, Meaning, TypeKind, TypeName,
};
use cc_typed::{DataType, ElementType, Structure, cells_in};

/// A length, or BadLength.
fn length_in_range(place: Place, number: i64) -> Result<u32, FaultAt>
    ensures { result ≡ outcome (row.length_in_range place number) }
{
    if !is_length(number) {
        return Err(FaultAt {
            place,
            kind: TypeKind::BadLength,
        });
    }
    Ok(elements(number))
}

/// The length that a name means, or the fault for which it means none.
fn length_named(place: Place, meaning: Meaning) -> Result<u32, FaultAt>
    ensures { result ≡ outcome (row.length_named place meaning) }
{
    match meaning {
        Meaning::Constant(number) => length_in_range(place, number),
        Meaning::Valueless(fault) => Err(fault),
        _ => Err(FaultAt {
            place,
            kind: TypeKind::BadLength,
        }),
    }
}

/// A type that isn't large, or LargeType.
fn not_large(structures: &[Structure], x: Identifier, t: DataType) -> Result<DataType, FaultAt>
    ensures { result ≡ outcome (row.not_large structures.now x t) }
{
    if !are_few(cells_in(structures, t)) {
        return Err(FaultAt {
            place: x.place,
            kind: TypeKind::LargeType,
        });
    }
    Ok(t)
}

/// An array of so many elements of this type, or LargeType.
#[tactic(auto, unfolding(crate::specs::Lists::paired, crate::specs::Lists::ruled))]
fn array(
    structures: &[Structure],
    x: Identifier,
    of: Result<DataType, FaultAt>,
    length: Result<u32, FaultAt>,
) -> Result<DataType, FaultAt>
    ensures { result ≡ ruled (paired of length) (λ (v : DataType × ℕ). outcome (row.not_large structures.now x (made.array_of v.0 v.1))) }
{
    match of {
        Err(fault) => Err(fault),
        Ok(of) => match length {
            Err(fault) => Err(fault),
            Ok(length) => not_large(structures, x, array_of(of, length)),
        },
    }
}

/// The fault of a type that isn't visible.
fn unknown_type(x: Identifier) -> FaultAt
    ensures { result ≡ record { place = x.place; kind = kind.UnknownType } }
{
    FaultAt {
        place: x.place,
        kind: TypeKind::UnknownType,
    }
}

impl Visible {
    #[tactic(auto, unfolding(cc_faults::specs::Judged::map, cc_faults::specs::Judged::checked))]
    fn structure_outcome(&self, x: Identifier) -> Result<DataType, FaultAt>
        ensures { result ≡ outcome (map of_struct (checked (row.visible_type x (entry_at self.now.structures_named x)) known)) }
    {
        match entry(self.structures_named.as_slice(), x) {
            None => Err(unknown_type(x)),
            Some(Err(fault)) => Err(fault),
            Some(Ok(number)) => Ok(DataType::Single(ElementType::Struct { number })),
        }
    }

    #[tactic(auto, unfolding(cc_faults::specs::Judged::map, cc_faults::specs::Judged::checked))]
    fn enumeration_outcome(&self, x: Identifier) -> Result<DataType, FaultAt>
        ensures { result ≡ outcome (map row.int_of (checked (row.visible_type x (entry_at self.now.enumerations_named x)) known)) }
    {
        match entry(self.enumerations_named.as_slice(), x) {
            None => Err(unknown_type(x)),
            Some(Err(fault)) => Err(fault),
            Some(Ok(_)) => Ok(DataType::int()),
        }
    }

    #[tactic(auto, unfolding(cc_faults::specs::Judged::map))]
    fn process_outcome(&self, x: Identifier) -> Result<DataType, FaultAt>
        ensures { result ≡ outcome (map of_process (row.visible_type x (entry_at self.now.processes_named x))) }
    {
        match entry(self.processes_named.as_slice(), x) {
            None => Err(unknown_type(x)),
            Some(number) => Ok(DataType::process(number)),
        }
    }

    /// The type that is written, which may be `void`, or its fault.
    pub fn outcome_of_type(&self, t: TypeName) -> Result<DataType, FaultAt>
        ensures outcome { result ≡ outcome (row.written self.now t) }
    {
        match t {
            TypeName::Void(_) => Ok(DataType::Void),
            TypeName::Number(number_type) => Ok(DataType::number(number_type)),
            TypeName::Structure(x) => self.structure_outcome(x),
            TypeName::Enumeration(x) => self.enumeration_outcome(x),
            TypeName::Process(x) => self.process_outcome(x),
        }
    }

    /// The type of a variable, a parameter or a field, or its fault.
    pub fn outcome_of_value_type(&self, t: TypeName) -> Result<DataType, FaultAt>
        ensures outcome { result ≡ outcome (row.value_type self.now t) }
    {
        match t {
            TypeName::Void(place) => Err(FaultAt {
                place,
                kind: TypeKind::VoidHere,
            }),
            other => self.outcome_of_type(other),
        }
    }

    #[tactic(auto, unfolding(cc_faults::specs::Judged::checked))]
    fn outcome_of_length(&self, length: Length) -> Result<u32, FaultAt>
        ensures { result ≡ outcome (row.array_length self.now length) }
    {
        match length {
            Length::Number { place, value } => length_in_range(place, value),
            Length::Name(x) => match self.meaning(x) {
                None => Err(FaultAt {
                    place: x.place,
                    kind: TypeKind::UnknownName,
                }),
                Some(named) => length_named(x.place, named.meaning),
            },
        }
    }

    #[tactic(auto, using(crate::proofs::Firsts::two))]
    fn outcome_of_array(
        &self,
        x: Identifier,
        of: TypeName,
        length: Length,
    ) -> Result<DataType, FaultAt>
        ensures { result ≡ outcome (checked (both (row.value_type self.now of) (row.array_length self.now length)) (λ (v : DataType × ℕ). row.not_large self.now.structures x (made.array_of v.0 v.1))) }
    {
        let of = self.outcome_of_value_type(of);
        let length = self.outcome_of_length(length);
        array(self.structures.as_slice(), x, of, length)
    }

    /// The type of a field, or the first of its faults as they are found.
    pub fn outcome_of_field_type(&self, field: Field) -> Result<DataType, FaultAt>
        ensures outcome { result ≡ outcome (field_with self.now field field.length) }
    {
        match field.length {
            None => self.outcome_of_value_type(field.of),
            Some(length) => self.outcome_of_array(field.name, field.of, length),
        }
    }

    /// The type of a local variable, or the first of its faults as they are found.
    pub fn outcome_of_local_type(&self, local: &Local) -> Result<DataType, FaultAt>
        ensures outcome { result ≡ outcome (local_type self.now local.now) }
    {
        match &local.form {
            LocalForm::Plain => self.outcome_of_value_type(local.of),
            LocalForm::Array(length) => self.outcome_of_array(local.name, local.of, *length),
            LocalForm::Value(_) => self.outcome_of_value_type(local.of),
        }
    }
}
