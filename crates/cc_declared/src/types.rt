//! Types of fields and of local variables.

ghost use Rattle.std.specs.Prelude.{◌≡◌, ℕ, nat_le};
ghost use Rattle.cc_base.specs.Limits.{most_type_cells};
ghost use Rattle.cc_faults.specs.Declarations.{field_with};
ghost use Rattle.cc_faults.specs.Faults.{noted};
ghost use Rattle.cc_faults.specs.Judged.{answer, answer_then, both, checked, faults, faults_then};
ghost use Rattle.cc_faults.specs.Made as made;
ghost use Rattle.cc_faults.specs.Rows as row;
ghost use Rattle.cc_faults.specs.Statements.{local_type};
ghost use Rattle.cc_typed.specs.declared.types.DataType.{DataType};

use crate::visible::Visible;
use cc_base::limits::MOST_TYPE_CELLS;
use cc_faults::{
    Answer, Field, Identifier, Least, Length, Local, LocalForm, TypeKind, TypeName, pair, wrong,
};
use cc_typed::{DataType, Structure, cells_in};

/// An array of so many.
pub(crate) fn array_of(t: DataType, length: u32) -> DataType
    ensures { result ≡ made.array_of t length }
{
    match t {
        DataType::Single(element) => DataType::Array { element, length },
        other => other,
    }
}

/// Whether a type may have so many cells.
pub(crate) fn are_few(cells: u64) -> bool
    ensures { result ≡ nat_le cells most_type_cells }
{
    cells <= u64::from(MOST_TYPE_CELLS)
}

/// LargeType: a type of more cells than a type may have.
#[tactic(auto, using(crate::proofs::Laws::rules))]
fn not_large(
    structures: &[Structure],
    least: &mut Least,
    x: Identifier,
    t: DataType,
) -> Answer<DataType>
    ensures value { result ≡ answer (row.not_large structures.now x t) }
    ensures noted { least.new ≡ noted least.old (faults (row.not_large structures.now x t)) }
{
    if !are_few(cells_in(structures, t)) {
        wrong(least, x.place, TypeKind::LargeType);
        return Answer::Faulty;
    }
    Answer::Good(t)
}

/// LargeType: an array of so many.
#[tactic(auto, using(crate::proofs::Laws::rules))]
fn array(
    structures: &[Structure],
    least: &mut Least,
    x: Identifier,
    parts: Answer<(DataType, u32)>,
) -> Answer<DataType>
    ensures value { result ≡ answer_then parts (λ (v : DataType × ℕ). row.not_large structures.now x (made.array_of v.0 v.1)) }
    ensures noted { least.new ≡ noted least.old (faults_then parts (λ (v : DataType × ℕ). row.not_large structures.now x (made.array_of v.0 v.1))) }
{
    match parts {
        Answer::Good((t, length)) => not_large(structures, least, x, array_of(t, length)),
        Answer::Typeless => Answer::Typeless,
        Answer::Faulty => Answer::Faulty,
    }
}

impl Visible {
    /// The type of the array `x`.
    #[tactic(auto, using(crate::proofs::Laws::rules))]
    fn array_type(
        &self,
        least: &mut Least,
        x: Identifier,
        of: TypeName,
        length: Length,
    ) -> Answer<DataType>
        ensures value { result ≡ answer (checked (both (row.value_type self.now of) (row.array_length self.now length)) (λ (v : DataType × ℕ). row.not_large self.now.structures x (made.array_of v.0 v.1))) }
        ensures noted { least.new ≡ noted least.old (faults (checked (both (row.value_type self.now of) (row.array_length self.now length)) (λ (v : DataType × ℕ). row.not_large self.now.structures x (made.array_of v.0 v.1)))) }
    {
        let t = self.value_type(least, of);
        let length = self.array_length(least, length);
        array(self.structures.as_slice(), least, x, pair(t, length))
    }

    /// The type of a field: what is noted of the type written, of the length, and LargeType at the field's name.
    #[tactic(auto, using(crate::proofs::Laws::rules))]
    pub fn field_type(&self, least: &mut Least, field: Field) -> Answer<DataType>
        ensures value { result ≡ answer (field_with self.now field field.length) }
        ensures noted { least.new ≡ noted least.old (faults (field_with self.now field field.length)) }
    {
        match field.length {
            None => self.value_type(least, field.of),
            Some(length) => self.array_type(least, field.name, field.of, length),
        }
    }

    /// The type of a local variable: what is noted of the type written, of the length, and LargeType at the variable's name.
    #[tactic(auto, using(crate::proofs::Laws::rules))]
    pub fn local_type(&self, least: &mut Least, local: &Local) -> Answer<DataType>
        ensures value { result ≡ answer (local_type self.now local.now) }
        ensures noted { least.new ≡ noted least.old (faults (local_type self.now local.now)) }
    {
        match &local.form {
            LocalForm::Plain => self.value_type(least, local.of),
            LocalForm::Array(length) => self.array_type(least, local.name, local.of, *length),
            LocalForm::Value(_) => self.value_type(least, local.of),
        }
    }
}
