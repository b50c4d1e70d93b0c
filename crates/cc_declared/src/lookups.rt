//! What is asked of what is visible, and of what is known of a text.

ghost use Rattle.std.specs.Prelude.{◌≡◌, IfOk, slice_get};
ghost use Rattle.cc_faults.specs.Rows.{fields_named, names_of};
ghost use Rattle.cc_faults.specs.Scopes.{entry_at, position};

use crate::known::Known;
use crate::names::entry;
use crate::seen::Seen;
use crate::visible::Visible;
use cc_base::{Bytes, Memory};
use cc_faults::{FaultAt, Identifier, KindHead, Signature};
use cc_typed::{DataType, ElementType, Structure};

/// The number of a name among the names of a structure of this number; none where either isn't there.
fn number_among(members: &[Seen], structure: u32, name: u32) -> Result<Option<u32>, Memory>
    ensures { IfOk result (λ n. n ≡ position (names_of (slice_get members.now structure)) name) }
{
    match members.get(structure as usize) {
        None => Ok(None),
        Some(names) => names.position(name),
    }
}

impl Visible {
    /// The number of a process type.
    pub fn process(&self, x: Identifier) -> Option<u32>
        ensures process { result ≡ entry_at self.now.processes_named x }
    {
        entry(self.processes_named.as_slice(), x)
    }

    /// The types of the variables of the function or body so far.
    pub fn variables(&self) -> &[DataType]
        ensures variables { result.now ≡ self.now.variables }
    {
        self.variables.as_slice()
    }

    /// The structures so far.
    pub fn structures(&self) -> &[Structure]
        ensures structures { result.now ≡ self.now.structures }
    {
        self.structures.as_slice()
    }

    /// The number of a field of a structure; none where the type has no such field.
    pub fn field_number(&self, t: DataType, x: Identifier) -> Result<Option<u32>, Memory>
        ensures number { IfOk result (λ n. n ≡ position (fields_named self.now t) x.name) }
    {
        match t {
            DataType::Single(ElementType::Struct { number }) => number_among(
                self.members.as_slice(),
                number,
                x.name,
            ),
            DataType::Single(ElementType::Number(_)) => Ok(None),
            DataType::Single(ElementType::Process { .. }) => Ok(None),
            DataType::Array { .. } => Ok(None),
            DataType::Void => Ok(None),
        }
    }
}

impl<'t> Known<'t> {
    /// The heads of the functions but `main`, by their numbers.
    pub fn functions(&self) -> &[Result<Signature, FaultAt>]
        ensures functions { result.now ≡ self.now.functions }
    {
        self.functions.as_slice()
    }

    /// The heads of the kinds of processes, by their numbers.
    pub fn kinds(&self) -> &[KindHead]
        ensures kinds { result.now ≡ self.now.kinds }
    {
        self.kinds.as_slice()
    }

    /// The formats of the text, by their numbers.
    pub fn formats(&self) -> &'t [Bytes]
        ensures formats { result.now ≡ self.now.formats }
    {
        self.formats
    }
}
