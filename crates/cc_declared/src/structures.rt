//! Structures.

ghost use Rattle.std.specs.Prelude.{◌≡◌, ◌++◌, [], ◌∷◌, Ok, IfOk, OnOk, length, if◌then◌else◌};
ghost use Rattle.cc_declared.specs.Lists.{faults_ruled, ruled};
ghost use Rattle.cc_declared.specs.Walks.{and_field_found, field_at, with_structure_found};
ghost use Rattle.cc_faults.specs.Declarations as spec;
ghost use Rattle.cc_faults.specs.Faults.{noted};
ghost use Rattle.cc_faults.specs.Judged.{after_each, both, faults, outcome};
ghost use Rattle.cc_faults.specs.Rows as row;
ghost use Rattle.cc_faults.specs.Scopes.{entry_at, is_there};

use crate::lists::{noted_fault, put, unless_taken};
use crate::names::{entry, is_there, put_at};
use crate::seen::{Seen, short};
use crate::sums::laid;
use crate::visible::Visible;
use cc_base::Memory;
use cc_faults::{FaultAt, Field, Identifier, Least, TypeKind, fresh};
use cc_typed::{DataType, Structure};
use sqlite_items::Items;
use std::alloc::Global;

impl Visible {
    /// The type of a field, where no field before it has its name, or the first of its faults. All of them are noted.
    #[tactic(auto, using(crate::proofs::Firsts::firsts))]
    fn field(&self, least: &mut Least, taken: bool, field: Field) -> Result<DataType, FaultAt>
        ensures outcome { result ≡ outcome (field_at self.now taken field) }
        ensures noted { least.new ≡ noted least.old (faults (field_at self.now taken field)) }
    {
        let _ = fresh(least, taken, field.name);
        let _ = self.field_type(least, field);
        unless_taken(taken, field.name, self.outcome_of_field_type(field))
    }

    /// The types of the fields, or the first of their faults. All of them are noted, and the names are added to those that were seen.
    fn fields(
        &self,
        alloc: Global,
        least: &mut Least,
        names: &mut Seen,
        fields: &[Field],
    ) -> Result<Result<Items<DataType>, FaultAt>, Memory>
        ensures types { IfOk result (λ r. r ≡ (after_each (and_field_found self.now) (Ok [], least.old, names.old) fields.now).0) }
        ensures noted { OnOk result (least.new ≡ (after_each (and_field_found self.now) (Ok [], least.old, names.old) fields.now).1) }
        ensures names { OnOk result (names.new ≡ (after_each (and_field_found self.now) (Ok [], least.old, names.old) fields.now).2) }
    {
        let mut types = Ok(Items::new(alloc));
        for f in fields {
            let taken = names.see(f.name.name)?;
            let found = self.field(least, taken, *f);
            types = put(types, found)?;
        }
        Ok(types)
    }

    /// LargeType: the structure with fields of these types, where it isn't large.
    #[tactic(auto, using(crate::proofs::Firsts::noting))]
    fn not_large(
        &self,
        alloc: Global,
        least: &mut Least,
        x: Identifier,
        types: &[DataType],
    ) -> Result<Result<Structure, FaultAt>, Memory>
        ensures outcome { IfOk result (λ r. r ≡ outcome (row.structure_not_large x (spec.structure_of self.now types.now))) }
        ensures noted { OnOk result (least.new ≡ noted least.old (faults (row.structure_not_large x (spec.structure_of self.now types.now)))) }
    {
        match laid(alloc, self.structures.as_slice(), types)? {
            None => Ok(Err(noted_fault(least, x.place, TypeKind::LargeType))),
            Some(structure) => Ok(Ok(structure)),
        }
    }

    /// The structure with fields of the types that were found.
    #[tactic(auto, using(crate::proofs::Firsts::noting), unfolding(crate::specs::Lists::ruled, crate::specs::Lists::faults_ruled))]
    fn structure_of(
        &self,
        alloc: Global,
        least: &mut Least,
        x: Identifier,
        types: Result<Items<DataType>, FaultAt>,
    ) -> Result<Result<Structure, FaultAt>, Memory>
        ensures outcome { IfOk result (λ r. r ≡ ruled types (λ ts. outcome (row.structure_not_large x (spec.structure_of self.now ts)))) }
        ensures noted { OnOk result (least.new ≡ noted least.old (faults_ruled types (λ ts. row.structure_not_large x (spec.structure_of self.now ts)))) }
    {
        match types {
            Err(fault) => Ok(Err(fault)),
            Ok(types) => self.not_large(alloc, least, x, types.as_slice()),
        }
    }

    /// Declares a structure that was found with these names of its fields, or the fault of its declaration.
    fn with_structure(
        &mut self,
        x: Identifier,
        found: Result<Structure, FaultAt>,
        names: Seen,
    ) -> Result<(), Memory>
        ensures { OnOk result (self.new ≡ with_structure_found self.old x found names) }
    {
        match found {
            Err(fault) => put_at(&mut self.structures_named, x.name, Some(Err(fault))),
            Ok(structure) => {
                let number = short(self.structures.len())?;
                put_at(&mut self.structures_named, x.name, Some(Ok(number)));
                self.structures.push(structure)?;
                self.members.push(names)?;
            }
        }
        Ok(())
    }

    /// Declares a structure, unless one of its name is declared.
    fn and_structure(
        &mut self,
        there: bool,
        x: Identifier,
        found: Result<Structure, FaultAt>,
        names: Seen,
    ) -> Result<(), Memory>
        ensures { OnOk result (self.new ≡ (if there then self.old else with_structure_found self.old x found names)) }
    {
        if there {
            return Ok(());
        }
        self.with_structure(x, found, names)
    }

    /// Declares a structure, which is visible behind its declaration. A second one of its name is Duplicate and declares nothing.
    pub fn structure(
        &mut self,
        alloc: Global,
        least: &mut Least,
        x: Identifier,
        fields: &[Field],
    ) -> Result<(), Memory>
        ensures after { OnOk result (self.new ≡ spec.after_structure self.old x fields.now) }
        ensures noted { OnOk result (least.new ≡ noted least.old (faults (both (row.fresh (is_there (entry_at self.old.structures_named x)) x) (spec.structure self.old x fields.now)))) }
    {
        let there = is_there(entry(self.structures_named.as_slice(), x));
        let _ = fresh(least, there, x);
        let mut names = Seen::new(alloc);
        let types = self.fields(alloc, least, &mut names, fields)?;
        let found = self.structure_of(alloc, least, x, types)?;
        self.and_structure(there, x, found, names)?;
        Ok(())
    }
}
