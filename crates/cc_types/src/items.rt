//! What is found of the items of a text, one after the other.

ghost use Rattle.std.specs.Prelude.{◌≡◌, ◌+◌, [], IfOk, OnOk};
ghost use Rattle.cc_faults.specs.Judged.{after_each};
ghost use Rattle.cc_faults.specs.Programs as program;
ghost use Rattle.cc_faults.specs.Programs.{Passed};
ghost use Rattle.cc_faults.specs.declared.plain.Item.TheVariants as plain;
ghost use Rattle.cc_types.specs.Passing as passing;
ghost use Rattle.cc_types.specs.Passing.{Goes, HasPassed};

use crate::progress::Progress;
use crate::specifications::Specified;
use cc_base::Memory;
use cc_faults::{
    Constant, Field, Identifier, Item, Least, Parameter, Statement, Transaction, TypeName,
};

/// A number more, in 32 bits.
fn one_more(number: u32) -> Result<u32, Memory>
    ensures { IfOk result (λ n. n ≡ number + 1) }
{
    match number.checked_add(1) {
        Some(next) => Ok(next),
        None => Err(Memory),
    }
}

impl Progress<'_> {
    /// A structure.
    fn structure(
        &mut self,
        least: &mut Least,
        x: Identifier,
        fields: &[Field],
    ) -> Result<(), Memory>
        ensures goes { OnOk result (Goes self.old least.old (plain.Structure x fields.now) self.new least.new) }
        ensures text { self.new.text ≡ self.old.text }
    {
        self.checker.structure(least, x, fields)?;
        Ok(())
    }

    /// An enumeration.
    fn enumeration(&mut self, least: &mut Least, x: Option<Identifier>, constants: &[Constant])
        ensures goes { Goes self.old least.old (plain.Enumeration x constants.now) self.new least.new }
        ensures text { self.new.text ≡ self.old.text }
    {
        self.checker.enumeration(least, x, constants);
    }

    /// A process type.
    fn specification(
        &mut self,
        least: &mut Least,
        x: Identifier,
        types: &[TypeName],
        transactions: &[Transaction],
    ) -> Result<(), Memory>
        ensures goes { OnOk result (Goes self.old least.old (plain.Specification x types.now transactions.now) self.new least.new) }
        ensures text { self.new.text ≡ self.old.text }
    {
        let number = one_more(self.kinds)?;
        let taken = self.specifications.see(x.name)?;
        let there = self.all_bodies.contains(x.name);
        let of = Specified {
            number,
            name: x,
            taken,
            there,
        };
        self.checker
            .specification(least, &mut self.made, of, types, transactions)?;
        self.kinds = number;
        Ok(())
    }

    /// The body of a process type.
    fn body(
        &mut self,
        least: &mut Least,
        x: Identifier,
        names: &[Identifier],
        block: &[Statement],
    ) -> Result<(), Memory>
        requires outside { self.old.scope.variables ≡ [] }
        ensures goes { OnOk result (Goes self.old least.old (plain.Body x names.now block.now) self.new least.new) }
        ensures text { self.new.text ≡ self.old.text }
    {
        let taken = self.bodies.see(x.name)?;
        self.checker
            .body(least, &mut self.made, taken, x, names, block)?;
        Ok(())
    }

    /// A function, or `main`.
    fn function(
        &mut self,
        least: &mut Least,
        of: TypeName,
        x: Identifier,
        parameters: &[Parameter],
        block: &[Statement],
    ) -> Result<(), Memory>
        requires outside { self.old.scope.variables ≡ [] }
        ensures goes { OnOk result (Goes self.old least.old (plain.Function of x parameters.now block.now) self.new least.new) }
        ensures text { self.new.text ≡ self.old.text }
    {
        self.checker
            .function(least, &mut self.made, of, x, parameters, block)?;
        Ok(())
    }

    /// What is found of an item.
    fn item(&mut self, least: &mut Least, item: &Item) -> Result<(), Memory>
        requires outside { self.old.scope.variables ≡ [] }
        ensures goes { OnOk result (Goes self.old least.old item.now self.new least.new) }
        ensures text { self.new.text ≡ self.old.text }
    {
        match item {
            Item::Structure { name, fields } => self.structure(least, *name, fields.as_slice()),
            Item::Enumeration { name, constants } => {
                self.enumeration(least, *name, constants.as_slice());
                Ok(())
            }
            Item::Specification {
                name,
                parameters,
                transactions,
            } => self.specification(least, *name, parameters.as_slice(), transactions.as_slice()),
            Item::Body { name, names, block } => {
                self.body(least, *name, names.as_slice(), block.as_slice())
            }
            Item::Function {
                result,
                name,
                parameters,
                block,
            } => self.function(
                least,
                *result,
                *name,
                parameters.as_slice(),
                block.as_slice(),
            ),
        }
    }

    /// What is found of items in their order.
    pub(crate) fn items(&mut self, least: &mut Least, all: &[Item]) -> Result<(), Memory>
        requires passed { (b : Passed) × HasPassed all.now b self.old }
        ensures found { OnOk result ((b : Passed) → HasPassed all.now b self.old → passing.AreFound self.old.text all.now b least.old self.old.made least.new self.new.made) }
        ensures passed { OnOk result ((b : Passed) → HasPassed all.now b self.old → HasPassed all.now (after_each (program.and_item self.old.text) b all.now) self.new) }
    {
        for item in all {
            self.item(least, item)?;
        }
        Ok(())
    }
}
