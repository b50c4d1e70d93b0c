//! The checker as it goes through the statements of a text.

ghost use Rattle.std.specs.Prelude.{◌≡◌, IfOk, OnOk, length};
ghost use Rattle.cc_declared.specs.Undone.{undone};
ghost use Rattle.cc_faults.specs.Declarations as declaration;
ghost use Rattle.cc_faults.specs.Faults.{noted};
ghost use Rattle.cc_faults.specs.Judged.{both, faults};
ghost use Rattle.cc_faults.specs.Programs.{fresh_enumeration};
ghost use Rattle.cc_faults.specs.Rows as row;
ghost use Rattle.cc_faults.specs.Scopes.{entry_at, is_there};

use crate::scene::Scene;
use cc_base::Memory;
use cc_declared::{Hidden, Known, Visible};
use cc_faults::{Around, Constant, Field, Identifier, Least};
use sqlite_items::Items;
use std::alloc::Global;
use std::marker::Model;

/// What is known of the whole text, and what is visible at the point to which the checker has come.
#[derive(Drop)]
pub struct Checker<'t> {
    pub(crate) alloc: Global,
    pub(crate) text: &'t Known<'t>,
    pub(crate) visible: Visible,
}

impl<'t> Model for Checker<'t> {
    ghost use Rattle.cc_typed.specs.contracts.tree.Expression as expression;
    ghost use Rattle.cc_types.specs.Checkers.{Checker};
    ghost use Rattle.std.specs.Coded.{codes};

    ghost Value = { Checker };

    ghost coded = { Prim.hlevel (codes, expression.the_row.coded) };

    ghost view = { λ c. record { text = c.text.now; scope = c.visible } };
}

impl<'t> Checker<'t> {
    pub(crate) fn alloc(&self) -> Global {
        self.alloc
    }

    /// What is known of the whole text.
    pub(crate) fn text(&self) -> &'t Known<'t>
        ensures text { result.now ≡ self.now.text }
    {
        self.text
    }

    /// Where an expression stands that is judged here.
    pub(crate) fn scene(&self, around: Around) -> Scene<'_>
        ensures scene { result ≡ record { text = self.now.text; scope = self.now.scope; around = around } }
    {
        Scene {
            alloc: self.alloc,
            text: self.text,
            visible: &self.visible,
            around,
        }
    }

    /// The number of the next variable.
    pub(crate) fn next_variable(&self) -> Result<u32, Memory>
        ensures next { IfOk result (λ n. n ≡ length self.now.scope.variables) }
    {
        short(self.visible.variables().len())
    }

    /// The number of the next accept.
    pub(crate) fn next_site(&self) -> Result<u32, Memory>
        ensures next { IfOk result (λ n. n ≡ length self.now.scope.sites) }
    {
        short(self.visible.sites().len())
    }

    /// Each of these names means again what it did; what was declared stays.
    pub(crate) fn restore(&mut self, hidden: Items<Hidden>)
        ensures scope { self.new.scope ≡ record self.old.scope { names = undone hidden self.old.scope.names } }
        ensures text { self.new.text ≡ self.old.text }
    {
        self.visible.restore(hidden);
    }
}

impl Checker<'_> {
    /// A structure, which is visible behind its declaration.
    pub(crate) fn structure(
        &mut self,
        least: &mut Least,
        x: Identifier,
        fields: &[Field],
    ) -> Result<(), Memory>
        ensures noted { OnOk result (least.new ≡ noted least.old (faults (both (row.fresh (is_there (entry_at self.old.scope.structures_named x)) x) (declaration.structure self.old.scope x fields.now)))) }
        ensures after { OnOk result (self.new.scope ≡ declaration.after_structure self.old.scope x fields.now) }
        ensures text { self.new.text ≡ self.old.text }
    {
        self.visible.structure(self.alloc, least, x, fields)
    }

    /// An enumeration, which is visible behind its declaration.
    pub(crate) fn enumeration(
        &mut self,
        least: &mut Least,
        x: Option<Identifier>,
        constants: &[Constant],
    )
        ensures noted { least.new ≡ noted least.old (faults (both (fresh_enumeration self.old.scope x) (declaration.constants self.old.scope constants.now))) }
        ensures after { self.new.scope ≡ declaration.after_enumeration self.old.scope x constants.now }
        ensures text { self.new.text ≡ self.old.text }
    {
        self.visible.enumeration(least, x, constants);
    }
}

/// A number in 32 bits.
pub(crate) fn short(number: usize) -> Result<u32, Memory>
    ensures { IfOk result (λ n. n ≡ number) }
{
    match u32::try_from(number) {
        Ok(number) => Ok(number),
        Err(_) => Err(Memory),
    }
}
