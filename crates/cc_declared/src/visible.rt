//! What is visible at a point of a text.

ghost use Rattle.std.specs.Prelude.{◌≡◌, OnOk};
ghost use Rattle.cc_declared.specs.Undone.{undone};
ghost use Rattle.cc_faults.specs.Scopes.{declared, meaning_at, with_name, with_variable};

use crate::names::{Hidden, entry, is_here, put_at, put_back};
use crate::seen::{Seen, short};
use cc_base::Memory;
use cc_faults::{FaultAt, Identifier, Meaning, Named};
use cc_typed::{DataType, Site, Structure};
use sqlite_items::Items;
use std::marker::Model;

/// What is visible: variables, constants, functions, and types by their names; and what was declared so far.
#[derive(Drop)]
pub struct Visible {
    pub(crate) names: Items<Option<Named>>,
    pub(crate) structures_named: Items<Option<Result<u32, FaultAt>>>,
    pub(crate) enumerations_named: Items<Option<Result<DataType, FaultAt>>>,
    pub(crate) processes_named: Items<Option<u32>>,
    pub(crate) structures: Items<Structure>,
    pub(crate) members: Items<Seen>,
    pub(crate) variables: Items<DataType>,
    pub(crate) sites: Items<Site>,
}

impl Model for Visible {
    ghost use Rattle.cc_faults.specs.Scopes.{Scope};
    ghost use Rattle.cc_typed.specs.contracts.tree.Expression as expression;
    ghost use Rattle.std.specs.Coded.{codes};

    ghost Value = { Scope };

    ghost coded = { Prim.hlevel (codes, expression.the_row.coded) };

    ghost view = { λ v. record { names = v.names; structures_named = v.structures_named; enumerations_named = v.enumerations_named; processes_named = v.processes_named; structures = v.structures; members = v.members; variables = v.variables; sites = v.sites } };
}

impl Visible {
    /// What a name means here.
    pub fn meaning(&self, x: Identifier) -> Option<Named>
        ensures meaning { result ≡ meaning_at self.now x }
    {
        entry(self.names.as_slice(), x)
    }

    /// From here on a name means this.
    pub(crate) fn name(&mut self, scope: u32, x: Identifier, meaning: Meaning)
        ensures { self.new ≡ with_name scope self.old x meaning }
    {
        put_at(&mut self.names, x.name, Some(Named { scope, meaning }));
    }

    /// From here on a name means a variable, with its type or the fault for which it has none.
    fn variable(
        &mut self,
        scope: u32,
        x: Identifier,
        t: Result<DataType, FaultAt>,
    ) -> Result<(), Memory>
        ensures { OnOk result (self.new ≡ with_variable scope self.old x t) }
    {
        match t {
            Err(fault) => self.name(scope, x, Meaning::Typeless(fault)),
            Ok(t) => {
                let number = short(self.variables.len())?;
                self.variables.push(t)?;
                self.name(scope, x, Meaning::Variable(number));
            }
        }
        Ok(())
    }

    /// Declares a variable, with its type or the fault for which it has none, and adds what its name meant before to `hidden`. A second
    /// declaration in one scope declares nothing.
    pub fn declare(
        &mut self,
        scope: u32,
        x: Identifier,
        t: Result<DataType, FaultAt>,
        hidden: &mut Items<Hidden>,
    ) -> Result<(), Memory>
        ensures after { OnOk result (self.new ≡ declared scope self.old x t) }
        ensures names { OnOk result (undone hidden.new self.new.names ≡ undone hidden.old self.old.names) }
    {
        let meant = self.meaning(x);
        hidden.push(Hidden {
            name: x.name,
            meant,
        })?;
        if is_here(scope, meant) {
            return Ok(());
        }
        self.variable(scope, x, t)?;
        Ok(())
    }

    /// Each of these names means again what it did; what was declared stays.
    pub fn restore(&mut self, hidden: Items<Hidden>)
        ensures left { self.new ≡ record self.old { names = undone hidden self.old.names } }
    {
        put_back(&mut self.names, hidden);
    }
}
