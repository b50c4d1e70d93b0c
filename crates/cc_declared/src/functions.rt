//! Parameters of functions and names of bodies as variables.

ghost use Rattle.std.specs.Prelude.{◌≡◌, OnOk};
ghost use Rattle.cc_declared.specs.Entering.{and_parameter};
ghost use Rattle.cc_declared.specs.Undone.{undone};
ghost use Rattle.cc_faults.specs.Programs as spec;

use crate::names::Hidden;
use crate::visible::Visible;
use cc_base::Memory;
use cc_faults::Parameter;
use cc_typed::{DataType, Site, Structure};
use sqlite_items::Items;
use std::alloc::Global;
use std::mem;

/// The structures and the accepts of a text.
#[derive(Drop)]
pub struct Tables {
    pub structures: Items<Structure>,
    pub sites: Items<Site>,
}

/// The scope of the parameters and of the outermost block of a function or body.
pub(crate) const OUTERMOST_SCOPE: u32 = 2;

impl Visible {
    /// Variables are numbered anew.
    pub(crate) fn without_variables(&mut self, alloc: Global)
        ensures { self.new ≡ spec.no_variables self.old }
    {
        self.variables = Items::new(alloc);
    }

    /// The types of the variables so far, of which none is left here.
    pub fn take_variables(&mut self, alloc: Global) -> Items<DataType>
        ensures variables { result ≡ self.old.variables }
        ensures left { self.new ≡ spec.no_variables self.old }
    {
        mem::replace(&mut self.variables, Items::new(alloc))
    }

    /// The structures and the accepts so far, when all is read.
    pub fn into_tables(self) -> Tables
        ensures structures { result.structures ≡ self.structures }
        ensures sites { result.sites ≡ self.sites }
    {
        Tables {
            structures: self.structures,
            sites: self.sites,
        }
    }

    /// Declares a parameter with the type that is written, or with the first fault of that.
    fn parameter(&mut self, p: &Parameter, hidden: &mut Items<Hidden>) -> Result<(), Memory>
        ensures after { OnOk result (self.new ≡ and_parameter self.old p.now) }
        ensures names { OnOk result (undone hidden.new self.new.names ≡ undone hidden.old self.old.names) }
    {
        let t = self.outcome_of_value_type(p.of);
        self.declare(OUTERMOST_SCOPE, p.name, t, hidden)?;
        Ok(())
    }

    /// Enters a function: its variables are its parameters. What their names meant before is added to `hidden`.
    pub fn enter_function(
        &mut self,
        alloc: Global,
        parameters: &[Parameter],
        hidden: &mut Items<Hidden>,
    ) -> Result<(), Memory>
        ensures after { OnOk result (self.new ≡ spec.in_function self.old parameters.now) }
        ensures names { OnOk result (undone hidden.new self.new.names ≡ undone hidden.old self.old.names) }
    {
        self.without_variables(alloc);
        for p in parameters {
            self.parameter(p, hidden)?;
        }
        Ok(())
    }
}
