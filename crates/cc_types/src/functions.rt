//! Functions and bodies: their heads, and their blocks.

ghost use Rattle.std.specs.Prelude.{◌≡◌, [], IfOk, OnOk};
ghost use Rattle.cc_declared.specs.Lists.{made_of};
ghost use Rattle.cc_declared.specs.Undone.{undone};
ghost use Rattle.cc_faults.specs.Declarations.{after_function};
ghost use Rattle.cc_faults.specs.Faults.{noted};
ghost use Rattle.cc_faults.specs.Judged.{answer, faults, outcome};
ghost use Rattle.cc_faults.specs.Programs as program;
ghost use Rattle.cc_faults.specs.Rows.{with_specification};
ghost use Rattle.cc_faults.specs.Scopes.{meaning_at};
ghost use Rattle.cc_types.specs.Making.{Makes};
ghost use Rattle.cc_types.specs.Passing as passing;

use crate::checker::{Checker, short};
use crate::made::{Block, Made};
use cc_base::Memory;
use cc_declared::Hidden;
use cc_faults::{
    FaultAt, Identifier, Least, Parameter, Role, Signature, Statement, TypeKind, TypeName,
};
use cc_rows::around::outermost;
use cc_typed::DataType;
use sqlite_items::Items;

/// The type with which a `return` gives back its value, from the head of a function or of `main`.
#[tactic(auto, unfolding(cc_declared::specs::Lists::made_of))]
fn role_of(x: Identifier, head: &Result<Signature, FaultAt>) -> Role
    ensures { result ≡ passing.role_with x (made_of program.result_of head.now) }
{
    let of = match head {
        Ok(head) => Ok(head.result),
        Err(fault) => Err(*fault),
    };
    if x.name == 0 {
        Role::Main(of)
    } else {
        Role::Function(of)
    }
}

/// The number of a process type, or the fault for which it isn't known.
fn kind_known(x: Identifier, kind: Option<u32>) -> Result<u32, FaultAt>
    ensures { result ≡ outcome (with_specification x kind) }
{
    match kind {
        Some(kind) => Ok(kind),
        None => Err(FaultAt {
            place: x.place,
            kind: TypeKind::NoSpec,
        }),
    }
}

impl Checker<'_> {
    /// What is found of the block of a function or body that was entered. Behind it each of the names means again what it did, and the variables
    /// are gone.
    fn block_entered(
        &mut self,
        least: &mut Least,
        role: Role,
        block: &[Statement],
        hidden: Items<Hidden>,
    ) -> Result<Block, Memory>
        ensures body { IfOk result (λ b. b.body ≡ answer (passing.block_judged self.old.text role self.old.scope block.now)) }
        ensures variables { IfOk result (λ b. b.variables ≡ (passing.after_block self.old.text role self.old.scope block.now).variables) }
        ensures noted { OnOk result (least.new ≡ noted least.old (faults (passing.block_judged self.old.text role self.old.scope block.now))) }
        ensures after { OnOk result (self.new.scope ≡ record (passing.after_block self.old.text role self.old.scope block.now) { names = undone hidden self.old.scope.names; variables = [] }) }
        ensures text { self.new.text ≡ self.old.text }
    {
        let body = self.block(least, outermost(role), block)?;
        self.restore(hidden);
        let variables = self.visible.take_variables(self.alloc);
        Ok(Block { variables, body })
    }

    /// A function, or `main`: its head, and its block, which is judged whatever its head holds.
    pub(crate) fn function(
        &mut self,
        least: &mut Least,
        made: &mut Made,
        of: TypeName,
        x: Identifier,
        parameters: &[Parameter],
        block: &[Statement],
    ) -> Result<(), Memory>
        requires outside { self.old.scope.variables ≡ [] }
        ensures made { OnOk result (Makes made.old (passing.function_judged self.old.text self.old.scope of x parameters.now block.now) made.new) }
        ensures noted { OnOk result (least.new ≡ noted least.old (faults (passing.function_judged self.old.text self.old.scope of x parameters.now block.now))) }
        ensures after { OnOk result (self.new.scope ≡ after_function self.old.scope x (meaning_at self.old.scope x)) }
        ensures text { self.new.text ≡ self.old.text }
    {
        let count = short(parameters.len())?;
        let head = self
            .visible
            .function_head(self.alloc, least, x, of, parameters)?;
        let role = role_of(x, &head);
        let mut hidden = Items::new(self.alloc);
        self.visible
            .enter_function(self.alloc, parameters, &mut hidden)?;
        let block = self.block_entered(least, role, block, hidden)?;
        made.add_function(x.name == 0, count, head, block)?;
        self.visible.after_function(x);
        Ok(())
    }

    /// The body of a process type: its head, and its block, which is judged whatever its head holds. `taken` says whether there was a body of its
    /// name before.
    pub(crate) fn body(
        &mut self,
        least: &mut Least,
        made: &mut Made,
        taken: bool,
        x: Identifier,
        names: &[Identifier],
        block: &[Statement],
    ) -> Result<(), Memory>
        requires outside { self.old.scope.variables ≡ [] }
        ensures made { OnOk result (Makes made.old (passing.body_judged self.old.text taken self.old.scope x names.now block.now) made.new) }
        ensures noted { OnOk result (least.new ≡ noted least.old (faults (passing.body_judged self.old.text taken self.old.scope x names.now block.now))) }
        ensures after { OnOk result (self.new.scope ≡ program.with_sites self.old.scope (program.after_body self.old.text self.old.scope x names.now block.now)) }
        ensures text { self.new.text ≡ self.old.text }
    {
        let count = short(names.len())?;
        let kind = self.visible.process(x);
        let types = self
            .visible
            .body_head(self.alloc, least, self.text, taken, x, names)?;
        let mut hidden = Items::new(self.alloc);
        self.visible
            .enter_body(self.alloc, &types, names, &mut hidden)?;
        let role = Role::Body(kind_known(x, kind));
        let block = self.block_entered(least, role, block, hidden)?;
        made.add_body(kind, count, block);
        Ok(())
    }
}
