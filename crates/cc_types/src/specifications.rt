//! Process types and their transactions.

ghost use Rattle.std.specs.Prelude.{◌≡◌, [], ◌++◌, List, IfOk, OnOk};
ghost use Rattle.cc_declared.specs.Lists.{and_once};
ghost use Rattle.cc_faults.specs.Faults.{noted};
ghost use Rattle.cc_faults.specs.Judged.{Good, faults};
ghost use Rattle.cc_faults.specs.Scopes.{is_among};
ghost use Rattle.cc_typed.specs.declared.tree.Transaction as typed;
ghost use Rattle.cc_types.specs.Making.{Makes};
ghost use Rattle.cc_types.specs.Passing as passing;

use crate::checker::Checker;
use crate::made::Made;
use cc_base::Memory;
use cc_declared::Seen;
use cc_faults::{Identifier, Least, Transaction, TypeName, fresh, with_body};

/// A process type among the items: its number and name, whether one before it has the name, and whether it has a body.
#[derive(Clone, Copy, Debug, Drop)]
pub(crate) struct Specified {
    pub(crate) number: u32,
    pub(crate) name: Identifier,
    pub(crate) taken: bool,
    pub(crate) there: bool,
}

impl Checker<'_> {
    /// A transaction of this kind: its name is not among those before it, and its types.
    fn transaction(
        &self,
        least: &mut Least,
        made: &mut Made,
        names: &mut Seen,
        kind: u32,
        transaction: &Transaction,
    ) -> Result<(), Memory>
        ensures made { OnOk result ((d : typed.Transaction) → passing.transaction_judged kind self.now.scope (is_among names.old transaction.now.name.name) transaction.now ≡ Good d → made.new ≡ passing.and_made made.old d) }
        ensures noted { OnOk result (least.new ≡ noted least.old (faults (passing.transaction_judged kind self.now.scope (is_among names.old transaction.now.name.name) transaction.now))) }
        ensures names { OnOk result (names.new ≡ and_once names.old transaction.now.name.name) }
    {
        let taken = names.see(transaction.name.name)?;
        let _ = fresh(least, taken, transaction.name);
        let head = self
            .visible
            .transaction_signature(self.alloc, least, transaction)?;
        made.add_transaction(kind, transaction.result.is_none(), head)?;
        Ok(())
    }

    /// The transactions of this kind in their order.
    fn transactions(
        &self,
        least: &mut Least,
        made: &mut Made,
        kind: u32,
        all: &[Transaction],
    ) -> Result<(), Memory>
        ensures made { OnOk result ((ds : List typed.Transaction) → passing.transactions_judged kind self.now.scope all.now ≡ Good ds → made.new ≡ record made.old { transactions = made.old.transactions ++ ds }) }
        ensures noted { OnOk result (least.new ≡ noted least.old (faults (passing.transactions_judged kind self.now.scope all.now))) }
    {
        let mut names = Seen::new(self.alloc);
        for transaction in all {
            self.transaction(least, made, &mut names, kind, transaction)?;
        }
        Ok(())
    }

    /// A process type: its name, whether it has a body, the types of its parameters, and its transactions.
    pub(crate) fn specification(
        &self,
        least: &mut Least,
        made: &mut Made,
        of: Specified,
        types: &[TypeName],
        transactions: &[Transaction],
    ) -> Result<(), Memory>
        ensures made { OnOk result (Makes made.old (passing.specification_judged of self.now.scope types.now transactions.now) made.new) }
        ensures noted { OnOk result (least.new ≡ noted least.old (faults (passing.specification_judged of self.now.scope types.now transactions.now))) }
    {
        let _ = fresh(least, of.taken, of.name);
        let _ = with_body(least, of.there, of.name);
        let _ = self.visible.parameters(self.alloc, least, of.name, types)?;
        self.transactions(least, made, of.number, transactions)?;
        Ok(())
    }
}
