//! What is found of an accept up to its block, and where the block stands.

ghost use Rattle.std.specs.Option.{option_copied};
ghost use Rattle.std.specs.Prelude.{◌≡◌, IfOk, OnOk, slice_get};
ghost use Rattle.cc_declared.specs.Undone.{undone};
ghost use Rattle.cc_faults.specs.Faults.{noted};
ghost use Rattle.cc_faults.specs.Judged.{answer, answer_map, faults};
ghost use Rattle.cc_faults.specs.Rows as row;
ghost use Rattle.cc_faults.specs.Scopes.{declared, is_here, meaning_at};
ghost use Rattle.cc_rows.specs.Accepts.{types_in};
ghost use Rattle.cc_rows.specs.Called.{transaction_in};
ghost use Rattle.cc_types.specs.Judging as judging;
ghost use Rattle.cc_types.specs.Judging.{nothing};
ghost use Rattle.cc_types.specs.Naming as naming;

use crate::checker::Checker;
use crate::sites::{NumberAndCount, WordAndClause};
use cc_base::Memory;
use cc_declared::{Hidden, Known};
use cc_faults::{
    AcceptHead, Answer, Around, Clause, FaultAt, Identifier, KindHead, Least, Reply, Role,
    TransactionHead, fresh, pair,
};
use cc_rows::accepts::{accepted, reply_of, type_of_name, types_accepted};
use cc_rows::around::{deeper, in_accept, in_clause};
use cc_rows::calls::Transaction;
use cc_rows::made::{kept, put};
use cc_rows::phrases::{clause, with_word};
use cc_typed::DataType;
use sqlite_items::Items;

/// The transaction of this name.
fn transaction_named(heads: &[TransactionHead], x: Identifier) -> Option<&TransactionHead>
    ensures { option_copied result ≡ row.transaction_named heads.now x.name }
{
    for head in heads {
        if head.name == x.name {
            return Some(head);
        }
    }
    None
}

/// The transaction of this name of the process type of this number.
fn transaction_at(kinds: &[KindHead], kind: u32, x: Identifier) -> Option<&TransactionHead>
    ensures { option_copied result ≡ row.transaction_named (row.transactions_of (slice_get kinds.now kind)) x.name }
{
    match kinds.get(kind as usize) {
        None => None,
        Some(kind) => transaction_named(kind.transactions.as_slice(), x),
    }
}

/// The transaction of this name of the process type in whose body a phrase stands; none where that isn't known to have it.
/// It goes through the transactions of the process type; a map is to stand in its place.
#[tactic(auto, using(crate::proofs::Naming::bodies))]
fn transaction_in_body<'t>(
    text: &'t Known<'t>,
    role: Role,
    x: Identifier,
) -> Option<&'t TransactionHead>
    ensures { option_copied result ≡ naming.transaction_in_body text.now role x }
{
    match role {
        Role::Body(Ok(kind)) => transaction_at(text.kinds(), kind, x),
        Role::Body(Err(_)) => None,
        Role::Function(_) => None,
        Role::Main(_) => None,
    }
}

/// What a site needs to know of a transaction.
fn number_and_count(transaction: Answer<Transaction<'_>>) -> Answer<NumberAndCount>
    ensures { result ≡ answer_map naming.number_and_count (answer_map transaction_in transaction.entry) }
{
    match transaction {
        Answer::Good(transaction) => Answer::Good((
            transaction.head.number,
            transaction.types.parameters.len(),
        )),
        Answer::Typeless => Answer::Typeless,
        Answer::Faulty => Answer::Faulty,
    }
}

impl Checker<'_> {
    /// Duplicate: a name of an accept, which is declared with this type or with the fault for which it has none.
    fn name(
        &mut self,
        least: &mut Least,
        scope: u32,
        x: Identifier,
        t: Result<DataType, FaultAt>,
        hidden: &mut Items<Hidden>,
    ) -> Result<Answer<()>, Memory>
        ensures value { IfOk result (λ r. r ≡ answer (row.fresh (is_here scope (meaning_at self.old.scope x)) x)) }
        ensures noted { OnOk result (least.new ≡ noted least.old (faults (row.fresh (is_here scope (meaning_at self.old.scope x)) x))) }
        ensures after { OnOk result (self.new.scope ≡ declared scope self.old.scope x t) }
        ensures names { OnOk result (undone hidden.new self.new.scope.names ≡ undone hidden.old self.old.scope.names) }
        ensures text { self.new.text ≡ self.old.text }
    {
        let is_fresh = fresh(least, self.visible.is_taken(scope, x), x);
        self.visible.declare(scope, x, t, hidden)?;
        Ok(is_fresh)
    }

    /// Duplicate: the names of an accept, which are declared one after the other.
    fn names(
        &mut self,
        least: &mut Least,
        scope: u32,
        types: Result<&[DataType], FaultAt>,
        names: &[Identifier],
        hidden: &mut Items<Hidden>,
    ) -> Result<Answer<()>, Memory>
        ensures value { IfOk result (λ r. r ≡ answer_map nothing (answer (naming.naming scope (types_in types.entry) 0 self.old.scope names.now))) }
        ensures noted { OnOk result (least.new ≡ noted least.old (faults (naming.naming scope (types_in types.entry) 0 self.old.scope names.now))) }
        ensures after { OnOk result (self.new.scope ≡ naming.after_naming scope (types_in types.entry) 0 self.old.scope names.now) }
        ensures names { OnOk result (undone hidden.new self.new.scope.names ≡ undone hidden.old self.old.scope.names) }
        ensures text { self.new.text ≡ self.old.text }
    {
        let mut all = Answer::Good(());
        for (at, x) in names.iter().enumerate() {
            let one = self.name(least, scope, *x, type_of_name(types, at), hidden)?;
            all = kept(all, one);
        }
        Ok(all)
    }

    /// The transaction that is accepted and the names, which are declared.
    fn accepted(
        &mut self,
        least: &mut Least,
        around: Around,
        a: &AcceptHead,
        hidden: &mut Items<Hidden>,
    ) -> Result<Answer<NumberAndCount>, Memory>
        ensures value { IfOk result (λ r. r ≡ answer_map naming.in_site (answer (naming.accepted_judged self.old.text around self.old.scope a.now))) }
        ensures noted { OnOk result (least.new ≡ noted least.old (faults (naming.accepted_judged self.old.text around self.old.scope a.now))) }
        ensures after { OnOk result (self.new.scope ≡ naming.behind_names self.old.text around self.old.scope a.now) }
        ensures names { OnOk result (undone hidden.new self.new.scope.names ≡ undone hidden.old self.old.scope.names) }
        ensures text { self.new.text ≡ self.old.text }
    {
        let found = transaction_in_body(self.text(), around.role, a.name);
        let count = a.names.len();
        let transaction = accepted(least, around.role, a.place, a.name, found, count);
        let types = types_accepted(around.role, a.place, a.name, found, count);
        let within = deeper(around)?;
        let names = self.names(least, within.scope, types, a.names.as_slice(), hidden)?;
        Ok(kept(names, number_and_count(transaction)))
    }

    /// Mismatch and PureTooDeep: a clause, where it stands.
    #[tactic(auto, using(crate::proofs::Naming::clauses))]
    fn clause(
        &self,
        least: &mut Least,
        around: Around,
        c: &Clause,
    ) -> Result<Answer<WordAndClause>, Memory>
        ensures value { IfOk result (λ r. r ≡ answer (naming.clause_within self.now.text around self.now.scope c.now)) }
        ensures noted { OnOk result (least.new ≡ noted least.old (faults (naming.clause_within self.now.text around self.now.scope c.now))) }
    {
        let found = self.found(least, around, &c.expression)?;
        let value = clause(self.alloc, least, &c.expression, found)?;
        Ok(with_word(c.word, value))
    }

    /// The clauses of an accept, where they stand.
    #[tactic(auto, using(crate::proofs::Naming::clauses))]
    fn clauses(
        &self,
        least: &mut Least,
        around: Around,
        all: &[Clause],
    ) -> Result<Answer<Items<WordAndClause>>, Memory>
        ensures value { IfOk result (λ r. r ≡ answer (naming.clauses_within self.now.text around self.now.scope all.now)) }
        ensures noted { OnOk result (least.new ≡ noted least.old (faults (naming.clauses_within self.now.text around self.now.scope all.now))) }
    {
        let mut done = Answer::Good(Items::new(self.alloc));
        for c in all {
            let one = self.clause(least, around, c)?;
            done = put(done, one)?;
        }
        Ok(done)
    }

    /// An accept up to its block. Its names are declared, and its site is added where it is good.
    #[tactic(auto, using(crate::proofs::Naming::heads))]
    pub(crate) fn head(
        &mut self,
        least: &mut Least,
        around: Around,
        a: &AcceptHead,
        hidden: &mut Items<Hidden>,
    ) -> Result<Answer<()>, Memory>
        ensures value { IfOk result (λ r. r ≡ answer_map nothing (answer (judging.head_judged self.old.text around self.old.scope a.now))) }
        ensures noted { OnOk result (least.new ≡ noted least.old (faults (judging.head_judged self.old.text around self.old.scope a.now))) }
        ensures after { OnOk result (self.new.scope ≡ judging.within_block self.old.text around self.old.scope a.now) }
        ensures names { OnOk result (undone hidden.new self.new.scope.names ≡ undone hidden.old self.old.scope.names) }
        ensures text { self.new.text ≡ self.old.text }
    {
        let first = self.next_variable()?;
        let accepted = self.accepted(least, around, a, hidden)?;
        let within = in_clause(around)?;
        let clauses = self.clauses(least, within, a.clauses.as_slice())?;
        Ok(self.add_site(around.role, first, pair(accepted, clauses))?)
    }

    /// Where an accept's block stands.
    #[tactic(auto, using(crate::proofs::Naming::blocks))]
    pub(crate) fn round_block(&self, around: Around, a: &AcceptHead) -> Result<Around, Memory>
        ensures round { IfOk result (λ w. w ≡ judging.round_block self.now.text around a.now) }
    {
        let found = transaction_in_body(self.text(), around.role, a.name);
        let reply = reply_of(around.role, a.place, a.name, found);
        Ok(in_accept(Reply::With(reply), around)?)
    }
}
