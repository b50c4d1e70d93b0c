//! What is found of statements, and what is visible after them.

ghost use Rattle.std.specs.Prelude.{◌≡◌, IfOk, OnOk};
ghost use Rattle.cc_declared.specs.Undone.{undone};
ghost use Rattle.cc_faults.specs.Faults.{noted};
ghost use Rattle.cc_faults.specs.Judged.{answer, both, faults};
ghost use Rattle.cc_faults.specs.Scopes.{left};
ghost use Rattle.cc_faults.specs.Statements as statement;
ghost use Rattle.cc_types.specs.Judging as judging;

use crate::checker::Checker;
use cc_base::Memory;
use cc_declared::Hidden;
use cc_faults::{AcceptPart, Alternative, Answer, Around, Choice, Least, Statement, pair};
use cc_rows::accepts::part_made;
use cc_rows::around::{deeper, inside_loop};
use cc_rows::made::put;
use cc_rows::places::{in_body, leaving};
use cc_rows::statements::{
    accepting, alternative_made, blocked, branched, branched_both, broken, choice_accepting,
    choice_delaying, continued, delayed, evaluated, looped, looped_after, looped_for, selected,
};
use cc_typed as typed;
use sqlite_items::Items;

/// The guard of an alternative, if it has one, and what it offers.
type Offered = (Option<typed::Expression>, typed::Choice);

impl Checker<'_> {
    /// What is found of a statement. Where it declares a variable, what the name meant before is added to `hidden`.
    #[cycle(statements)]
    #[tactic(auto, using(crate::proofs::Judging::statements))]
    pub fn statement(
        &mut self,
        least: &mut Least,
        around: Around,
        s: &Statement,
        hidden: &mut Items<Hidden>,
    ) -> Result<Answer<typed::Statement>, Memory>
        ensures value { IfOk result (λ r. r ≡ answer (statement.judged self.old.text around self.old.scope s.now)) }
        ensures noted { OnOk result (least.new ≡ noted least.old (faults (statement.judged self.old.text around self.old.scope s.now))) }
        ensures after { OnOk result (self.new.scope ≡ statement.after self.old.text around self.old.scope s.now) }
        ensures names { OnOk result (undone hidden.new self.new.scope.names ≡ undone hidden.old self.old.scope.names) }
        ensures text { self.new.text ≡ self.old.text }
    {
        match s {
            Statement::Empty => Ok(Answer::Good(typed::Statement::Empty)),
            Statement::Declare(local) => self.local(least, around, local, hidden),
            Statement::Block(entries) => {
                let inner = deeper(around)?;
                Ok(blocked(self.block(least, inner, entries.as_slice())?))
            }
            Statement::Evaluate(e) => Ok(evaluated(self.value(least, around, e)?)),
            Statement::If { condition, body } => {
                let condition = self.condition(least, around, condition)?;
                let body = self.statement(least, around, body.get(), hidden)?;
                Ok(branched(self.alloc(), condition, body)?)
            }
            Statement::IfElse { condition, yes, no } => {
                let condition = self.condition(least, around, condition)?;
                let yes = self.statement(least, around, yes.get(), hidden)?;
                let no = self.statement(least, around, no.get(), hidden)?;
                Ok(branched_both(self.alloc(), condition, yes, no)?)
            }
            Statement::While { condition, body } => {
                let condition = self.condition(least, around, condition)?;
                let body = self.statement(least, inside_loop(around), body.get(), hidden)?;
                Ok(looped(self.alloc(), condition, body)?)
            }
            Statement::DoWhile { body, condition } => {
                let body = self.statement(least, inside_loop(around), body.get(), hidden)?;
                let condition = self.condition(least, around, condition)?;
                Ok(looped_after(self.alloc(), body, condition)?)
            }
            Statement::For {
                first,
                condition,
                next,
                body,
            } => {
                let head = self.for_head(least, around, first, condition, next)?;
                let body = self.statement(least, inside_loop(around), body.get(), hidden)?;
                Ok(looped_for(self.alloc(), head, body)?)
            }
            Statement::Break(place) => Ok(broken(leaving(least, around.breaks, *place))),
            Statement::Continue(place) => Ok(continued(leaving(least, around.continues, *place))),
            Statement::Return(place, value) => self.returning(least, around, *place, value),
            Statement::TransactionReturn(place, value) => {
                self.replying(least, around, *place, value)
            }
            Statement::Delay(wait) => Ok(delayed(self.condition(least, around, wait)?)),
            Statement::Accept { part } => Ok(accepting(self.accept(least, around, part)?)),
            Statement::Select(place, all) => {
                let kind = in_body(least, around.role, *place);
                let all = self.alternatives(least, around, all.as_slice())?;
                Ok(selected(kind, all))
            }
        }
    }

    /// What is found of statements one after the other.
    #[cycle(statements)]
    #[tactic(auto, using(crate::proofs::Judging::statements))]
    fn entries(
        &mut self,
        least: &mut Least,
        around: Around,
        all: &[Statement],
        hidden: &mut Items<Hidden>,
    ) -> Result<Answer<Items<typed::Statement>>, Memory>
        ensures value { IfOk result (λ r. r ≡ answer (judging.entries_judged self.old.text around self.old.scope all.now)) }
        ensures noted { OnOk result (least.new ≡ noted least.old (faults (judging.entries_judged self.old.text around self.old.scope all.now))) }
        ensures after { OnOk result (self.new.scope ≡ judging.after_entries self.old.text around self.old.scope all.now) }
        ensures names { OnOk result (undone hidden.new self.new.scope.names ≡ undone hidden.old self.old.scope.names) }
        ensures text { self.new.text ≡ self.old.text }
    {
        let mut done = Answer::Good(Items::new(self.alloc()));
        for s in all {
            let one = self.statement(least, around, s, hidden)?;
            done = put(done, one)?;
        }
        Ok(done)
    }

    /// What is found of statements that are a scope. Behind it each name means again what it did.
    #[cycle(statements)]
    #[tactic(auto, using(crate::proofs::Judging::statements))]
    pub fn block(
        &mut self,
        least: &mut Least,
        around: Around,
        all: &[Statement],
    ) -> Result<Answer<Items<typed::Statement>>, Memory>
        ensures value { IfOk result (λ r. r ≡ answer (judging.entries_judged self.old.text around self.old.scope all.now)) }
        ensures noted { OnOk result (least.new ≡ noted least.old (faults (judging.entries_judged self.old.text around self.old.scope all.now))) }
        ensures after { OnOk result (self.new.scope ≡ left self.old.scope (judging.after_entries self.old.text around self.old.scope all.now)) }
        ensures names { OnOk result (self.new.scope.names ≡ self.old.scope.names) }
        ensures text { self.new.text ≡ self.old.text }
    {
        let mut hidden = Items::new(self.alloc());
        let done = self.entries(least, around, all, &mut hidden)?;
        self.restore(hidden);
        Ok(done)
    }

    /// What is found of an accept. Behind it each name means again what it did.
    #[cycle(statements)]
    #[tactic(auto, using(crate::proofs::Judging::statements))]
    fn accept(
        &mut self,
        least: &mut Least,
        around: Around,
        part: &AcceptPart,
    ) -> Result<Answer<typed::AcceptPart>, Memory>
        ensures value { IfOk result (λ r. r ≡ answer (judging.accept_judged self.old.text around self.old.scope part.now)) }
        ensures noted { OnOk result (least.new ≡ noted least.old (faults (judging.accept_judged self.old.text around self.old.scope part.now))) }
        ensures after { OnOk result (self.new.scope ≡ judging.after_accept self.old.text around self.old.scope part.now) }
        ensures names { OnOk result (self.new.scope.names ≡ self.old.scope.names) }
        ensures text { self.new.text ≡ self.old.text }
    {
        let site = self.next_site()?;
        let mut hidden = Items::new(self.alloc());
        let head = self.head(least, around, &part.head, &mut hidden)?;
        let inner = self.round_block(around, &part.head)?;
        let block = self.block(least, inner, part.block.as_slice())?;
        self.restore(hidden);
        Ok(part_made(site, head, block))
    }

    /// What is found of what an alternative offers.
    #[cycle(statements)]
    #[tactic(auto, using(crate::proofs::Judging::statements))]
    fn choice(
        &mut self,
        least: &mut Least,
        around: Around,
        choice: &Choice,
    ) -> Result<Answer<typed::Choice>, Memory>
        ensures value { IfOk result (λ r. r ≡ answer (statement.choice_judged self.old.text around self.old.scope choice.now)) }
        ensures noted { OnOk result (least.new ≡ noted least.old (faults (statement.choice_judged self.old.text around self.old.scope choice.now))) }
        ensures after { OnOk result (self.new.scope ≡ statement.after_choice self.old.text around self.old.scope choice.now) }
        ensures names { OnOk result (self.new.scope.names ≡ self.old.scope.names) }
        ensures text { self.new.text ≡ self.old.text }
    {
        match choice {
            Choice::Accept { part } => Ok(choice_accepting(self.accept(least, around, part)?)),
            Choice::Delay(wait) => Ok(choice_delaying(self.condition(least, around, wait)?)),
            Choice::Immediate => Ok(Answer::Good(typed::Choice::Immediate)),
            Choice::Terminate => Ok(Answer::Good(typed::Choice::Terminate)),
        }
    }

    /// What is found of the guard of an alternative and of what it offers.
    #[cycle(statements)]
    #[tactic(auto, using(crate::proofs::Judging::statements))]
    fn offered(
        &mut self,
        least: &mut Least,
        around: Around,
        a: &Alternative,
    ) -> Result<Answer<Offered>, Memory>
        ensures value { IfOk result (λ r. r ≡ answer (both (judging.condition_or_none self.old.text around self.old.scope a.now.guard) (statement.choice_judged self.old.text around self.old.scope a.now.choice))) }
        ensures noted { OnOk result (least.new ≡ noted least.old (faults (both (judging.condition_or_none self.old.text around self.old.scope a.now.guard) (statement.choice_judged self.old.text around self.old.scope a.now.choice)))) }
        ensures after { OnOk result (self.new.scope ≡ statement.after_choice self.old.text around self.old.scope a.now.choice) }
        ensures names { OnOk result (self.new.scope.names ≡ self.old.scope.names) }
        ensures text { self.new.text ≡ self.old.text }
    {
        let guard = self.condition_or_none(least, around, &a.guard)?;
        let choice = self.choice(least, around, &a.choice)?;
        Ok(pair(guard, choice))
    }

    /// What is found of an alternative, whose entries are a scope.
    #[cycle(statements)]
    #[tactic(auto, using(crate::proofs::Judging::statements))]
    fn alternative(
        &mut self,
        least: &mut Least,
        around: Around,
        a: &Alternative,
    ) -> Result<Answer<typed::Alternative>, Memory>
        ensures value { IfOk result (λ r. r ≡ answer (judging.alternative_judged self.old.text around self.old.scope a.now)) }
        ensures noted { OnOk result (least.new ≡ noted least.old (faults (judging.alternative_judged self.old.text around self.old.scope a.now))) }
        ensures after { OnOk result (self.new.scope ≡ judging.after_alternative self.old.text around self.old.scope a.now) }
        ensures names { OnOk result (self.new.scope.names ≡ self.old.scope.names) }
        ensures text { self.new.text ≡ self.old.text }
    {
        let inner = deeper(around)?;
        let offered = self.offered(least, around, a)?;
        let entries = self.block(least, inner, a.entries.as_slice())?;
        Ok(alternative_made(offered, entries))
    }

    /// What is found of alternatives one after the other.
    #[cycle(statements)]
    #[tactic(auto, using(crate::proofs::Judging::statements))]
    fn alternatives(
        &mut self,
        least: &mut Least,
        around: Around,
        all: &[Alternative],
    ) -> Result<Answer<Items<typed::Alternative>>, Memory>
        ensures value { IfOk result (λ r. r ≡ answer (judging.alternatives_judged_in self.old.text around self.old.scope all.now)) }
        ensures noted { OnOk result (least.new ≡ noted least.old (faults (judging.alternatives_judged_in self.old.text around self.old.scope all.now))) }
        ensures after { OnOk result (self.new.scope ≡ judging.after_alternatives_in self.old.text around self.old.scope all.now) }
        ensures names { OnOk result (self.new.scope.names ≡ self.old.scope.names) }
        ensures text { self.new.text ≡ self.old.text }
    {
        let mut done = Answer::Good(Items::new(self.alloc()));
        for a in all {
            let one = self.alternative(least, around, a)?;
            done = put(done, one)?;
        }
        Ok(done)
    }
}
