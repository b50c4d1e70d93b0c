//! What is found of the parts of statements that hold no statement.

ghost use Rattle.std.specs.Prelude.{◌≡◌, IfOk, OnOk};
ghost use Rattle.cc_declared.specs.Undone.{undone};
ghost use Rattle.cc_faults.specs.Expressions as phrase;
ghost use Rattle.cc_faults.specs.Faults.{noted};
ghost use Rattle.cc_faults.specs.Judged.{answer, both, faults, map, outcome, second};
ghost use Rattle.cc_faults.specs.Rows as row;
ghost use Rattle.cc_faults.specs.Scopes.{declared};
ghost use Rattle.cc_faults.specs.Statements as statement;
ghost use Rattle.cc_types.specs.Judging as judging;

use crate::checker::{Checker, short};
use cc_base::{Memory, Place};
use cc_declared::Hidden;
use cc_faults::{Answer, Around, Found, Least, Local, LocalForm, Phrase, fresh, good, pair, some};
use cc_rows::given::{has_value, type_of_role, without_value};
use cc_rows::made::kept;
use cc_rows::phrases::place_of;
use cc_rows::places::{outside_accept, replying};
use cc_rows::rows::assigned;
use cc_rows::statements::{ForHead, replied, returned, variable_made};
use cc_rows::values::any_value;
use cc_typed::{DataType, Expression, Statement};
use sqlite_items::Items;

/// What is given back: its type, and the value, if there is one.
pub(crate) type Back = (DataType, Option<Expression>);

impl Checker<'_> {
    /// What is found of an expression.
    pub(crate) fn found(
        &self,
        least: &mut Least,
        around: Around,
        e: &Phrase,
    ) -> Result<Answer<Found>, Memory>
        ensures value { IfOk result (λ r. r ≡ answer (phrase.expression self.now.text self.now.scope around e.now)) }
        ensures noted { OnOk result (least.new ≡ noted least.old (faults (phrase.expression self.now.text self.now.scope around e.now))) }
    {
        let scene = self.scene(around);
        scene.expression(least, e)
    }

    /// A condition, a guard or a duration.
    pub(crate) fn condition(
        &self,
        least: &mut Least,
        around: Around,
        e: &Phrase,
    ) -> Result<Answer<Expression>, Memory>
        ensures value { IfOk result (λ r. r ≡ answer (statement.condition self.now.text around self.now.scope e.now)) }
        ensures noted { OnOk result (least.new ≡ noted least.old (faults (statement.condition self.now.text around self.now.scope e.now))) }
    {
        let scene = self.scene(around);
        scene.operand(least, e)
    }

    /// A condition or a guard, where there is one.
    #[tactic(auto, using(crate::proofs::Parting::parts))]
    pub(crate) fn condition_or_none(
        &self,
        least: &mut Least,
        around: Around,
        e: &Option<Phrase>,
    ) -> Result<Answer<Option<Expression>>, Memory>
        ensures value { IfOk result (λ r. r ≡ answer (judging.condition_or_none self.now.text around self.now.scope e.now)) }
        ensures noted { OnOk result (least.new ≡ noted least.old (faults (judging.condition_or_none self.now.text around self.now.scope e.now))) }
    {
        match e {
            None => Ok(Answer::Good(None)),
            Some(e) => Ok(some(self.condition(least, around, e)?)),
        }
    }

    /// An expression of any type.
    #[tactic(auto, using(crate::proofs::Parting::parts))]
    pub(crate) fn value(
        &self,
        least: &mut Least,
        around: Around,
        e: &Phrase,
    ) -> Result<Answer<Expression>, Memory>
        ensures value { IfOk result (λ r. r ≡ answer (statement.any_value self.now.text around self.now.scope e.now)) }
        ensures noted { OnOk result (least.new ≡ noted least.old (faults (statement.any_value self.now.text around self.now.scope e.now))) }
    {
        let found = self.found(least, around, e)?;
        Ok(any_value(self.alloc, found)?)
    }

    /// An expression of any type, where there is one.
    #[tactic(auto, using(crate::proofs::Parting::parts))]
    fn value_or_none(
        &self,
        least: &mut Least,
        around: Around,
        e: &Option<Phrase>,
    ) -> Result<Answer<Option<Expression>>, Memory>
        ensures value { IfOk result (λ r. r ≡ answer (judging.value_or_none self.now.text around self.now.scope e.now)) }
        ensures noted { OnOk result (least.new ≡ noted least.old (faults (judging.value_or_none self.now.text around self.now.scope e.now))) }
    {
        match e {
            None => Ok(Answer::Good(None)),
            Some(e) => Ok(some(self.value(least, around, e)?)),
        }
    }

    /// A value for a type, where that is known.
    #[tactic(auto, using(crate::proofs::Parting::parts))]
    fn given(
        &self,
        least: &mut Least,
        around: Around,
        t: Option<DataType>,
        e: &Phrase,
    ) -> Result<Answer<Expression>, Memory>
        ensures value { IfOk result (λ r. r ≡ answer (judging.given_for self.now.text around self.now.scope t e.now)) }
        ensures noted { OnOk result (least.new ≡ noted least.old (faults (judging.given_for self.now.text around self.now.scope t e.now))) }
    {
        let found = self.found(least, around, e)?;
        Ok(assigned(self.alloc, least, place_of(e), t, found)?)
    }

    /// The initial value of a local variable, if it has one.
    #[tactic(auto, using(crate::proofs::Parting::parts))]
    fn initial(
        &self,
        least: &mut Least,
        around: Around,
        t: Option<DataType>,
        form: &LocalForm,
    ) -> Result<Answer<Option<Expression>>, Memory>
        ensures value { IfOk result (λ r. r ≡ answer (judging.initial_for self.now.text around self.now.scope t form.now)) }
        ensures noted { OnOk result (least.new ≡ noted least.old (faults (judging.initial_for self.now.text around self.now.scope t form.now))) }
    {
        match form {
            LocalForm::Plain => Ok(Answer::Good(None)),
            LocalForm::Array(_) => Ok(Answer::Good(None)),
            LocalForm::Value(e) => Ok(some(self.given(least, around, t, e)?)),
        }
    }

    /// What is found of a local variable. It is not declared yet.
    #[tactic(auto, using(crate::proofs::Parting::parts))]
    fn local_found(
        &self,
        least: &mut Least,
        around: Around,
        local: &Local,
    ) -> Result<Answer<Statement>, Memory>
        ensures value { IfOk result (λ r. r ≡ answer (judging.local_judged self.now.text around self.now.scope local.now)) }
        ensures noted { OnOk result (least.new ≡ noted least.old (faults (judging.local_judged self.now.text around self.now.scope local.now))) }
    {
        let number = short(self.visible.variables().len())?;
        let is_taken = self.visible.is_taken(around.scope, local.name);
        let name = fresh(least, is_taken, local.name);
        let t = self.visible.local_type(least, local);
        let initial = self.initial(least, around, good(&t), &local.form)?;
        Ok(variable_made(number, pair(name, t), initial))
    }

    /// A local variable: its initial value is judged before it is declared.
    pub(crate) fn local(
        &mut self,
        least: &mut Least,
        around: Around,
        local: &Local,
        hidden: &mut Items<Hidden>,
    ) -> Result<Answer<Statement>, Memory>
        ensures value { IfOk result (λ r. r ≡ answer (judging.local_judged self.old.text around self.old.scope local.now)) }
        ensures noted { OnOk result (least.new ≡ noted least.old (faults (judging.local_judged self.old.text around self.old.scope local.now))) }
        ensures after { OnOk result (self.new.scope ≡ declared around.scope self.old.scope local.now.name (outcome (statement.local_type self.old.scope local.now))) }
        ensures names { OnOk result (undone hidden.new self.new.scope.names ≡ undone hidden.old self.old.scope.names) }
        ensures text { self.new.text ≡ self.old.text }
    {
        let found = self.local_found(least, around, local)?;
        let outcome = self.visible.outcome_of_local_type(local);
        self.visible
            .declare(around.scope, local.name, outcome, hidden)?;
        Ok(found)
    }

    /// ValueHere and Mismatch: what is given back for this type.
    #[tactic(auto, using(crate::proofs::Parting::parts))]
    fn value_back(
        &self,
        least: &mut Least,
        around: Around,
        place: Place,
        t: Answer<DataType>,
        value: &Option<Phrase>,
    ) -> Result<Answer<Back>, Memory>
        ensures value { IfOk result (λ r. r ≡ judging.back_answered self.now.text around self.now.scope place t value.now) }
        ensures noted { OnOk result (least.new ≡ judging.back_noted self.now.text around self.now.scope place least.old t value.now) }
    {
        match value {
            None => Ok(without_value(t)),
            Some(e) => {
                let t = has_value(least, place, t);
                let value = self.given(least, around, good(&t), e)?;
                Ok(pair(t, some(value)))
            }
        }
    }

    /// `return;` and `return e;`
    #[tactic(auto, using(crate::proofs::Parting::parts))]
    pub(crate) fn returning(
        &self,
        least: &mut Least,
        around: Around,
        place: Place,
        value: &Option<Phrase>,
    ) -> Result<Answer<Statement>, Memory>
        ensures value { IfOk result (λ r. r ≡ answer (map (statement.return_in around.role) (map second (both (row.outside_accept around.reply place) (judging.gives_back self.now.text around self.now.scope place (statement.type_of_role around.role) value.now))))) }
        ensures noted { OnOk result (least.new ≡ noted least.old (faults (map (statement.return_in around.role) (map second (both (row.outside_accept around.reply place) (judging.gives_back self.now.text around self.now.scope place (statement.type_of_role around.role) value.now)))))) }
    {
        let outside = outside_accept(least, around.reply, place);
        let t = type_of_role(least, around.role);
        let back = self.value_back(least, around, place, t, value)?;
        Ok(returned(around.role, kept(outside, back)))
    }

    /// `treturn;` and `treturn e;`
    #[tactic(auto, using(crate::proofs::Parting::parts))]
    pub(crate) fn replying(
        &self,
        least: &mut Least,
        around: Around,
        place: Place,
        value: &Option<Phrase>,
    ) -> Result<Answer<Statement>, Memory>
        ensures value { IfOk result (λ r. r ≡ answer (map statement.replied (judging.gives_back self.now.text around self.now.scope place (row.replying around.reply place) value.now))) }
        ensures noted { OnOk result (least.new ≡ noted least.old (faults (map statement.replied (judging.gives_back self.now.text around self.now.scope place (row.replying around.reply place) value.now)))) }
    {
        let t = replying(least, around.reply, place);
        Ok(replied(self.value_back(least, around, place, t, value)?))
    }

    /// What stands in the head of a `for`.
    #[tactic(auto, using(crate::proofs::Parting::parts))]
    pub(crate) fn for_head(
        &self,
        least: &mut Least,
        around: Around,
        first: &Option<Phrase>,
        condition: &Option<Phrase>,
        next: &Option<Phrase>,
    ) -> Result<Answer<ForHead>, Memory>
        ensures value { IfOk result (λ r. r ≡ answer (judging.for_head_judged self.now.text around self.now.scope first.now condition.now next.now)) }
        ensures noted { OnOk result (least.new ≡ noted least.old (faults (judging.for_head_judged self.now.text around self.now.scope first.now condition.now next.now))) }
    {
        let first = self.value_or_none(least, around, first)?;
        let condition = self.condition_or_none(least, around, condition)?;
        let next = self.value_or_none(least, around, next)?;
        Ok(pair(first, pair(condition, next)))
    }
}
