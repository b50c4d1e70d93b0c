ghost use Rattle.std.specs.List.{list_all};
ghost use Rattle.std.specs.Prelude.{◌≡◌, ◌&&◌, slice_get, is_some, IfSome};
ghost use Rattle.cc_typed.specs.Checked.{around, parts_of};
ghost use Rattle.cc_typed.specs.Parting.{is_of_type};
ghost use Rattle.cc_typed.specs.Typed.{in_accept, inside_loop, is_accepted, is_body, is_finish, is_for, is_given, is_number, is_number_option, is_outside, is_process_body, is_terminate, is_typed_choice, is_typed_option, is_typed_statement};
ghost use Rattle.cc_typed.specs.TypedLists.{is_typed_alternative};

use crate::known::few;
use crate::tree::{AcceptPart, Alternative, Choice, Expression, Statement};
use crate::typed::Context;
use crate::types::{DataType, arithmetic_type, assignable, same_type};

/// Whether there is a type and it is the same as another.
fn same_as_option(found: Option<DataType>, t: DataType) -> bool
    ensures { result ≡ is_of_type found t }
{
    match found {
        Some(u) => same_type(u, t),
        None => false,
    }
}

#[tactic(auto, using(crate::proofs::TypedStatements::typed_statements))]
fn terminates(choice: &Choice) -> bool
    ensures { result ≡ is_terminate choice.now }
{
    match choice {
        Choice::Accept { .. } => false,
        Choice::Delay { .. } => false,
        Choice::Immediate => false,
        Choice::Terminate => true,
    }
}

impl<'p> Context<'p> {
    /// Whether an expression is typed and of an arithmetic type.
    pub(crate) fn number(&self, e: &Expression) -> bool
        ensures { result ≡ is_number (around self.now) e.now }
    {
        self.typed_expression(e) && arithmetic_type(e.data_type())
    }

    fn typed_option(&self, value: &Option<Expression>) -> bool
        ensures { result ≡ is_typed_option (around self.now) value.now }
    {
        match value {
            None => true,
            Some(e) => self.typed_expression(e),
        }
    }

    fn number_option(&self, value: &Option<Expression>) -> bool
        ensures { result ≡ is_number_option (around self.now) value.now }
    {
        match value {
            None => true,
            Some(e) => self.number(e),
        }
    }

    /// Whether a value may be given for this type, where there is one.
    fn given_type(&self, value: &Option<Expression>, t: DataType) -> bool
        ensures { result ≡ is_given (around self.now) value.now t }
    {
        match value {
            None => true,
            Some(e) => self.typed_expression(e) && assignable(e.data_type(), t),
        }
    }

    /// Whether this may be returned as a value of the type of the function or of `main`.
    fn result_type(&self, e: &Expression) -> bool
        ensures { result ≡ is_for (around self.now) self.now.result e.now }
    {
        match self.result {
            None => false,
            Some(t) => self.typed_expression(e) && assignable(e.data_type(), t),
        }
    }

    fn in_process_body(&self) -> bool
        ensures { result ≡ is_process_body self.now.kind }
    {
        match self.kind {
            None => false,
            Some(kind) => kind > 0,
        }
    }

    /// Whether `return` may stand here with this value, or none.
    fn finish_type(&self, value: &Option<Expression>) -> bool
        ensures { result ≡ (is_body self.now.kind && is_outside self.now.replies && is_finish (around self.now) value.now) }
    {
        if self.kind.is_none() || self.replies.is_some() {
            return false;
        }
        match value {
            None => true,
            Some(e) => self.result_type(e),
        }
    }

    /// Where the body of a loop stands that stands here.
    fn inside_loop(&self) -> Context<'p>
        ensures { around result ≡ inside_loop (around self.now) }
    {
        Context {
            parts: self.parts,
            variables: self.variables,
            kind: self.kind,
            result: self.result,
            replies: self.replies,
            may_break: true,
            may_continue: true,
        }
    }

    /// Where the block of an accept stands that stands here, where the accept is one of this body.
    fn in_accept(&self, site: u32) -> Option<Context<'p>>
        ensures some { is_some result ≡ is_accepted (around self.now) (slice_get (parts_of self.now.parts.now).sites site) }
        ensures standing { IfSome result (λ s. around s ≡ in_accept (around self.now) site) }
    {
        let parts = self.parts;
        let found = parts.sites.get(site as usize)?;
        let kind = self.kind?;
        let transaction = parts.transactions.get(found.transaction as usize)?;
        if kind != found.kind as usize || transaction.kind != found.kind {
            return None;
        }
        Some(Context {
            parts,
            variables: self.variables,
            kind: self.kind,
            result: self.result,
            replies: Some(transaction.value),
            may_break: false,
            may_continue: false,
        })
    }

    /// Whether a statement is typed.
    #[cycle(typed_statements)]
    #[tactic(auto, using(crate::proofs::TypedStatements::typed_statements))]
    fn typed_statement(&self, s: &Statement) -> bool
        ensures { result ≡ is_typed_statement (around self.now) s.now }
    {
        match s {
            Statement::Empty => true,
            Statement::Evaluate { expression } => self.typed_expression(expression),
            Statement::Declare {
                variable,
                data_type,
            } => self.variable_type(*variable, *data_type),
            Statement::Initialize {
                variable,
                data_type,
                value,
            } => self.variable_type(*variable, *data_type)
                && self.typed_expression(value)
                && assignable(value.data_type(), *data_type),
            Statement::Block { entries } => self.typed_statements(entries.as_slice()),
            Statement::If { condition, body } => self.number(condition)
                && self.typed_statement(body.get()),
            Statement::IfElse { condition, yes, no } => self.number(condition)
                && self.typed_statement(yes.get())
                && self.typed_statement(no.get()),
            Statement::While { condition, body } => self.number(condition)
                && self.inside_loop().typed_statement(body.get()),
            Statement::DoWhile { body, condition } => self.inside_loop().typed_statement(body.get())
                && self.number(condition),
            Statement::For {
                first,
                condition,
                next,
                body,
            } => self.typed_option(first)
                && self.number_option(condition)
                && self.typed_option(next)
                && self.inside_loop().typed_statement(body.get()),
            Statement::Break => self.may_break,
            Statement::Continue => self.may_continue,
            Statement::Return { value, data_type } => self.kind.is_none()
                && same_as_option(self.result, *data_type)
                && self.given_type(value, *data_type),
            Statement::Finish { value } => self.finish_type(value),
            Statement::TransactionReturn { value, data_type } => same_as_option(
                self.replies,
                *data_type,
            ) && self.given_type(value, *data_type),
            Statement::Delay { wait } => self.number(wait),
            Statement::Accept { part } => self.typed_accept(part),
            Statement::Select { alternatives } => self.in_process_body()
                && few(alternatives.len())
                && self.typed_alternatives(alternatives.as_slice()),
        }
    }

    /// Whether each statement is typed.
    #[cycle(typed_statements)]
    #[tactic(auto, using(crate::proofs::TypedStatements::typed_statements))]
    pub(crate) fn typed_statements(&self, all: &[Statement]) -> bool
        ensures { result ≡ list_all (is_typed_statement (around self.now)) all.now }
    {
        for s in all {
            if !self.typed_statement(s) {
                return false;
            }
        }
        true
    }

    /// Whether an accept is typed.
    #[cycle(typed_statements)]
    #[tactic(auto, using(crate::proofs::TypedStatements::typed_statements))]
    fn typed_accept(&self, part: &AcceptPart) -> bool
        ensures { result ≡ (is_accepted (around self.now) (slice_get (parts_of self.now.parts.now).sites part.now.site) && list_all (is_typed_statement (in_accept (around self.now) part.now.site)) part.now.block) }
    {
        match self.in_accept(part.site) {
            Some(inner) => inner.typed_statements(part.block.as_slice()),
            None => false,
        }
    }

    #[cycle(typed_statements)]
    #[tactic(auto, using(crate::proofs::TypedStatements::typed_statements))]
    fn typed_choice(&self, choice: &Choice) -> bool
        ensures { result ≡ is_typed_choice (around self.now) choice.now }
    {
        match choice {
            Choice::Accept { part } => self.typed_accept(part),
            Choice::Delay { wait } => self.number(wait),
            Choice::Immediate => true,
            Choice::Terminate => true,
        }
    }

    /// Whether each alternative is typed.
    #[cycle(typed_statements)]
    #[tactic(auto, using(crate::proofs::TypedStatements::typed_statements))]
    fn typed_alternatives(&self, all: &[Alternative]) -> bool
        ensures { result ≡ list_all (is_typed_alternative (around self.now)) all.now }
    {
        for a in all {
            let fits = self.number_option(&a.guard)
                && self.typed_choice(&a.choice)
                && (!terminates(&a.choice) || a.entries.is_empty())
                && self.typed_statements(a.entries.as_slice());
            if !fits {
                return false;
            }
        }
        true
    }
}
