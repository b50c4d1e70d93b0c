//! The names and the formats that statements mention.

ghost use Rattle.std.specs.Prelude.{◌≡◌, OnOk};
ghost use Rattle.cc_names.specs.Mentions.{in_choice, in_clauses, in_declarators, in_entry, in_list, in_optional_expression, in_statement};
ghost use Rattle.cc_names.specs.Seen.{after, in_accept, in_all_alternatives, in_alternative, in_declarator, in_header};

use crate::mentions::{Numbers, see_expression, see_length, see_name, see_names, see_type};
use cc_base::Memory;
use cc_grammar::{
    Accept, Alternative, Choice, Clauses, Entry, Expression, ForHeader, LocalDeclarator, Statement,
};

#[tactic(auto, using(crate::proofs::Walks::seen))]
fn see_optional_expression<'t>(
    numbers: &mut Numbers<'t>,
    e: &'t Option<Expression>,
) -> Result<(), Memory>
    ensures { OnOk result (numbers.new ≡ after numbers.old (in_optional_expression e.now)) }
{
    match e {
        None => Ok(()),
        Some(e) => see_expression(numbers, e),
    }
}

#[tactic(auto, using(crate::proofs::Walks::seen))]
fn see_header<'t>(numbers: &mut Numbers<'t>, header: &'t ForHeader) -> Result<(), Memory>
    ensures { OnOk result (numbers.new ≡ after numbers.old (in_header header.now)) }
{
    see_optional_expression(numbers, &header.first)?;
    see_optional_expression(numbers, &header.condition)?;
    see_optional_expression(numbers, &header.step)
}

#[tactic(auto, using(crate::proofs::Walks::seen))]
fn see_declarator<'t>(numbers: &mut Numbers<'t>, d: &'t LocalDeclarator) -> Result<(), Memory>
    ensures { OnOk result (numbers.new ≡ after numbers.old (in_declarator d.now)) }
{
    match d {
        LocalDeclarator::Plain(x) => see_name(numbers, x),
        LocalDeclarator::Array(x, n) => {
            see_name(numbers, x)?;
            see_length(numbers, n)
        }
        LocalDeclarator::Value(x, e) => {
            see_name(numbers, x)?;
            see_expression(numbers, e)
        }
    }
}

#[tactic(auto, using(crate::proofs::Walks::seen))]
fn see_declarators<'t>(numbers: &mut Numbers<'t>, all: &'t [LocalDeclarator]) -> Result<(), Memory>
    ensures { OnOk result (numbers.new ≡ after numbers.old (in_declarators all.now)) }
{
    for d in all {
        see_declarator(numbers, d)?;
    }
    Ok(())
}

#[tactic(auto, using(crate::proofs::Walks::seen))]
fn see_clauses<'t>(numbers: &mut Numbers<'t>, clauses: &'t Clauses) -> Result<(), Memory>
    ensures { OnOk result (numbers.new ≡ after numbers.old (in_clauses clauses.now)) }
{
    match clauses {
        Clauses::None => Ok(()),
        Clauses::Such(e) | Clauses::Least(e) => see_expression(numbers, e),
        Clauses::SuchLeast(e, k) | Clauses::LeastSuch(e, k) => {
            see_expression(numbers, e)?;
            see_expression(numbers, k)
        }
    }
}

#[cycle(statements)]
#[tactic(auto, using(crate::proofs::CodeWalks::seen_statements))]
fn see_entry<'t>(numbers: &mut Numbers<'t>, entry: &'t Entry) -> Result<(), Memory>
    ensures { OnOk result (numbers.new ≡ after numbers.old (in_entry entry.now)) }
{
    match entry {
        Entry::Local(local) => {
            see_type(numbers, &local.of)?;
            see_declarators(numbers, local.declarators.as_slice())
        }
        Entry::Statement(s) => see_statement(numbers, s),
    }
}

#[cycle(statements)]
#[tactic(auto, using(crate::proofs::CodeWalks::seen_statements))]
pub(crate) fn see_entries<'t>(numbers: &mut Numbers<'t>, all: &'t [Entry]) -> Result<(), Memory>
    ensures { OnOk result (numbers.new ≡ after numbers.old (in_list all.now)) }
{
    for entry in all {
        see_entry(numbers, entry)?;
    }
    Ok(())
}

#[cycle(statements)]
#[tactic(auto, using(crate::proofs::CodeWalks::seen_statements))]
fn see_statement<'t>(numbers: &mut Numbers<'t>, s: &'t Statement) -> Result<(), Memory>
    ensures { OnOk result (numbers.new ≡ after numbers.old (in_statement s.now)) }
{
    match s {
        Statement::Block(all) => see_entries(numbers, all.as_slice()),
        Statement::Expression(e) | Statement::Delay(_, e) => see_expression(numbers, e),
        Statement::If {
            condition,
            then,
            ..
        } => {
            see_expression(numbers, condition)?;
            see_statement(numbers, then.get())
        }
        Statement::IfElse {
            condition,
            then,
            otherwise,
            ..
        } => {
            see_expression(numbers, condition)?;
            see_statement(numbers, then.get())?;
            see_statement(numbers, otherwise.get())
        }
        Statement::While {
            condition,
            body,
            ..
        } => {
            see_expression(numbers, condition)?;
            see_statement(numbers, body.get())
        }
        Statement::Do {
            body,
            condition,
            ..
        } => {
            see_statement(numbers, body.get())?;
            see_expression(numbers, condition)
        }
        Statement::For { header, body, .. } => {
            see_header(numbers, header.get())?;
            see_statement(numbers, body.get())
        }
        Statement::Return(_, e) | Statement::Treturn(_, e) => see_optional_expression(numbers, e),
        Statement::Accept(accept) => see_accept(numbers, accept.get()),
        Statement::Select(_, all) => see_alternatives(numbers, all.as_slice()),
        Statement::Empty(_) | Statement::Break(_) | Statement::Continue(_) => Ok(()),
    }
}

#[cycle(statements)]
#[tactic(auto, using(crate::proofs::CodeWalks::seen_statements))]
fn see_accept<'t>(numbers: &mut Numbers<'t>, accept: &'t Accept) -> Result<(), Memory>
    ensures { OnOk result (numbers.new ≡ after numbers.old (in_accept accept.now)) }
{
    see_name(numbers, &accept.name)?;
    see_names(numbers, accept.names.as_slice())?;
    see_clauses(numbers, &accept.clauses)?;
    match &accept.block {
        None => Ok(()),
        Some(all) => see_entries(numbers, all.as_slice()),
    }
}

#[cycle(statements)]
#[tactic(auto, using(crate::proofs::CodeWalks::seen_statements))]
fn see_alternatives<'t>(numbers: &mut Numbers<'t>, all: &'t [Alternative]) -> Result<(), Memory>
    ensures { OnOk result (numbers.new ≡ after numbers.old (in_all_alternatives all.now)) }
{
    for a in all {
        see_alternative(numbers, a)?;
    }
    Ok(())
}

#[cycle(statements)]
#[tactic(auto, using(crate::proofs::CodeWalks::seen_statements))]
fn see_alternative<'t>(numbers: &mut Numbers<'t>, a: &'t Alternative) -> Result<(), Memory>
    ensures { OnOk result (numbers.new ≡ after numbers.old (in_alternative a.now)) }
{
    see_optional_expression(numbers, &a.guard)?;
    see_choice(numbers, &a.choice)
}

#[cycle(statements)]
#[tactic(auto, using(crate::proofs::CodeWalks::seen_statements))]
fn see_choice<'t>(numbers: &mut Numbers<'t>, choice: &'t Choice) -> Result<(), Memory>
    ensures { OnOk result (numbers.new ≡ after numbers.old (in_choice choice.now)) }
{
    match choice {
        Choice::Accept(accept, entries) => {
            see_accept(numbers, accept)?;
            see_entries(numbers, entries.as_slice())
        }
        Choice::Delay(_, e, entries) => {
            see_expression(numbers, e)?;
            see_entries(numbers, entries.as_slice())
        }
        Choice::Immediate(_, entries) => see_entries(numbers, entries.as_slice()),
        Choice::Terminate(_) => Ok(()),
    }
}
