//! The plain statements of a text.

ghost use Rattle.std.specs.Prelude.{◌≡◌, ◌++◌, ◌∷◌, [], IfOk, map};
ghost use Rattle.cc_faults.specs.declared.plain.Statement.TheVariants as plain;
ghost use Rattle.cc_names.specs.PlainLists.{accept_of, alternative, for_header};
ghost use Rattle.cc_names.specs.Plains as spec;

use crate::mentions::Numbers;
use crate::phrases::{identifier, phrase};
use crate::written::{identifiers, length_of, type_of};
use cc_base::Memory;
use cc_faults::{
    AcceptHead, AcceptPart, Alternative, Choice, Clause, ClauseWord, Local, LocalForm, Phrase,
    Statement,
};
use cc_grammar as tree;
use cc_grammar::{Clauses, Entry, Expression, ForHeader, LocalDeclarator, TypeName};
use sqlite_items::{Boxed, Items};
use std::alloc::Global;

fn optional_phrase(
    alloc: Global,
    numbers: &Numbers,
    e: &Option<Expression>,
) -> Result<Option<Phrase>, Memory>
    ensures { IfOk result (λ p. p ≡ spec.optional_expression numbers.now.names numbers.now.formats e.now) }
{
    match e {
        None => Ok(None),
        Some(e) => Ok(Some(phrase(alloc, numbers, e)?)),
    }
}

fn form_of(alloc: Global, numbers: &Numbers, d: &LocalDeclarator) -> Result<LocalForm, Memory>
    ensures { IfOk result (λ f. f ≡ spec.form_of numbers.now.names numbers.now.formats d.now) }
{
    match d {
        LocalDeclarator::Plain(_) => Ok(LocalForm::Plain),
        LocalDeclarator::Array(_, n) => Ok(LocalForm::Array(length_of(numbers, n)?)),
        LocalDeclarator::Value(_, e) => Ok(LocalForm::Value(phrase(alloc, numbers, e)?)),
    }
}

fn name_of<'d>(d: &'d LocalDeclarator) -> &'d tree::Identifier
    ensures { result.now ≡ spec.name_of [] [] d.now }
{
    match d {
        LocalDeclarator::Plain(x) | LocalDeclarator::Array(x, _) | LocalDeclarator::Value(x, _) =>
            x,
    }
}

fn local(
    alloc: Global,
    numbers: &Numbers,
    of: &TypeName,
    d: &LocalDeclarator,
) -> Result<Statement, Memory>
    ensures { IfOk result (λ s. s ≡ spec.local_of numbers.now.names numbers.now.formats of.now d.now) }
{
    let of = type_of(numbers, of)?;
    let name = identifier(numbers, name_of(d))?;
    let form = form_of(alloc, numbers, d)?;
    Ok(Statement::Declare(Local { of, name, form }))
}

fn locals(
    alloc: Global,
    numbers: &Numbers,
    of: &TypeName,
    all: &[LocalDeclarator],
) -> Result<Items<Statement>, Memory>
    ensures { IfOk result (λ b. b ≡ map (spec.local_of numbers.now.names numbers.now.formats of.now) all.now) }
{
    let mut found = Items::new(alloc);
    for d in all {
        let one = local(alloc, numbers, of, d)?;
        found.push(one)?;
    }
    Ok(found)
}

fn single(alloc: Global, s: Statement) -> Result<Items<Statement>, Memory>
    ensures { IfOk result (λ b. b ≡ s ∷ []) }
{
    let mut found = Items::new(alloc);
    found.push(s)?;
    Ok(found)
}

fn clause(
    alloc: Global,
    numbers: &Numbers,
    word: ClauseWord,
    e: &Expression,
) -> Result<Clause, Memory>
    ensures { IfOk result (λ c. c ≡ spec.clause numbers.now.names numbers.now.formats word e.now) }
{
    let expression = phrase(alloc, numbers, e)?;
    Ok(Clause { word, expression })
}

fn one_clause(
    alloc: Global,
    numbers: &Numbers,
    word: ClauseWord,
    e: &Expression,
) -> Result<Items<Clause>, Memory>
    ensures { IfOk result (λ c. c ≡ spec.clause numbers.now.names numbers.now.formats word e.now ∷ []) }
{
    let first = clause(alloc, numbers, word, e)?;
    let mut found = Items::new(alloc);
    found.push(first)?;
    Ok(found)
}

fn clauses_of(alloc: Global, numbers: &Numbers, clauses: &Clauses) -> Result<Items<Clause>, Memory>
    ensures { IfOk result (λ c. c ≡ spec.clauses_of numbers.now.names numbers.now.formats clauses.now) }
{
    match clauses {
        Clauses::None => Ok(Items::new(alloc)),
        Clauses::Such(e) => one_clause(alloc, numbers, ClauseWord::SuchThat, e),
        Clauses::Least(e) => one_clause(alloc, numbers, ClauseWord::By, e),
        Clauses::SuchLeast(e, k) => {
            let mut found = one_clause(alloc, numbers, ClauseWord::SuchThat, e)?;
            let second = clause(alloc, numbers, ClauseWord::By, k)?;
            found.push(second)?;
            Ok(found)
        }
        Clauses::LeastSuch(k, e) => {
            let mut found = one_clause(alloc, numbers, ClauseWord::By, k)?;
            let second = clause(alloc, numbers, ClauseWord::SuchThat, e)?;
            found.push(second)?;
            Ok(found)
        }
    }
}

fn head(alloc: Global, numbers: &Numbers, accept: &tree::Accept) -> Result<AcceptHead, Memory>
    ensures { IfOk result (λ h. h ≡ spec.accept_head numbers.now.names numbers.now.formats accept.now.place accept.now.name accept.now.names accept.now.clauses) }
{
    let name = identifier(numbers, &accept.name)?;
    let names = identifiers(alloc, numbers, accept.names.as_slice())?;
    let clauses = clauses_of(alloc, numbers, &accept.clauses)?;
    Ok(AcceptHead {
        place: accept.place,
        name,
        names,
        clauses,
    })
}

fn boxed_head(
    alloc: Global,
    numbers: &Numbers,
    accept: &tree::Accept,
) -> Result<Boxed<AcceptHead>, Memory>
    ensures { IfOk result (λ h. h ≡ spec.accept_head numbers.now.names numbers.now.formats accept.now.place accept.now.name accept.now.names accept.now.clauses) }
{
    let head = head(alloc, numbers, accept)?;
    Ok(Boxed::new(alloc, head)?)
}

fn boxed_optional(
    alloc: Global,
    numbers: &Numbers,
    e: &Option<Expression>,
) -> Result<Boxed<Option<Phrase>>, Memory>
    ensures { IfOk result (λ p. p ≡ spec.optional_expression numbers.now.names numbers.now.formats e.now) }
{
    let e = optional_phrase(alloc, numbers, e)?;
    Ok(Boxed::new(alloc, e)?)
}

fn if_of(
    alloc: Global,
    numbers: &Numbers,
    condition: &Expression,
    body: Boxed<Statement>,
) -> Result<Statement, Memory>
    ensures { IfOk result (λ y. y ≡ plain.If (spec.plain_expression numbers.now.names numbers.now.formats condition.now) body) }
{
    let condition = phrase(alloc, numbers, condition)?;
    Ok(Statement::If { condition, body })
}

fn if_else_of(
    alloc: Global,
    numbers: &Numbers,
    condition: &Expression,
    yes: Boxed<Statement>,
    no: Boxed<Statement>,
) -> Result<Statement, Memory>
    ensures { IfOk result (λ y. y ≡ plain.IfElse (spec.plain_expression numbers.now.names numbers.now.formats condition.now) yes no) }
{
    let condition = phrase(alloc, numbers, condition)?;
    Ok(Statement::IfElse { condition, yes, no })
}

fn while_of(
    alloc: Global,
    numbers: &Numbers,
    condition: &Expression,
    body: Boxed<Statement>,
) -> Result<Statement, Memory>
    ensures { IfOk result (λ y. y ≡ plain.While (spec.plain_expression numbers.now.names numbers.now.formats condition.now) body) }
{
    let condition = phrase(alloc, numbers, condition)?;
    Ok(Statement::While { condition, body })
}

fn do_of(
    alloc: Global,
    numbers: &Numbers,
    body: Boxed<Statement>,
    condition: &Expression,
) -> Result<Statement, Memory>
    ensures { IfOk result (λ y. y ≡ plain.DoWhile body (spec.plain_expression numbers.now.names numbers.now.formats condition.now)) }
{
    let condition = phrase(alloc, numbers, condition)?;
    Ok(Statement::DoWhile { body, condition })
}

fn for_of(
    alloc: Global,
    numbers: &Numbers,
    header: &ForHeader,
    body: Boxed<Statement>,
) -> Result<Statement, Memory>
    ensures { IfOk result (λ y. y ≡ for_header numbers.now.names numbers.now.formats header.now body) }
{
    let first = boxed_optional(alloc, numbers, &header.first)?;
    let condition = boxed_optional(alloc, numbers, &header.condition)?;
    let next = boxed_optional(alloc, numbers, &header.step)?;
    Ok(Statement::For {
        first: first.into_inner(),
        condition: condition.into_inner(),
        next: next.into_inner(),
        body,
    })
}

/// The plain statements of these entries: each variable is a statement of its own.
#[cycle(statements)]
#[tactic(auto, using(crate::proofs::PlainCode::plain_statements))]
pub(crate) fn block(
    alloc: Global,
    numbers: &Numbers,
    all: &[Entry],
) -> Result<Items<Statement>, Memory>
    ensures { IfOk result (λ b. b ≡ spec.block_of_list numbers.now.names numbers.now.formats all.now) }
{
    let mut found = Items::new(alloc);
    for x in all {
        let more = entry(alloc, numbers, x)?;
        found.append(more)?;
    }
    Ok(found)
}

#[cycle(statements)]
#[tactic(auto, using(crate::proofs::PlainCode::plain_statements))]
fn entry(alloc: Global, numbers: &Numbers, x: &Entry) -> Result<Items<Statement>, Memory>
    ensures { IfOk result (λ b. b ≡ spec.entry numbers.now.names numbers.now.formats x.now) }
{
    match x {
        Entry::Local(l) => locals(alloc, numbers, &l.of, l.declarators.as_slice()),
        Entry::Statement(s) => {
            let one = statement(alloc, numbers, s)?;
            single(alloc, one)
        }
    }
}

#[cycle(statements)]
#[tactic(auto, using(crate::proofs::PlainCode::plain_statements))]
fn statement(alloc: Global, numbers: &Numbers, s: &tree::Statement) -> Result<Statement, Memory>
    ensures { IfOk result (λ y. y ≡ spec.plain_statement numbers.now.names numbers.now.formats s.now) }
{
    match s {
        tree::Statement::Empty(_) => Ok(Statement::Empty),
        tree::Statement::Block(all) => Ok(Statement::Block(block(alloc, numbers, all.as_slice())?)),
        tree::Statement::Expression(e) => Ok(Statement::Evaluate(phrase(alloc, numbers, e)?)),
        tree::Statement::If {
            condition,
            then,
            ..
        } => {
            let body = boxed_statement(alloc, numbers, then.get())?;
            if_of(alloc, numbers, condition, body)
        }
        tree::Statement::IfElse {
            condition,
            then,
            otherwise,
            ..
        } => {
            let yes = boxed_statement(alloc, numbers, then.get())?;
            let no = boxed_statement(alloc, numbers, otherwise.get())?;
            if_else_of(alloc, numbers, condition, yes, no)
        }
        tree::Statement::While {
            condition,
            body,
            ..
        } => {
            let body = boxed_statement(alloc, numbers, body.get())?;
            while_of(alloc, numbers, condition, body)
        }
        tree::Statement::Do {
            body,
            condition,
            ..
        } => {
            let body = boxed_statement(alloc, numbers, body.get())?;
            do_of(alloc, numbers, body, condition)
        }
        tree::Statement::For { header, body, .. } => {
            let body = boxed_statement(alloc, numbers, body.get())?;
            for_of(alloc, numbers, header.get(), body)
        }
        tree::Statement::Break(place) => Ok(Statement::Break(*place)),
        tree::Statement::Continue(place) => Ok(Statement::Continue(*place)),
        tree::Statement::Return(place, e) => Ok(Statement::Return(
            *place,
            optional_phrase(alloc, numbers, e)?,
        )),
        tree::Statement::Treturn(place, e) => Ok(Statement::TransactionReturn(
            *place,
            optional_phrase(alloc, numbers, e)?,
        )),
        tree::Statement::Delay(_, e) => Ok(Statement::Delay(phrase(alloc, numbers, e)?)),
        tree::Statement::Accept(a) => Ok(Statement::Accept {
            part: part(alloc, numbers, a.get())?,
        }),
        tree::Statement::Select(place, all) => Ok(Statement::Select(
            *place,
            alternatives(alloc, numbers, all.as_slice())?,
        )),
    }
}

#[cycle(statements)]
#[tactic(auto, using(crate::proofs::PlainCode::plain_statements))]
fn boxed_statement(
    alloc: Global,
    numbers: &Numbers,
    s: &tree::Statement,
) -> Result<Boxed<Statement>, Memory>
    ensures { IfOk result (λ y. y ≡ spec.plain_statement numbers.now.names numbers.now.formats s.now) }
{
    let one = statement(alloc, numbers, s)?;
    Ok(Boxed::new(alloc, one)?)
}

#[cycle(statements)]
#[tactic(auto, using(crate::proofs::PlainCode::plain_statements))]
fn part(alloc: Global, numbers: &Numbers, accept: &tree::Accept) -> Result<AcceptPart, Memory>
    ensures { IfOk result (λ y. y ≡ accept_of numbers.now.names numbers.now.formats accept.now) }
{
    let block = match &accept.block {
        None => Items::new(alloc),
        Some(all) => block(alloc, numbers, all.as_slice())?,
    };
    let head = boxed_head(alloc, numbers, accept)?;
    Ok(AcceptPart {
        head: head.into_inner(),
        block,
    })
}

#[cycle(statements)]
#[tactic(auto, using(crate::proofs::PlainCode::plain_statements))]
fn alternatives(
    alloc: Global,
    numbers: &Numbers,
    all: &[tree::Alternative],
) -> Result<Items<Alternative>, Memory>
    ensures { IfOk result (λ y. y ≡ map (alternative numbers.now.names numbers.now.formats) all.now) }
{
    let mut found = Items::new(alloc);
    for x in all {
        let one = alternative(alloc, numbers, x)?;
        found.push(one)?;
    }
    Ok(found)
}

#[cycle(statements)]
#[tactic(auto, using(crate::proofs::PlainCode::plain_statements))]
fn alternative(
    alloc: Global,
    numbers: &Numbers,
    a: &tree::Alternative,
) -> Result<Alternative, Memory>
    ensures { IfOk result (λ y. y ≡ alternative numbers.now.names numbers.now.formats a.now) }
{
    let entries = entries_behind(alloc, numbers, &a.choice)?;
    let choice = boxed_choice(alloc, numbers, &a.choice)?;
    let guard = optional_phrase(alloc, numbers, &a.guard)?;
    Ok(Alternative {
        guard,
        choice: choice.into_inner(),
        entries,
    })
}

#[cycle(statements)]
#[tactic(auto, using(crate::proofs::PlainCode::plain_statements))]
fn entries_behind(
    alloc: Global,
    numbers: &Numbers,
    choice: &tree::Choice,
) -> Result<Items<Statement>, Memory>
    ensures { IfOk result (λ y. y ≡ (spec.choice_of numbers.now.names numbers.now.formats choice.now).1) }
{
    match choice {
        tree::Choice::Accept(_, all)
        | tree::Choice::Delay(_, _, all)
        | tree::Choice::Immediate(_, all) => block(alloc, numbers, all.as_slice()),
        tree::Choice::Terminate(_) => Ok(Items::new(alloc)),
    }
}

#[cycle(statements)]
#[tactic(auto, using(crate::proofs::PlainCode::plain_statements))]
fn boxed_choice(
    alloc: Global,
    numbers: &Numbers,
    choice: &tree::Choice,
) -> Result<Boxed<Choice>, Memory>
    ensures { IfOk result (λ y. y ≡ (spec.choice_of numbers.now.names numbers.now.formats choice.now).0) }
{
    let offered = offered(alloc, numbers, choice)?;
    Ok(Boxed::new(alloc, offered)?)
}

#[cycle(statements)]
#[tactic(auto, using(crate::proofs::PlainCode::plain_statements))]
fn offered(alloc: Global, numbers: &Numbers, choice: &tree::Choice) -> Result<Choice, Memory>
    ensures { IfOk result (λ y. y ≡ (spec.choice_of numbers.now.names numbers.now.formats choice.now).0) }
{
    match choice {
        tree::Choice::Accept(accept, _) => {
            let part = part(alloc, numbers, accept)?;
            Ok(Choice::Accept { part })
        }
        tree::Choice::Delay(_, e, _) => Ok(Choice::Delay(phrase(alloc, numbers, e)?)),
        tree::Choice::Immediate(_, _) => Ok(Choice::Immediate),
        tree::Choice::Terminate(_) => Ok(Choice::Terminate),
    }
}
