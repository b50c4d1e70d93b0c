//! What is made of the good parts of statements.

ghost use Rattle.std.specs.Prelude.{◌≡◌, IfOk};
ghost use Rattle.cc_faults.specs.Judged.{answer_map, answer_pair};
ghost use Rattle.cc_faults.specs.Statements as statement;

use cc_faults::{Answer, FaultAt, Role, pair};
use cc_typed::{AcceptPart, Alternative, Choice, DataType, Expression, Statement};
use sqlite_items::{Boxed, Items};
use std::alloc::{AllocError, Global};

/// `e;`
pub fn evaluated(value: Answer<Expression>) -> Answer<Statement>
    ensures evaluated { result ≡ answer_map statement.evaluated value }
{
    match value {
        Answer::Good(expression) => Answer::Good(Statement::Evaluate { expression }),
        Answer::Typeless => Answer::Typeless,
        Answer::Faulty => Answer::Faulty,
    }
}

/// `{ .. }`
pub fn blocked(entries: Answer<Items<Statement>>) -> Answer<Statement>
    ensures blocked { result ≡ answer_map statement.blocked entries }
{
    match entries {
        Answer::Good(entries) => Answer::Good(Statement::Block { entries }),
        Answer::Typeless => Answer::Typeless,
        Answer::Faulty => Answer::Faulty,
    }
}

/// `if (c) a`
pub fn branched(
    alloc: Global,
    condition: Answer<Expression>,
    body: Answer<Statement>,
) -> Result<Answer<Statement>, AllocError>
    ensures branched { IfOk result (λ r. r ≡ answer_map statement.branched (answer_pair condition body)) }
{
    match pair(condition, body) {
        Answer::Good((condition, body)) => {
            let body = Boxed::new(alloc, body)?;
            Ok(Answer::Good(Statement::If { condition, body }))
        }
        Answer::Typeless => Ok(Answer::Typeless),
        Answer::Faulty => Ok(Answer::Faulty),
    }
}

fn boxed_branches(
    alloc: Global,
    condition: Expression,
    yes: Statement,
    no: Statement,
) -> Result<Statement, AllocError>
    ensures { IfOk result (λ r. r ≡ statement.branched_both ((condition, yes), no)) }
{
    let yes = Boxed::new(alloc, yes)?;
    let no = Boxed::new(alloc, no)?;
    Ok(Statement::IfElse { condition, yes, no })
}

/// `if (c) a else b`
pub fn branched_both(
    alloc: Global,
    condition: Answer<Expression>,
    yes: Answer<Statement>,
    no: Answer<Statement>,
) -> Result<Answer<Statement>, AllocError>
    ensures branched { IfOk result (λ r. r ≡ answer_map statement.branched_both (answer_pair (answer_pair condition yes) no)) }
{
    match pair(pair(condition, yes), no) {
        Answer::Good(((condition, yes), no)) => Ok(Answer::Good(boxed_branches(
            alloc, condition, yes, no,
        )?)),
        Answer::Typeless => Ok(Answer::Typeless),
        Answer::Faulty => Ok(Answer::Faulty),
    }
}

/// `while (c) a`
pub fn looped(
    alloc: Global,
    condition: Answer<Expression>,
    body: Answer<Statement>,
) -> Result<Answer<Statement>, AllocError>
    ensures looped { IfOk result (λ r. r ≡ answer_map statement.looped (answer_pair condition body)) }
{
    match pair(condition, body) {
        Answer::Good((condition, body)) => {
            let body = Boxed::new(alloc, body)?;
            Ok(Answer::Good(Statement::While { condition, body }))
        }
        Answer::Typeless => Ok(Answer::Typeless),
        Answer::Faulty => Ok(Answer::Faulty),
    }
}

/// `do a while (c);`
pub fn looped_after(
    alloc: Global,
    body: Answer<Statement>,
    condition: Answer<Expression>,
) -> Result<Answer<Statement>, AllocError>
    ensures looped { IfOk result (λ r. r ≡ answer_map statement.looped_after (answer_pair body condition)) }
{
    match pair(body, condition) {
        Answer::Good((body, condition)) => {
            let body = Boxed::new(alloc, body)?;
            Ok(Answer::Good(Statement::DoWhile { body, condition }))
        }
        Answer::Typeless => Ok(Answer::Typeless),
        Answer::Faulty => Ok(Answer::Faulty),
    }
}

/// What stands in the head of a `for`: what is done first, the condition, and what is done after each turn.
pub type ForHead = (Option<Expression>, (Option<Expression>, Option<Expression>));

fn boxed_for(alloc: Global, head: ForHead, body: Statement) -> Result<Statement, AllocError>
    ensures { IfOk result (λ r. r ≡ statement.looped_for (head, body)) }
{
    let (first, (condition, next)) = head;
    let body = Boxed::new(alloc, body)?;
    Ok(Statement::For {
        first,
        condition,
        next,
        body,
    })
}

/// `for (e; c; next) a`
pub fn looped_for(
    alloc: Global,
    head: Answer<ForHead>,
    body: Answer<Statement>,
) -> Result<Answer<Statement>, AllocError>
    ensures looped { IfOk result (λ r. r ≡ answer_map statement.looped_for (answer_pair head body)) }
{
    match pair(head, body) {
        Answer::Good((head, body)) => Ok(Answer::Good(boxed_for(alloc, head, body)?)),
        Answer::Typeless => Ok(Answer::Typeless),
        Answer::Faulty => Ok(Answer::Faulty),
    }
}

/// `break;`
pub fn broken(left: Answer<()>) -> Answer<Statement>
    ensures broken { result ≡ answer_map statement.broken left }
{
    match left {
        Answer::Good(_) => Answer::Good(Statement::Break),
        Answer::Typeless => Answer::Typeless,
        Answer::Faulty => Answer::Faulty,
    }
}

/// `continue;`
pub fn continued(left: Answer<()>) -> Answer<Statement>
    ensures continued { result ≡ answer_map statement.continued left }
{
    match left {
        Answer::Good(_) => Answer::Good(Statement::Continue),
        Answer::Typeless => Answer::Typeless,
        Answer::Faulty => Answer::Faulty,
    }
}

/// What a `return` is in a function, in `main` and in a process body.
fn return_in(role: Role, data_type: DataType, value: Option<Expression>) -> Statement
    ensures { result ≡ statement.return_in role (data_type, value) }
{
    match role {
        Role::Function(_) => Statement::Return { value, data_type },
        Role::Main(_) => Statement::Finish { value },
        Role::Body(_) => Statement::Finish { value },
    }
}

/// `return;` and `return e;`
pub fn returned(role: Role, value: Answer<(DataType, Option<Expression>)>) -> Answer<Statement>
    ensures returned { result ≡ answer_map (statement.return_in role) value }
{
    match value {
        Answer::Good((data_type, value)) => Answer::Good(return_in(role, data_type, value)),
        Answer::Typeless => Answer::Typeless,
        Answer::Faulty => Answer::Faulty,
    }
}

/// `treturn;` and `treturn e;`
pub fn replied(value: Answer<(DataType, Option<Expression>)>) -> Answer<Statement>
    ensures replied { result ≡ answer_map statement.replied value }
{
    match value {
        Answer::Good((data_type, value)) => {
            Answer::Good(Statement::TransactionReturn { value, data_type })
        }
        Answer::Typeless => Answer::Typeless,
        Answer::Faulty => Answer::Faulty,
    }
}

/// `delay e;`
pub fn delayed(wait: Answer<Expression>) -> Answer<Statement>
    ensures delayed { result ≡ answer_map statement.delayed wait }
{
    match wait {
        Answer::Good(wait) => Answer::Good(Statement::Delay { wait }),
        Answer::Typeless => Answer::Typeless,
        Answer::Faulty => Answer::Faulty,
    }
}

/// A local variable of this number.
fn variable_of(variable: u32, data_type: DataType, value: Option<Expression>) -> Statement
    ensures { result ≡ statement.variable_of variable data_type value }
{
    match value {
        None => Statement::Declare {
            variable,
            data_type,
        },
        Some(value) => Statement::Initialize {
            variable,
            data_type,
            value,
        },
    }
}

/// A local variable of this number, whose name is free.
pub fn variable_made(
    number: u32,
    declared: Answer<((), DataType)>,
    value: Answer<Option<Expression>>,
) -> Answer<Statement>
    ensures variable { result ≡ answer_map (statement.variable_made number) (answer_pair declared value) }
{
    match pair(declared, value) {
        Answer::Good(((_, data_type), value)) => {
            Answer::Good(variable_of(number, data_type, value))
        }
        Answer::Typeless => Answer::Typeless,
        Answer::Faulty => Answer::Faulty,
    }
}

/// `accept t(..) { .. }`
pub fn accepting(part: Answer<AcceptPart>) -> Answer<Statement>
    ensures accepting { result ≡ answer_map statement.accepting part }
{
    match part {
        Answer::Good(part) => Answer::Good(Statement::Accept { part }),
        Answer::Typeless => Answer::Typeless,
        Answer::Faulty => Answer::Faulty,
    }
}

/// `select { .. }`, in the process type of this number.
pub fn selected(
    kind: Answer<Result<u32, FaultAt>>,
    alternatives: Answer<Items<Alternative>>,
) -> Answer<Statement>
    ensures selected { result ≡ answer_map statement.selected (answer_pair kind alternatives) }
{
    match pair(kind, alternatives) {
        Answer::Good((_, alternatives)) => Answer::Good(Statement::Select { alternatives }),
        Answer::Typeless => Answer::Typeless,
        Answer::Faulty => Answer::Faulty,
    }
}

/// An accept that an alternative offers.
pub fn choice_accepting(part: Answer<AcceptPart>) -> Answer<Choice>
    ensures accepting { result ≡ answer_map statement.choice_accepting part }
{
    match part {
        Answer::Good(part) => Answer::Good(Choice::Accept { part }),
        Answer::Typeless => Answer::Typeless,
        Answer::Faulty => Answer::Faulty,
    }
}

/// A delay that an alternative offers.
pub fn choice_delaying(wait: Answer<Expression>) -> Answer<Choice>
    ensures delaying { result ≡ answer_map statement.choice_delaying wait }
{
    match wait {
        Answer::Good(wait) => Answer::Good(Choice::Delay { wait }),
        Answer::Typeless => Answer::Typeless,
        Answer::Faulty => Answer::Faulty,
    }
}

/// An alternative: its guard, what it offers, and the entries behind that.
pub fn alternative_made(
    offered: Answer<(Option<Expression>, Choice)>,
    entries: Answer<Items<Statement>>,
) -> Answer<Alternative>
    ensures alternative { result ≡ answer_map statement.alternative_made (answer_pair offered entries) }
{
    match pair(offered, entries) {
        Answer::Good(((guard, choice), entries)) => Answer::Good(Alternative {
            guard,
            choice,
            entries,
        }),
        Answer::Typeless => Answer::Typeless,
        Answer::Faulty => Answer::Faulty,
    }
}
