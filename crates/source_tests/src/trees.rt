//! Parts of straight programs, put together by hand, and two whole ones.

use cc_typed::{
    AcceptPart, Argument, ChainStep, DataType, Expression, Kind, Location, NumberType,
    ProgramParts, Site, Statement, Transaction,
};
use sqlite_items::{Boxed, Items};
use std::alloc::{AllocError, Global};

/// The list of one item.
pub fn one<T: Drop>(alloc: Global, item: T) -> Result<Items<T>, AllocError> {
    let mut items = Items::new(alloc);
    items.push(item)?;
    Ok(items)
}

/// The list of two items.
pub fn two<T: Drop>(alloc: Global, first: T, second: T) -> Result<Items<T>, AllocError> {
    let mut items = one(alloc, first)?;
    items.push(second)?;
    Ok(items)
}

/// The list with one more item.
pub fn and<T: Drop>(items: Items<T>, item: T) -> Result<Items<T>, AllocError> {
    let mut items = items;
    items.push(item)?;
    Ok(items)
}

/// The place that is a variable.
pub fn variable(alloc: Global, number: u32, data_type: DataType) -> Location {
    Location {
        variable: number,
        of: data_type,
        steps: Items::new(alloc),
        data_type,
    }
}

pub fn read(from: Location) -> Expression {
    Expression::Read { from }
}

pub fn number(value: i64, number_type: NumberType) -> Expression {
    Expression::Constant { value, number_type }
}

/// A number of type `int`.
pub fn int(value: i64) -> Expression {
    number(value, NumberType::Int)
}

/// The value of the variable of this number, of type `int`.
pub fn int_at(alloc: Global, at: u32) -> Expression {
    read(variable(alloc, at, DataType::int()))
}

/// The value of the variable of this number, of a process type.
pub fn process_at(alloc: Global, at: u32, kind: u32) -> Expression {
    read(variable(alloc, at, DataType::process(kind)))
}

/// `putchar(e)`.
pub fn put_char(alloc: Global, e: Expression) -> Result<Expression, AllocError> {
    let value = Boxed::new(alloc, e)?;
    Ok(Expression::PutChar { value })
}

/// `x = e`, of the variable of this number and type.
pub fn assign(
    alloc: Global,
    at: u32,
    data_type: DataType,
    e: Expression,
) -> Result<Expression, AllocError> {
    let value = Boxed::new(alloc, e)?;
    let to = variable(alloc, at, data_type);
    Ok(Expression::Assign { to, value })
}

/// An argument of this type.
pub fn argument(value: Expression, data_type: DataType) -> Argument {
    Argument { value, data_type }
}

/// The arguments that are this number.
pub fn int_argument(alloc: Global, value: i64) -> Result<Items<Argument>, AllocError> {
    one(alloc, argument(int(value), DataType::int()))
}

/// `p.t(args)`, with a value of this type.
pub fn call(
    alloc: Global,
    process: Expression,
    transaction: u32,
    args: Items<Argument>,
    data_type: DataType,
) -> Result<Expression, AllocError> {
    let steps = one(
        alloc,
        ChainStep::Call {
            transaction,
            args,
            data_type,
        },
    )?;
    Ok(Expression::Chain {
        first: Boxed::new(alloc, process)?,
        steps,
        data_type,
    })
}

/// A statement that is this expression.
pub fn evaluate(expression: Expression) -> Result<Statement, AllocError> {
    Ok(Statement::Evaluate { expression })
}

/// `putchar(e);`.
pub fn print(alloc: Global, e: Expression) -> Result<Statement, AllocError> {
    evaluate(put_char(alloc, e)?)
}

/// `p = create s(args);`, of the variable and the kind of these numbers.
pub fn create(
    alloc: Global,
    at: u32,
    kind: u32,
    args: Items<Argument>,
) -> Result<Statement, AllocError> {
    let made = Expression::CreateProcess { kind, args };
    evaluate(assign(alloc, at, DataType::process(kind), made)?)
}

/// `t x;`, of the variable of this number.
pub fn declare(variable: u32, data_type: DataType) -> Statement {
    Statement::Declare {
        variable,
        data_type,
    }
}

/// `process s p; p = create s();`, of the variable and the kind of these numbers.
pub fn made(alloc: Global, at: u32, kind: u32) -> Result<Items<Statement>, AllocError> {
    let created = create(alloc, at, kind, Items::new(alloc))?;
    two(alloc, declare(at, DataType::process(kind)), created)
}

/// `accept t() { .. }`, at this site.
pub fn accept(site: u32, block: Items<Statement>) -> Statement {
    Statement::Accept {
        part: AcceptPart { site, block },
    }
}

/// `treturn e;`, of type `int`.
pub fn reply(e: Expression) -> Statement {
    Statement::TransactionReturn {
        value: Some(e),
        data_type: DataType::int(),
    }
}

/// `main` with these variables and this body.
pub fn main_of(
    alloc: Global,
    variables: &[DataType],
    body: Items<Statement>,
) -> Result<Kind, AllocError> {
    Ok(Kind {
        parameters: 0,
        variables: Items::from_slice(alloc, variables)?,
        result: DataType::int(),
        body,
    })
}

/// The body of a process type with so many parameters and these variables.
pub fn body_of(
    alloc: Global,
    parameters: u32,
    variables: &[DataType],
    body: Items<Statement>,
) -> Result<Kind, AllocError> {
    Ok(Kind {
        parameters,
        variables: Items::from_slice(alloc, variables)?,
        result: DataType::Void,
        body,
    })
}

/// A synchronous transaction of this kind.
pub fn transaction(
    alloc: Global,
    kind: u32,
    parameters: &[DataType],
    value: DataType,
) -> Result<Transaction, AllocError> {
    Ok(Transaction {
        kind,
        is_async: false,
        parameters: Items::from_slice(alloc, parameters)?,
        value,
    })
}

/// `trans int t(int x);`, of this kind.
pub fn int_transaction(alloc: Global, kind: u32) -> Result<Transaction, AllocError> {
    transaction(alloc, kind, &[DataType::int()], DataType::int())
}

/// A site of this kind and transaction without clauses, of which the parameters begin at this variable.
pub fn site(alloc: Global, kind: u32, transaction: u32, first: u32) -> Site {
    Site {
        kind,
        transaction,
        first,
        environment: Items::new(alloc),
        such_that: None,
        least_by: None,
    }
}

/// A program of these kinds, transactions and sites.
pub fn parts(
    alloc: Global,
    kinds: Items<Kind>,
    transactions: Items<Transaction>,
    sites: Items<Site>,
) -> ProgramParts {
    ProgramParts {
        structures: Items::new(alloc),
        kinds,
        functions: Items::new(alloc),
        transactions,
        sites,
        formats: Items::new(alloc),
    }
}

/// `accept t(x) { putchar(x); treturn 66; }`.
fn server(alloc: Global) -> Result<Kind, AllocError> {
    let printed = print(alloc, int_at(alloc, 0))?;
    let block = two(alloc, printed, reply(int(66)))?;
    let body = one(alloc, accept(0, block))?;
    body_of(alloc, 0, &[DataType::int()], body)
}

/// `putchar(p.t(65));`, of variable 0, kind 1 and transaction 0.
fn print_call(alloc: Global) -> Result<Statement, AllocError> {
    let args = int_argument(alloc, 65)?;
    let called = call(alloc, process_at(alloc, 0, 1), 0, args, DataType::int())?;
    print(alloc, called)
}

/// `process s p; p = create s(); putchar(p.t(65));`.
pub fn client(alloc: Global) -> Result<Kind, AllocError> {
    let body = made(alloc, 0, 1)?;
    let body = and(body, print_call(alloc)?)?;
    main_of(alloc, &[DataType::process(1)], body)
}

/// `process spec s() { trans int t(int a); }; process body s() { accept t(x) { putchar(x); treturn 66; } } main() {
/// process s p; p = create s(); putchar(p.t(65)); }`.
pub fn rendezvous(alloc: Global) -> Result<ProgramParts, AllocError> {
    let main = client(alloc)?;
    let kinds = two(alloc, main, server(alloc)?)?;
    let transactions = one(alloc, int_transaction(alloc, 1)?)?;
    let sites = one(alloc, site(alloc, 1, 0, 0))?;
    Ok(parts(alloc, kinds, transactions, sites))
}

/// `process s p; p.t();`.
fn caller(alloc: Global) -> Result<Kind, AllocError> {
    let process = process_at(alloc, 0, 1);
    let expression = call(alloc, process, 0, Items::new(alloc), DataType::Void)?;
    let body = two(
        alloc,
        declare(0, DataType::process(1)),
        evaluate(expression)?,
    )?;
    main_of(alloc, &[DataType::process(1)], body)
}

/// `process spec s() { trans void t(); }; process body s() { } main() { process s p; p.t(); }`.
pub fn call_of_null(alloc: Global) -> Result<ProgramParts, AllocError> {
    let main = caller(alloc)?;
    let other = body_of(alloc, 0, &[], Items::new(alloc))?;
    let kinds = two(alloc, main, other)?;
    let transactions = one(alloc, transaction(alloc, 1, &[], DataType::Void)?)?;
    Ok(parts(alloc, kinds, transactions, Items::new(alloc)))
}
