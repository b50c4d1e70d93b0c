//! Which programs are typed: each site stands in one accept.

use crate::builders::{program, server_with};
use crate::trees::{accept, main_of, number, one};
use cc_typed::{NumberType, Statement, typed_program};
use sqlite_items::{Boxed, Items};
use std::alloc::{AllocError, Global};
use std::rt::HostRuntime;

/// Whether a program is typed in which `q` has this body, and its one site this first parameter.
fn with_body(alloc: Global, body: Items<Statement>, first: u32) -> Result<bool, AllocError> {
    let main = main_of(alloc, &[], Items::new(alloc))?;
    let server = server_with(alloc, body)?;
    let parts = program(alloc, Items::new(alloc), main, server, first)?;
    typed_program(alloc, &parts)
}

/// Whether it is typed with this one statement.
fn with_statement(
    alloc: Global,
    statement: Result<Statement, AllocError>,
) -> Result<bool, AllocError> {
    let body = one(alloc, statement?)?;
    with_body(alloc, body, 0)
}

/// `accept t() { }`.
fn plain(alloc: Global) -> Result<Statement, AllocError> {
    Ok(accept(0, Items::new(alloc)))
}

/// `accept t() { accept t() { } }`, both at one site.
fn twice(alloc: Global) -> Result<Statement, AllocError> {
    let block = one(alloc, accept(0, Items::new(alloc)))?;
    Ok(accept(0, block))
}

/// `while (1) accept t() { break; }`.
fn leaving(alloc: Global) -> Result<Statement, AllocError> {
    let block = one(alloc, Statement::Break)?;
    Ok(Statement::While {
        condition: number(1, NumberType::Int),
        body: Boxed::new(alloc, accept(0, block))?,
    })
}

#[test]
fn each_site_stands_in_one_accept(rt: HostRuntime) {
    let alloc = rt.alloc();
    let fine = with_statement(alloc, plain(alloc));
    assert!(rt; fine.expect(&rt, "memory"));
    let none = with_body(alloc, Items::new(alloc), 0);
    assert!(rt; !none.expect(&rt, "memory"));
    let both = with_statement(alloc, twice(alloc));
    assert!(rt; !both.expect(&rt, "memory"));
    let missing = with_statement(alloc, Ok(accept(1, Items::new(alloc))));
    assert!(rt; !missing.expect(&rt, "memory"));
}

#[test]
fn parameters_begin_at_a_variable_or_after_the_last(rt: HostRuntime) {
    let alloc = rt.alloc();
    let after = with_first(alloc, 1);
    assert!(rt; after.expect(&rt, "memory"));
    let beyond = with_first(alloc, 2);
    assert!(rt; !beyond.expect(&rt, "memory"));
}

/// Whether `accept t() { }` is typed with this first parameter.
fn with_first(alloc: Global, first: u32) -> Result<bool, AllocError> {
    let body = one(alloc, plain(alloc)?)?;
    with_body(alloc, body, first)
}

#[test]
fn break_does_not_leave_an_accept(rt: HostRuntime) {
    let alloc = rt.alloc();
    let answer = with_statement(alloc, leaving(alloc));
    assert!(rt; !answer.expect(&rt, "memory"));
}
