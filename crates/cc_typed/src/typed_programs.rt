ghost use Rattle.std.specs.List.{list_all};
ghost use Rattle.std.specs.Prelude.{◌≡◌, slice_get, IfOk};
ghost use Rattle.cc_typed.specs.Checked.{around, parts_of};
ghost use Rattle.cc_typed.specs.Typed.{are_typed_kinds, is_typed_but_for_sites, are_variables, at_clauses, has_few_parts, has_main, has_parameter_variables, have_types_from, in_function, in_kind, is_clause, is_environment, is_of_kind, is_typed_function, is_typed_kind, is_typed_program, is_typed_site, is_typed_transaction};

use crate::accepts::single_accepts;
use crate::clauses::{Own, note_clause, pure, same_numbers};
use crate::known::{few, known_types, parameter_types, process_kind, typed_structures, whole_type};
use crate::parts::ProgramParts;
use crate::tree::{Expression, Function, Kind, Site, Transaction};
use crate::typed::Context;
use crate::types::{DataType, same_types, void_type};
use cc_base::limits::MOST_PURE_DEPTH;
use sqlite_items::Items;
use std::alloc::{AllocError, Global};

/// Whether the types are known, with so many parameters first.
fn variable_types(parts: &ProgramParts, parameters: u32, types: &[DataType]) -> bool
    ensures { result ≡ are_variables (parts_of parts.now) parameters types.now }
{
    let count = parameters as usize;
    few(types.len())
        && count <= types.len()
        && parameter_types(parts, &types[..count])
        && known_types(parts, types)
}

/// Where the body of a kind stands.
fn in_kind<'p>(parts: &'p ProgramParts, number: usize, kind: &'p Kind) -> Context<'p>
    ensures { around result ≡ in_kind (parts_of parts.now) number kind.now }
{
    Context {
        parts,
        variables: kind.variables.as_slice(),
        kind: Some(number),
        result: Some(kind.result),
        replies: None,
        may_break: false,
        may_continue: false,
    }
}

fn typed_kind(parts: &ProgramParts, number: usize, kind: &Kind) -> bool
    ensures { result ≡ is_typed_kind (parts_of parts.now) number kind.now }
{
    variable_types(parts, kind.parameters, kind.variables.as_slice())
        && (void_type(kind.result) || number == 0 && whole_type(parts, kind.result))
        && in_kind(parts, number, kind).typed_statements(kind.body.as_slice())
}

#[tactic(auto, using(crate::proofs::TypedPrograms::kinds_in_order))]
fn typed_kinds(parts: &ProgramParts, kinds: &[Kind]) -> bool
    ensures { result ≡ are_typed_kinds (parts_of parts.now) 0 kinds.now }
{
    for number in 0..kinds.len() {
        if !typed_kind(parts, number, &kinds[number]) {
            return false;
        }
    }
    true
}

/// Where the body of a function stands.
fn in_function<'p>(parts: &'p ProgramParts, function: &'p Function) -> Context<'p>
    ensures { around result ≡ in_function (parts_of parts.now) function.now }
{
    Context {
        parts,
        variables: function.variables.as_slice(),
        kind: None,
        result: Some(function.result),
        replies: None,
        may_break: false,
        may_continue: false,
    }
}

fn typed_function(parts: &ProgramParts, function: &Function) -> bool
    ensures { result ≡ is_typed_function (parts_of parts.now) function.now }
{
    variable_types(parts, function.parameters, function.variables.as_slice())
        && (void_type(function.result) || whole_type(parts, function.result))
        && in_function(parts, function).typed_statements(function.body.as_slice())
}

fn typed_functions(parts: &ProgramParts, functions: &[Function]) -> bool
    ensures { result ≡ list_all (is_typed_function (parts_of parts.now)) functions.now }
{
    for function in functions {
        if !typed_function(parts, function) {
            return false;
        }
    }
    true
}

fn typed_transaction(parts: &ProgramParts, transaction: &Transaction) -> bool
    ensures { result ≡ is_typed_transaction (parts_of parts.now) transaction.now }
{
    process_kind(parts, transaction.kind)
        && parameter_types(parts, transaction.parameters.as_slice())
        && (void_type(transaction.value)
            || !transaction.is_async && whole_type(parts, transaction.value))
}

fn typed_transactions(parts: &ProgramParts, transactions: &[Transaction]) -> bool
    ensures { result ≡ list_all (is_typed_transaction (parts_of parts.now)) transactions.now }
{
    for transaction in transactions {
        if !typed_transaction(parts, transaction) {
            return false;
        }
    }
    true
}

/// Where the clauses of an accept stand.
fn at_clauses<'p>(parts: &'p ProgramParts, site: &Site) -> Context<'p>
    ensures { around result ≡ at_clauses (parts_of parts.now) site.now }
{
    let variables: &'p [DataType] = match parts.kinds.get(site.kind as usize) {
        Some(kind) => kind.variables.as_slice(),
        None => &[],
    };
    Context {
        parts,
        variables,
        kind: Some(site.kind as usize),
        result: None,
        replies: None,
        may_break: false,
        may_continue: false,
    }
}

impl<'p> Context<'p> {
    /// Whether a clause of an accept is a pure number that is not too deep, where it is there.
    fn clause(&self, clause: &Option<Expression>) -> bool
        ensures { result ≡ is_clause (around self.now) clause.now }
    {
        match clause {
            None => true,
            Some(e) => pure(MOST_PURE_DEPTH, e) && self.number(e),
        }
    }
}

fn transaction_of_kind(parts: &ProgramParts, transaction: u32, kind: u32) -> bool
    ensures { result ≡ is_of_kind (slice_get (parts_of parts.now).transactions transaction) kind }
{
    match parts.transactions.get(transaction as usize) {
        Some(found) => found.kind == kind,
        None => false,
    }
}

/// Whether there are variables of these types from this number on.
#[tactic(auto, using(crate::specs::Sequences::cuts))]
fn types_from(types: &[DataType], variables: &[DataType], first: u32) -> bool
    ensures { result ≡ have_types_from types.now variables.now first }
{
    let first = first as usize;
    if first > variables.len() {
        return false;
    }
    let rest = &variables[first..];
    same_types(types, &rest[..types.len().min(rest.len())])
}

/// Whether there are variables for the parameters of an accept.
fn parameter_variables(parts: &ProgramParts, site: &Site) -> bool
    ensures { result ≡ has_parameter_variables (parts_of parts.now) site.now }
{
    let context = at_clauses(parts, site);
    types_from(
        context.transaction_parameters(site.transaction),
        context.variables,
        site.first,
    )
}

/// Whether the environment of an accept is the variables that its clauses name, in the order of first mention.
fn named_environment(alloc: Global, own: Own, site: &Site) -> Result<bool, AllocError>
    ensures { IfOk result (λ b. b ≡ is_environment own site.now) }
{
    let mut seen = Items::new(alloc);
    note_clause(own, &mut seen, &site.such_that)?;
    note_clause(own, &mut seen, &site.least_by)?;
    if same_numbers(site.environment.as_slice(), seen.as_slice()) {
        return Ok(true);
    }
    let mut seen = Items::new(alloc);
    note_clause(own, &mut seen, &site.least_by)?;
    note_clause(own, &mut seen, &site.such_that)?;
    Ok(same_numbers(site.environment.as_slice(), seen.as_slice()))
}

fn typed_site(alloc: Global, parts: &ProgramParts, site: &Site) -> Result<bool, AllocError>
    ensures { IfOk result (λ b. b ≡ is_typed_site (parts_of parts.now) site.now) }
{
    let context = at_clauses(parts, site);
    let fits = process_kind(parts, site.kind)
        && transaction_of_kind(parts, site.transaction, site.kind)
        && parameter_variables(parts, site)
        && context.clause(&site.such_that)
        && context.clause(&site.least_by);
    if !fits {
        return Ok(false);
    }
    let own = Own {
        first: site.first,
        count: context.transaction_parameters(site.transaction).len(),
    };
    named_environment(alloc, own, site)
}

fn typed_sites(alloc: Global, parts: &ProgramParts, sites: &[Site]) -> Result<bool, AllocError>
    ensures { IfOk result (λ b. b ≡ list_all (is_typed_site (parts_of parts.now)) sites.now) }
{
    for site in sites {
        if !typed_site(alloc, parts, site)? {
            return Ok(false);
        }
    }
    Ok(true)
}

fn has_main(kinds: &[Kind]) -> bool
    ensures { result ≡ has_main kinds.now }
{
    match kinds {
        [] => false,
        [main, ..] => main.parameters == 0,
    }
}

fn few_parts(parts: &ProgramParts) -> bool
    ensures { result ≡ has_few_parts (parts_of parts.now) }
{
    few(parts.structures.len())
        && few(parts.kinds.len())
        && few(parts.functions.len())
        && few(parts.transactions.len())
        && few(parts.sites.len())
        && few(parts.formats.len())
}

/// Whether all but the sites is typed.
fn typed_but_for_sites(parts: &ProgramParts) -> bool
    ensures { result ≡ is_typed_but_for_sites (parts_of parts.now) }
{
    has_main(parts.kinds.as_slice())
        && few_parts(parts)
        && typed_structures(parts)
        && typed_kinds(parts, parts.kinds.as_slice())
        && typed_functions(parts, parts.functions.as_slice())
        && typed_transactions(parts, parts.transactions.as_slice())
}

/// Whether the parts are those of a typed program. An error is out of memory, and then nothing was changed.
pub fn typed_program(alloc: Global, parts: &ProgramParts) -> Result<bool, AllocError>
    ensures typed { IfOk result (λ b. b ≡ is_typed_program (parts_of parts.now)) }
{
    if !typed_but_for_sites(parts) || !typed_sites(alloc, parts, parts.sites.as_slice())? {
        return Ok(false);
    }
    single_accepts(alloc, parts.sites.len(), parts.kinds.as_slice())
}
