ghost use Rattle.std.specs.List.{list_all};
ghost use Rattle.std.specs.Prelude.{◌≡◌, ◌&&◌, not, true, length, slice_get, Some};
ghost use Rattle.cc_base.specs.Numbers.{is_int};
ghost use Rattle.cc_source.specs.Straight.{is_straight, is_straight_argument, is_straight_kind, is_straight_location, is_straight_option, is_straight_program, is_straight_site, is_straight_statement, is_straight_step, is_straight_transaction, is_straight_type, is_straight_value};

use crate::program::Program;
use cc_typed::{
    Argument, ChainStep, DataType, ElementType, Expression, Kind, Location, NumberType, Site,
    Statement, Transaction,
};

/// Whether it is `int` or a process type.
#[tactic(auto, unfolding(crate::specs::Straight::is_straight_type))]
pub(crate) fn straight_type(t: DataType) -> bool
    ensures { result ≡ is_straight_type t }
{
    matches!(
        t,
        DataType::Single(ElementType::Number(NumberType::Int))
            | DataType::Single(ElementType::Process { .. })
    )
}

/// Whether it is `int`, a process type or `void`.
#[tactic(auto, unfolding(crate::specs::Straight::is_straight_value))]
pub(crate) fn straight_value(t: DataType) -> bool
    ensures { result ≡ is_straight_value t }
{
    matches!(
        t,
        DataType::Void
            | DataType::Single(ElementType::Number(NumberType::Int))
            | DataType::Single(ElementType::Process { .. })
    )
}

fn straight_types(types: &[DataType]) -> bool
    ensures { result ≡ list_all is_straight_type types.now }
{
    for t in types {
        if !straight_type(*t) {
            return false;
        }
    }
    true
}

#[tactic(auto, unfolding(cc_base::specs::Numbers::is_int))]
fn straight_number(t: NumberType) -> bool
    ensures { result ≡ is_int t }
{
    matches!(t, NumberType::Int)
}

/// Whether it is a variable as a whole, of a straight type.
fn straight_location(place: &Location) -> bool
    ensures { result ≡ is_straight_location place.now }
{
    place.steps.is_empty() && straight_type(place.data_type)
}

/// Whether an expression is straight.
#[cycle(straight_expressions)]
#[tactic(auto, using(crate::proofs::Weights::weighs, crate::proofs::Straight::straight_expressions))]
fn straight_expression(e: &Expression) -> bool
    ensures { result ≡ is_straight e.now }
{
    match e {
        Expression::Constant { number_type, .. } => straight_number(*number_type),
        Expression::Read { from } => straight_location(from),
        Expression::Chain {
            first,
            steps,
            data_type,
        } => straight_expression(first.get())
            && straight_steps(steps.as_slice())
            && straight_value(*data_type),
        Expression::Parenthesized { operand, data_type } => straight_expression(operand.get())
            && straight_value(*data_type),
        Expression::Assign { to, value } => straight_location(to)
            && straight_expression(value.get()),
        Expression::CreateProcess { args, .. } => straight_arguments(args.as_slice()),
        Expression::PutChar { value } => straight_expression(value.get()),
        Expression::GetChar
        | Expression::Negate { .. }
        | Expression::Not { .. }
        | Expression::Plus { .. }
        | Expression::ChangeBefore { .. }
        | Expression::ChangeAfter { .. }
        | Expression::Arithmetic { .. }
        | Expression::Compare { .. }
        | Expression::Both { .. }
        | Expression::Either { .. }
        | Expression::Choose { .. }
        | Expression::Update { .. }
        | Expression::CallFunction { .. }
        | Expression::Within { .. }
        | Expression::PrintFormat { .. } => false,
    }
}

/// Whether a step is a synchronous call with straight arguments.
#[cycle(straight_expressions)]
#[tactic(auto, using(crate::proofs::Weights::weighs, crate::proofs::Straight::straight_expressions))]
fn straight_step(step: &ChainStep) -> bool
    ensures { result ≡ is_straight_step step.now }
{
    match step {
        ChainStep::Part { .. } => false,
        ChainStep::Call {
            args,
            data_type,
            ..
        } => straight_arguments(args.as_slice()) && straight_value(*data_type),
        ChainStep::Send { .. } => false,
    }
}

#[cycle(straight_expressions)]
#[tactic(auto, using(crate::proofs::Weights::weighs, crate::proofs::Straight::straight_expressions))]
fn straight_steps(steps: &[ChainStep]) -> bool
    ensures { result ≡ list_all is_straight_step steps.now }
{
    for step in steps {
        if !straight_step(step) {
            return false;
        }
    }
    true
}

#[cycle(straight_expressions)]
#[tactic(auto, using(crate::proofs::Weights::weighs, crate::proofs::Straight::straight_expressions))]
fn straight_arguments(args: &[Argument]) -> bool
    ensures { result ≡ list_all is_straight_argument args.now }
{
    for arg in args {
        if !(straight_expression(&arg.value) && straight_type(arg.data_type)) {
            return false;
        }
    }
    true
}

fn straight_option(value: &Option<Expression>) -> bool
    ensures { result ≡ is_straight_option value.now }
{
    match value {
        None => true,
        Some(e) => straight_expression(e),
    }
}

/// Whether a statement is straight.
#[cycle(straight_statements)]
#[tactic(auto, using(crate::proofs::Weights::weighs, crate::proofs::Straight::straight_statements))]
fn straight_statement(s: &Statement) -> bool
    ensures { result ≡ is_straight_statement s.now }
{
    match s {
        Statement::Empty => true,
        Statement::Evaluate { expression } => straight_expression(expression),
        Statement::Declare { data_type, .. } => straight_type(*data_type),
        Statement::Block { entries } => straight_statements(entries.as_slice()),
        Statement::TransactionReturn { value, data_type } => straight_option(value)
            && straight_value(*data_type),
        Statement::Accept { part } => straight_statements(part.block.as_slice()),
        Statement::Initialize { .. }
        | Statement::If { .. }
        | Statement::IfElse { .. }
        | Statement::While { .. }
        | Statement::DoWhile { .. }
        | Statement::For { .. }
        | Statement::Break
        | Statement::Continue
        | Statement::Return { .. }
        | Statement::Finish { .. }
        | Statement::Delay { .. }
        | Statement::Select { .. } => false,
    }
}

#[cycle(straight_statements)]
#[tactic(auto, using(crate::proofs::Weights::weighs, crate::proofs::Straight::straight_statements))]
fn straight_statements(all: &[Statement]) -> bool
    ensures { result ≡ list_all is_straight_statement all.now }
{
    for s in all {
        if !straight_statement(s) {
            return false;
        }
    }
    true
}

fn straight_kind(kind: &Kind) -> bool
    ensures { result ≡ is_straight_kind kind.now }
{
    straight_types(kind.variables.as_slice())
        && straight_value(kind.result)
        && straight_statements(kind.body.as_slice())
}

fn straight_kinds(kinds: &[Kind]) -> bool
    ensures { result ≡ list_all is_straight_kind kinds.now }
{
    for kind in kinds {
        if !straight_kind(kind) {
            return false;
        }
    }
    true
}

fn straight_transactions(transactions: &[Transaction]) -> bool
    ensures { result ≡ list_all is_straight_transaction transactions.now }
{
    for t in transactions {
        if !(straight_types(t.parameters.as_slice()) && straight_value(t.value)) {
            return false;
        }
    }
    true
}

fn straight_site(site: &Site) -> bool
    ensures { result ≡ is_straight_site site.now }
{
    site.such_that.is_none() && site.least_by.is_none() && site.environment.is_empty()
}

fn straight_sites(sites: &[Site]) -> bool
    ensures { result ≡ list_all is_straight_site sites.now }
{
    for site in sites {
        if !straight_site(site) {
            return false;
        }
    }
    true
}

impl Program {
    /// Whether it has no arithmetic, branches, loops, functions and clauses of an accept.
    pub fn is_straight(&self) -> bool
        ensures straight { result ≡ is_straight_program self.now }
    {
        straight_kinds(self.kinds.as_slice())
            && straight_transactions(self.transactions.as_slice())
            && straight_sites(self.sites.as_slice())
            && self.functions.is_empty()
    }
}
