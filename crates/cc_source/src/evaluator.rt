ghost use Rattle.std.specs.List.{list_all};
ghost use Rattle.std.specs.Option.{option_copied};
ghost use Rattle.std.specs.Prelude.{◌≡◌, true, get_or, length, pos, replicate, set, slice_get, IfOk};
ghost use Rattle.cc_base.specs.Granted.{process_made};
ghost use Rattle.cc_base.specs.Numbers.{callee, converted};
ghost use Rattle.cc_base.specs.Outcome.{ask};
ghost use Rattle.cc_source.specs.Gives.{GivesBy, IfValue, fitted, Stands, around, caller, is_typed_argument, left, scope, size, structures_of, value};
ghost use Rattle.cc_source.specs.Lists.{answer_value, assigned, byte_put, called_value, cells_given, created, process_from, value_after};
ghost use Rattle.cc_source.specs.Meaning.{converted_value, eval, step_from, value_at, value_in, zero_in};
ghost use Rattle.cc_source.specs.Straight.{is_straight, is_straight_argument, is_straight_location, is_straight_step};
ghost use Rattle.cc_typed.specs.Parting.{is_of_type};
ghost use Rattle.cc_typed.specs.Table.{is_table};
ghost use Rattle.cc_typed.specs.Typed.{is_typed, is_typed_step};
ghost use Rattle.cc_typed.specs.TypedLists.{is_typed_location, steps_typed};
ghost use Rattle.cc_typed.specs.Types.{Int, is_arithmetic, is_assignable, number_in, of_process, type_after_step, type_of};

use crate::cells::{append, fitted, items_from, number_of, one_cell, zeros};
use crate::program::Program;
use crate::run::{Run, Unfinished};
use cc_base::limits::TICKS_GRANTED;
use cc_base::{Bytes, Cells, FaultKind, Grant, Pid, Request, arithmetic};
use cc_typed::{Argument, ChainStep, DataType, Expression, Location, cells_in};
use sqlite_items::Items;
use std::alloc::Global;

/// What evaluates the phrases of one body on cells: the program, the types of the body's variables, where the phrases stand,
/// how many more calls may be active, and how many cells the active variables have.
#[derive(Drop)]
pub(crate) struct Evaluator<'p> {
    pub alloc: Global,
    pub program: &'p Program,
    pub variables: &'p [DataType],
    /// The kind of process in whose body they stand.
    pub kind: Option<u32>,
    /// The type of the function, or of `main`.
    pub result: Option<DataType>,
    /// The type of the value with which the accept replies in whose block they stand.
    pub replies: Option<DataType>,
    pub calls: u32,
    pub cells: usize,
}

impl Evaluator<'_> {
    /// The grant that answers the request, where one is left. The variables stay.
    pub(crate) fn ask<'g>(
        &self,
        run: &mut Run<'g>,
        request: Request,
    ) -> Result<&'g Grant, Unfinished>
        ensures gives { GivesBy (λ g. g.now) self.now result run.new (ask request (scope self.now run.old) (left run.old)) }
        ensures scope { run.new.scope ≡ run.old.scope }
    {
        match run.grants.split_first() {
            None => Err(Unfinished::Asked(request)),
            Some((first, rest)) => {
                run.grants = rest;
                run.ticks = TICKS_GRANTED;
                Ok(first)
            }
        }
    }

    /// The zero of a type.
    #[tactic(auto, using(crate::proofs::Evaluations::zeros))]
    pub(crate) fn zero(&self, data_type: DataType) -> Result<Items<i64>, Unfinished>
        requires table { is_table (structures_of self.now) ≡ true }
        ensures cells { IfValue result (λ cs. cs ≡ replicate (size self.now data_type) (pos 0)) }
        ensures value { IfValue result (λ cs. value self.now data_type cs ≡ zero_in self.now.program.now data_type) }
        ensures size { IfOk result (λ cs. length cs ≡ size self.now data_type) }
    {
        let program = self.program;
        let count = cells_in(program.structures.as_slice(), data_type);
        Ok(zeros(self.alloc, count)?)
    }

    /// The value of a type that has these cells, as many as the type has.
    #[tactic(auto, using(crate::proofs::Evaluations::fits))]
    pub(crate) fn fit(&self, data_type: DataType, cells: &[i64]) -> Result<Items<i64>, Unfinished>
        requires table { is_table (structures_of self.now) ≡ true }
        ensures cells { IfValue result (λ cs. cs ≡ fitted (size self.now data_type) cells.now) }
        ensures value { IfValue result (λ cs. value self.now data_type cs ≡ value_in self.now.program.now data_type cells.now) }
        ensures size { IfOk result (λ cs. length cs ≡ size self.now data_type) }
    {
        let program = self.program;
        let count = cells_in(program.structures.as_slice(), data_type);
        Ok(fitted(self.alloc, cells, count)?)
    }

    /// The value of a variable of this type.
    #[tactic(auto, using(crate::proofs::Scopes::scopes))]
    pub(crate) fn variable(
        &self,
        run: &Run<'_>,
        number: u32,
        data_type: DataType,
    ) -> Result<Items<i64>, Unfinished>
        requires stands { Stands self.now run.now }
        requires typed { is_of_type (slice_get self.now.variables.now number) data_type ≡ true }
        ensures value { IfValue result (λ cs. value self.now data_type cs ≡ value_at (scope self.now run.now) number) }
        ensures size { IfOk result (λ cs. length cs ≡ size self.now data_type) }
    {
        let _ = data_type;
        match run.scope.get(number as usize) {
            Some(cells) => Ok(Items::from_slice(self.alloc, cells.as_slice())?),
            None => unreachable!(),
        }
    }

    /// Sets a variable of this type.
    #[tactic(auto, using(crate::proofs::Scopes::scopes))]
    pub(crate) fn set(&self, run: &mut Run<'_>, number: usize, data_type: DataType, new: Items<i64>)
        requires stands { Stands self.now run.old }
        requires typed { is_of_type (slice_get self.now.variables.now number) data_type ≡ true }
        requires size { length new ≡ size self.now data_type }
        ensures scope { scope self.now run.new ≡ set (scope self.now run.old) number (value self.now data_type new) }
        ensures left { left run.new ≡ left run.old }
        ensures stands { Stands self.now run.new }
    {
        let _ = data_type;
        if number < run.scope.len() {
            run.scope.set(number, new);
        }
    }

    /// A value of the first type as one of the second, to which it may be assigned.
    #[tactic(auto, using(crate::proofs::Conversions::conversions))]
    pub(crate) fn convert(
        &self,
        run: &Run<'_>,
        from: DataType,
        to: DataType,
        cells: Items<i64>,
    ) -> Result<Items<i64>, Unfinished>
        requires assignable { is_assignable from to ≡ true }
        requires size { length cells ≡ size self.now from }
        ensures value { GivesBy (value self.now to) self.now result run.now (converted_value from to (value self.now from cells) (scope self.now run.now) (left run.now)) }
        ensures size { IfOk result (λ cs. length cs ≡ size self.now to) }
    {
        if from.is_arithmetic() {
            self.convert_number(run, from, to, cells.as_slice())
        } else {
            Ok(cells)
        }
    }

    /// The same of a number.
    #[tactic(auto, using(crate::proofs::Conversions::conversions))]
    fn convert_number(
        &self,
        run: &Run<'_>,
        from: DataType,
        to: DataType,
        cells: &[i64],
    ) -> Result<Items<i64>, Unfinished>
        requires arithmetic { is_arithmetic from ≡ true }
        requires assignable { is_assignable from to ≡ true }
        ensures value { GivesBy (value self.now to) self.now result run.now (converted_value from to (value self.now from cells.now) (scope self.now run.now) (left run.now)) }
        ensures size { IfOk result (λ cs. length cs ≡ size self.now to) }
    {
        let _ = run;
        match converted(from, to, cells) {
            Ok(number) => Ok(one_cell(self.alloc, number)?),
            Err(kind) => Err(Unfinished::Asked(Request::Fault { kind })),
        }
    }

    /// The value of an expression.
    #[cycle(expressions)]
    #[tactic(auto, using(crate::proofs::Evaluations::evaluating, crate::proofs::Weights::weighs, crate::proofs::Means::means, crate::proofs::Straight::straight_expressions, cc_typed::proofs::TypedExpressions::typed_expressions, cc_typed::proofs::PhraseTypes::types_of_phrases, crate::proofs::Conversions::cells_of_types))]
    pub(crate) fn expression(
        &self,
        run: &mut Run<'_>,
        e: &Expression,
    ) -> Result<Items<i64>, Unfinished>
        requires table { is_table (structures_of self.now) ≡ true }
        requires stands { Stands self.now run.old }
        requires straight { is_straight e.now ≡ true }
        requires typed { is_typed (around self.now) e.now ≡ true }
        ensures value { GivesBy (value self.now (type_of e.now)) self.now result run.new (eval self.now.program.now (caller self.now) e.now (scope self.now run.old) (left run.old)) }
        ensures size { IfOk result (λ cs. length cs ≡ size self.now (type_of e.now)) }
        ensures stands { IfOk result (λ cs. Stands self.now run.new) }
    {
        match e {
            Expression::Constant { value, .. } => Ok(one_cell(self.alloc, *value)?),
            Expression::Read { from } => self.variable(run, from.variable, from.data_type),
            Expression::Parenthesized { operand, .. } => self.expression(run, operand.get()),
            Expression::Chain {
                first,
                steps,
                data_type,
            } => {
                let cells = self.expression(run, first.get())?;
                self.along(
                    run,
                    first.get().data_type(),
                    cells,
                    steps.as_slice(),
                    *data_type,
                )
            }
            Expression::Assign { to, value } => {
                let cells = self.expression(run, value.get())?;
                self.assign(run, to, value.get().data_type(), cells)
            }
            Expression::CreateProcess { kind, args } => self.create(run, *kind, args.as_slice()),
            Expression::PutChar { value } => {
                let cells = self.expression(run, value.get())?;
                self.put_byte(run, number_of(cells.as_slice()))
            }
            Expression::GetChar
            | Expression::Negate { .. }
            | Expression::Not { .. }
            | Expression::Plus { .. }
            | Expression::ChangeBefore { .. }
            | Expression::ChangeAfter { .. }
            | Expression::Arithmetic { .. }
            | Expression::Compare { .. }
            | Expression::Both { .. }
            | Expression::Either { .. }
            | Expression::Choose { .. }
            | Expression::Update { .. }
            | Expression::CallFunction { .. }
            | Expression::Within { .. }
            | Expression::PrintFormat { .. } => unreachable!(),
        }
    }

    /// The value after steps from a value of this type.
    #[cycle(expressions)]
    #[tactic(auto, using(crate::proofs::Evaluations::in_order, crate::proofs::Weights::weighs, crate::proofs::Means::means))]
    fn along(
        &self,
        run: &mut Run<'_>,
        from: DataType,
        whole: Items<i64>,
        steps: &[ChainStep],
        to: DataType,
    ) -> Result<Items<i64>, Unfinished>
        requires table { is_table (structures_of self.now) ≡ true }
        requires stands { Stands self.now run.old }
        requires straight { list_all is_straight_step steps.now ≡ true }
        requires typed { steps_typed (around self.now) from steps.now to ≡ true }
        requires size { length whole ≡ size self.now from }
        ensures value { GivesBy (value self.now to) self.now result run.new (value_after self.now.program.now (caller self.now) from (value self.now from whole) steps.now (scope self.now run.old) (left run.old)) }
        ensures size { IfOk result (λ cs. length cs ≡ size self.now to) }
        ensures stands { IfOk result (λ cs. Stands self.now run.new) }
    {
        let _ = to;
        let mut data_type = from;
        let mut cells = whole;
        for step in steps {
            cells = self.step(run, data_type, cells.as_slice(), step)?;
            data_type = step.data_type();
        }
        Ok(cells)
    }

    /// The value after a step from a value of this type.
    #[cycle(expressions)]
    #[tactic(auto, using(crate::proofs::Evaluations::evaluating, crate::proofs::Weights::weighs, crate::proofs::Means::means, crate::proofs::Straight::straight_expressions, cc_typed::proofs::TypedExpressions::typed_expressions, cc_typed::proofs::PhraseTypes::types_of_phrases, crate::proofs::Conversions::cells_of_types))]
    fn step(
        &self,
        run: &mut Run<'_>,
        from: DataType,
        whole: &[i64],
        step: &ChainStep,
    ) -> Result<Items<i64>, Unfinished>
        requires table { is_table (structures_of self.now) ≡ true }
        requires stands { Stands self.now run.old }
        requires straight { is_straight_step step.now ≡ true }
        requires typed { is_typed_step (around self.now) from step.now ≡ true }
        ensures value { GivesBy (value self.now (type_after_step step.now)) self.now result run.new (step_from self.now.program.now (caller self.now) from (value self.now from whole.now) step.now (scope self.now run.old) (left run.old)) }
        ensures size { IfOk result (λ cs. length cs ≡ size self.now (type_after_step step.now)) }
        ensures stands { IfOk result (λ cs. Stands self.now run.new) }
    {
        let _ = from;
        match step {
            ChainStep::Call {
                transaction,
                args,
                data_type,
            } => {
                let args = self.arguments(run, args.as_slice())?;
                self.transact(run, *transaction, whole, args, *data_type)
            }
            ChainStep::Part { .. } => unreachable!(),
            ChainStep::Send { .. } => unreachable!(),
        }
    }

    /// The cells of arguments, from the left, each converted to the type of its parameter.
    #[cycle(expressions)]
    #[tactic(auto, using(crate::proofs::Evaluations::arguing, crate::proofs::Weights::weighs, crate::proofs::Conversions::cells_of_types))]
    fn arguments(&self, run: &mut Run<'_>, args: &[Argument]) -> Result<Cells, Unfinished>
        requires table { is_table (structures_of self.now) ≡ true }
        requires stands { Stands self.now run.old }
        requires straight { list_all is_straight_argument args.now ≡ true }
        requires typed { list_all (is_typed_argument (around self.now)) args.now ≡ true }
        ensures cells { GivesBy (λ cs. cs) self.now result run.new (cells_given self.now.program.now (caller self.now) args.now (scope self.now run.old) (left run.old)) }
        ensures stands { IfOk result (λ cs. Stands self.now run.new) }
    {
        let mut all = Cells::new(self.alloc);
        for arg in args {
            let cells = self.expression(run, &arg.value)?;
            let cells = self.convert(run, arg.value.data_type(), arg.data_type, cells)?;
            append(&mut all, cells.as_slice())?;
        }
        Ok(all)
    }

    /// A synchronous call of the process that these cells name, of a transaction with a value of this type.
    #[tactic(auto, using(crate::proofs::Evaluations::calling))]
    fn transact(
        &self,
        run: &mut Run<'_>,
        transaction: u32,
        process: &[i64],
        args: Cells,
        data_type: DataType,
    ) -> Result<Items<i64>, Unfinished>
        requires table { is_table (structures_of self.now) ≡ true }
        ensures value { GivesBy (value self.now data_type) self.now result run.new (called_value self.now.program.now transaction data_type (get_or process.now 0 (pos 0)) args (scope self.now run.old) (left run.old)) }
        ensures size { IfOk result (λ cs. length cs ≡ size self.now data_type) }
        ensures scope { run.new.scope ≡ run.old.scope }
    {
        match callee(process) {
            Ok(target) => {
                let trans = transaction;
                let grant = self.ask(
                    run,
                    Request::Call {
                        target,
                        trans,
                        args,
                    },
                )?;
                self.call_value(run, data_type, grant)
            }
            Err(kind) => Err(Unfinished::Asked(Request::Fault { kind })),
        }
    }

    /// The value with which a call was answered.
    #[tactic(auto, using(crate::proofs::Evaluations::calling))]
    fn call_value(
        &self,
        run: &Run<'_>,
        data_type: DataType,
        grant: &Grant,
    ) -> Result<Items<i64>, Unfinished>
        requires table { is_table (structures_of self.now) ≡ true }
        ensures value { GivesBy (value self.now data_type) self.now result run.now (answer_value self.now.program.now data_type grant.now (scope self.now run.now) (left run.now)) }
        ensures size { IfOk result (λ cs. length cs ≡ size self.now data_type) }
    {
        let _ = run;
        match grant {
            Grant::Value(cells) => {
                let cells = items_from(self.alloc, cells)?;
                self.fit(data_type, cells.as_slice())
            }
            Grant::Gone => Err(Unfinished::Asked(Request::Fault {
                kind: FaultKind::CalleeGone,
            })),
            Grant::Go => self.zero(data_type),
            Grant::Made(_) => self.zero(data_type),
            Grant::Late => self.zero(data_type),
            Grant::Took { .. } => self.zero(data_type),
            Grant::Chose { .. } => self.zero(data_type),
            Grant::Byte(_) => self.zero(data_type),
        }
    }

    /// Stores a value in the variable that a place is, converted to its type.
    #[tactic(auto, using(crate::proofs::Evaluations::assigning))]
    fn assign(
        &self,
        run: &mut Run<'_>,
        to: &Location,
        from: DataType,
        cells: Items<i64>,
    ) -> Result<Items<i64>, Unfinished>
        requires stands { Stands self.now run.old }
        requires straight { is_straight_location to.now ≡ true }
        requires typed { is_typed_location (around self.now) to.now ≡ true }
        requires assignable { is_assignable from to.now.data_type ≡ true }
        requires size { length cells ≡ size self.now from }
        ensures value { GivesBy (value self.now to.now.data_type) self.now result run.new (assigned from to.now.data_type to.now.variable (value self.now from cells) (scope self.now run.old) (left run.old)) }
        ensures size { IfOk result (λ cs. length cs ≡ size self.now to.now.data_type) }
        ensures stands { IfOk result (λ cs. Stands self.now run.new) }
    {
        let cells = self.convert(run, from, to.data_type, cells)?;
        let copy = Items::from_slice(self.alloc, cells.as_slice())?;
        self.set(run, to.variable as usize, to.data_type, cells);
        Ok(copy)
    }

    /// A new process of this kind, as a number.
    #[cycle(expressions)]
    #[tactic(auto, using(crate::proofs::Weights::weighs))]
    fn create(
        &self,
        run: &mut Run<'_>,
        kind: u32,
        args: &[Argument],
    ) -> Result<Items<i64>, Unfinished>
        requires table { is_table (structures_of self.now) ≡ true }
        requires stands { Stands self.now run.old }
        requires straight { list_all is_straight_argument args.now ≡ true }
        requires typed { list_all (is_typed_argument (around self.now)) args.now ≡ true }
        ensures value { GivesBy (value self.now (of_process kind)) self.now result run.new (created self.now.program.now (caller self.now) kind args.now (scope self.now run.old) (left run.old)) }
        ensures size { IfOk result (λ cs. length cs ≡ size self.now (of_process kind)) }
        ensures stands { IfOk result (λ cs. Stands self.now run.new) }
    {
        let args = self.arguments(run, args)?;
        self.create_with(run, kind, args)
    }

    /// A new process of this kind with these cells, as a number.
    #[tactic(auto, using(crate::proofs::Conversions::numbers_here))]
    fn create_with(
        &self,
        run: &mut Run<'_>,
        kind: u32,
        args: Cells,
    ) -> Result<Items<i64>, Unfinished>
        ensures value { GivesBy (value self.now (of_process kind)) self.now result run.new (process_from kind args (scope self.now run.old) (left run.old)) }
        ensures size { IfOk result (λ cs. length cs ≡ size self.now (of_process kind)) }
        ensures scope { run.new.scope ≡ run.old.scope }
    {
        let grant = self.ask(run, Request::Create { kind, args })?;
        Ok(one_cell(self.alloc, process_made(grant))?)
    }

    /// Prints a number as one byte.
    #[tactic(auto, using(crate::proofs::Conversions::numbers_here))]
    fn put_byte(&self, run: &mut Run<'_>, number: i64) -> Result<Items<i64>, Unfinished>
        requires stands { Stands self.now run.old }
        ensures value { GivesBy (value self.now Int) self.now result run.new (byte_put number (scope self.now run.old) (left run.old)) }
        ensures size { IfOk result (λ cs. length cs ≡ size self.now Int) }
        ensures stands { IfOk result (λ cs. Stands self.now run.new) }
    {
        let byte = arithmetic::byte_of(number);
        let bytes = Bytes::from_slice(self.alloc, &[byte])?;
        self.ask(run, Request::Print { bytes })?;
        Ok(one_cell(self.alloc, i64::from(byte))?)
    }
}

/// A number of the first type as one of the second.
#[tactic(auto, using(crate::proofs::Conversions::numbers))]
fn converted(from: DataType, to: DataType, cells: &[i64]) -> Result<i64, FaultKind>
    ensures number { result ≡ converted (number_in from) (number_in to) (get_or cells.now 0 (pos 0)) }
{
    arithmetic::convert(from.number_type(), to.number_type(), number_of(cells))
}

/// The process that these cells name.
#[tactic(auto, using(crate::proofs::Conversions::numbers))]
fn callee(cells: &[i64]) -> Result<Pid, FaultKind>
    ensures process { result ≡ callee (get_or cells.now 0 (pos 0)) }
{
    arithmetic::callee(number_of(cells))
}

/// The process that was made, as a number.
fn process_made(grant: &Grant) -> i64
    ensures number { result ≡ process_made grant.now }
{
    match grant {
        Grant::Made(pid) => arithmetic::number_of(*pid),
        Grant::Go
        | Grant::Value(_)
        | Grant::Late
        | Grant::Gone
        | Grant::Took { .. }
        | Grant::Chose { .. }
        | Grant::Byte(_) => 0,
    }
}
