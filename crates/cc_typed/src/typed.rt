ghost use Rattle.std.specs.List.{list_all};
ghost use Rattle.std.specs.Prelude.{◌≡◌, ◌&&◌, ◌||◌, length, slice_get};
ghost use Rattle.cc_typed.specs.Checked.{around, parts_of};
ghost use Rattle.cc_typed.specs.Missing.{parameters_at};
ghost use Rattle.cc_base.specs.Numbers.{fits};
ghost use Rattle.cc_typed.specs.Parting.{is_field_of, is_of_type};
ghost use Rattle.cc_typed.specs.Typed.{function_parameters, is_called, is_constant, is_function, is_number, is_part_step, is_place as place, is_sent, is_timed, is_typed, is_typed_part, is_typed_step, kind_parameters, takes_numbers};
ghost use Rattle.cc_typed.specs.TypedLists.{arguments_typed, comparisons_typed, is_part_first, is_typed_location, operands_typed, operations_typed, parts_typed, steps_typed};
ghost use Rattle.cc_typed.specs.Types.{type_of};

use crate::formats::numbers_taken;
use crate::known::process_kind;
use crate::parts::ProgramParts;
use crate::tree::{Argument, ChainStep, Compared, Expression, Location, Operation, PartStep};
use crate::types::{
    DataType, arithmetic_type, assignable, choice_type, comparable, element_of, has_field,
    process_type_of, same_number, same_type,
};
use cc_base::NumberType;
use cc_base::arithmetic::wider;

/// Where a phrase stands.
#[derive(Clone, Copy)]
pub(crate) struct Context<'p> {
    pub parts: &'p ProgramParts,
    /// The types of the variables of the function or body.
    pub variables: &'p [DataType],
    /// The kind of process whose body it is; none in a function.
    pub kind: Option<usize>,
    /// The type of the function's value, or the one that the kind is declared with; none in a clause.
    pub result: Option<DataType>,
    /// The type of the value with which the accept replies in whose block it stands.
    pub replies: Option<DataType>,
    /// `break` has a loop to leave, within the same accept's block.
    pub may_break: bool,
    /// `continue` has a loop to go on with, within the same accept's block.
    pub may_continue: bool,
}

fn fits_int(value: i64) -> bool
    ensures { result ≡ fits 31 value }
{
    -2_147_483_648 <= value && value <= 2_147_483_647
}

fn fits_long(value: i64) -> bool
    ensures { result ≡ fits 63 value }
{
    -9_223_372_036_854_775_808 <= value && value <= 9_223_372_036_854_775_807
}

/// Whether a type has this constant.
fn constant_type(value: i64, t: NumberType) -> bool
    ensures { result ≡ is_constant t value }
{
    match t {
        NumberType::Char => false,
        NumberType::Int => fits_int(value),
        NumberType::Long => fits_long(value),
    }
}

/// Whether a step of a chain is one to a part.
#[tactic(auto, using(crate::proofs::Places::places))]
fn part_step(step: &ChainStep) -> bool
    ensures { result ≡ is_part_step step.now }
{
    match step {
        ChainStep::Part { .. } => true,
        ChainStep::Call { .. } => false,
        ChainStep::Send { .. } => false,
    }
}

/// Whether the first step is one to a part.
fn part_first(steps: &[ChainStep]) -> bool
    ensures { result ≡ is_part_first steps.now }
{
    match steps {
        [] => false,
        [step, ..] => part_step(step),
    }
}

/// Whether an expression is a place, also within parentheses.
#[tactic(auto, using(crate::proofs::Places::places))]
fn is_place(e: &Expression) -> bool
    ensures { result ≡ place e.now }
{
    match e {
        Expression::Read { .. } => true,
        Expression::Parenthesized { operand, .. } => is_place(operand.get()),
        Expression::Constant { .. }
        | Expression::GetChar
        | Expression::Chain { .. }
        | Expression::Negate { .. }
        | Expression::Not { .. }
        | Expression::Plus { .. }
        | Expression::ChangeBefore { .. }
        | Expression::ChangeAfter { .. }
        | Expression::Arithmetic { .. }
        | Expression::Compare { .. }
        | Expression::Both { .. }
        | Expression::Either { .. }
        | Expression::Choose { .. }
        | Expression::Assign { .. }
        | Expression::Update { .. }
        | Expression::CallFunction { .. }
        | Expression::CreateProcess { .. }
        | Expression::Within { .. }
        | Expression::PutChar { .. }
        | Expression::PrintFormat { .. } => false,
    }
}

impl<'p> Context<'p> {
    /// Whether the variable of this number has this type.
    pub(crate) fn variable_type(&self, number: u32, t: DataType) -> bool
        ensures { result ≡ is_of_type (slice_get self.now.variables.now number) t }
    {
        match self.variables.get(number as usize) {
            Some(found) => same_type(*found, t),
            None => false,
        }
    }

    /// The types of the parameters of a kind; none where it is not there.
    #[tactic(auto, using(crate::specs::Sequences::cuts))]
    fn kind_parameters(&self, kind: u32) -> &'p [DataType]
        ensures { result.now ≡ kind_parameters (slice_get (parts_of self.now.parts.now).kinds kind) }
    {
        let parts = self.parts;
        match parts.kinds.get(kind as usize) {
            Some(found) => {
                let types = found.variables.as_slice();
                &types[..(found.parameters as usize).min(types.len())]
            }
            None => &[],
        }
    }

    /// The types of the parameters of a function; none where it is not there.
    #[tactic(auto, using(crate::specs::Sequences::cuts))]
    fn function_parameters(&self, function: u32) -> &'p [DataType]
        ensures { result.now ≡ function_parameters (slice_get (parts_of self.now.parts.now).functions function) }
    {
        let parts = self.parts;
        match parts.functions.get(function as usize) {
            Some(found) => {
                let types = found.variables.as_slice();
                &types[..(found.parameters as usize).min(types.len())]
            }
            None => &[],
        }
    }

    /// The types of the parameters of a transaction; none where it is not there.
    pub(crate) fn transaction_parameters(&self, transaction: u32) -> &'p [DataType]
        ensures { result.now ≡ parameters_at (slice_get (parts_of self.now.parts.now).transactions transaction) }
    {
        let parts = self.parts;
        match parts.transactions.get(transaction as usize) {
            Some(found) => found.parameters.as_slice(),
            None => &[],
        }
    }

    /// Whether the function is there and its value has this type.
    fn function_type(&self, function: u32, t: DataType) -> bool
        ensures { result ≡ is_function (slice_get (parts_of self.now.parts.now).functions function) t }
    {
        match self.parts.functions.get(function as usize) {
            Some(found) => same_type(found.result, t),
            None => false,
        }
    }

    /// Whether it is a synchronous transaction of this process type, with a value of this type.
    fn called(&self, transaction: u32, process: DataType, t: DataType) -> bool
        ensures { result ≡ is_called (slice_get (parts_of self.now.parts.now).transactions transaction) process t }
    {
        match self.parts.transactions.get(transaction as usize) {
            Some(found) => !found.is_async
                && process_type_of(found.kind, process)
                && same_type(found.value, t),
            None => false,
        }
    }

    /// Whether the types of the parts of a timed call are right.
    fn timed(
        &self,
        transaction: u32,
        wait: DataType,
        process: DataType,
        otherwise: DataType,
        t: DataType,
    ) -> bool
        ensures { result ≡ is_timed (slice_get (parts_of self.now.parts.now).transactions transaction) wait process otherwise t }
    {
        arithmetic_type(wait) && self.called(transaction, process, t) && assignable(otherwise, t)
    }

    /// Whether it is an asynchronous transaction of this process type.
    fn sent(&self, transaction: u32, process: DataType) -> bool
        ensures { result ≡ is_sent (slice_get (parts_of self.now.parts.now).transactions transaction) process }
    {
        match self.parts.transactions.get(transaction as usize) {
            Some(found) => found.is_async && process_type_of(found.kind, process),
            None => false,
        }
    }

    /// Whether the format takes so many numbers.
    fn takes_numbers(&self, format: u32, count: usize) -> bool
        ensures { result ≡ takes_numbers (slice_get (parts_of self.now.parts.now).formats format) count }
    {
        match self.parts.formats.get(format as usize) {
            Some(found) => match numbers_taken(found.as_slice()) {
                Some(n) => n == count,
                None => false,
            },
            None => false,
        }
    }

    /// Whether a step leads from a value of this type to a part of it.
    #[cycle(typed_expressions)]
    #[tactic(auto, using(crate::proofs::TypedExpressions::typed_expressions))]
    fn typed_part(&self, t: DataType, step: &PartStep) -> bool
        ensures { result ≡ is_typed_part (around self.now) t step.now }
    {
        match step {
            PartStep::Field { field, data_type } => has_field(
                self.parts.structures.as_slice(),
                t,
                *field,
                *data_type,
            ),
            PartStep::Element { index, data_type } => element_of(t, *data_type)
                && self.typed_expression(index)
                && arithmetic_type(index.data_type()),
        }
    }

    /// Whether a place is typed.
    #[cycle(typed_expressions)]
    #[tactic(auto, using(crate::proofs::TypedExpressions::typed_expressions))]
    fn typed_place(&self, place: &Location) -> bool
        ensures { result ≡ is_typed_location (around self.now) place.now }
    {
        if !self.variable_type(place.variable, place.of) {
            return false;
        }
        let mut t = place.of;
        for step in place.steps.as_slice() {
            if !self.typed_part(t, step) {
                return false;
            }
            t = step.data_type();
        }
        same_type(t, place.data_type)
    }

    /// Whether a step goes on from a value of this type.
    #[cycle(typed_expressions)]
    #[tactic(auto, using(crate::proofs::TypedExpressions::typed_expressions))]
    fn typed_step(&self, t: DataType, step: &ChainStep) -> bool
        ensures { result ≡ is_typed_step (around self.now) t step.now }
    {
        match step {
            ChainStep::Part { step } => self.typed_part(t, step),
            ChainStep::Call {
                transaction,
                args,
                data_type,
            } => self.called(*transaction, t, *data_type)
                && self.typed_arguments(args.as_slice(), self.transaction_parameters(*transaction)),
            ChainStep::Send { transaction, args } => self.sent(*transaction, t)
                && self.typed_arguments(args.as_slice(), self.transaction_parameters(*transaction)),
        }
    }

    /// Whether steps go on from a value of one type to one of another.
    #[cycle(typed_expressions)]
    #[tactic(auto, using(crate::proofs::TypedExpressions::typed_expressions))]
    fn typed_steps(&self, first: DataType, steps: &[ChainStep], last: DataType) -> bool
        ensures { result ≡ steps_typed (around self.now) first steps.now last }
    {
        let mut t = first;
        for step in steps {
            if !self.typed_step(t, step) {
                return false;
            }
            t = step.data_type();
        }
        same_type(t, last)
    }

    /// Whether an expression is typed.
    #[cycle(typed_expressions)]
    #[tactic(auto, using(crate::proofs::TypedExpressions::typed_expressions))]
    pub(crate) fn typed_expression(&self, e: &Expression) -> bool
        ensures { result ≡ is_typed (around self.now) e.now }
    {
        match e {
            Expression::Constant { value, number_type } => constant_type(*value, *number_type),
            Expression::GetChar => true,
            Expression::Read { from } => self.typed_place(from),
            Expression::Chain {
                first,
                steps,
                data_type,
            } => !(is_place(first.get()) && part_first(steps.as_slice()))
                && self.typed_expression(first.get())
                && self.typed_steps(first.get().data_type(), steps.as_slice(), *data_type),
            Expression::Negate {
                operand,
                number_type,
            } => self.typed_expression(operand.get())
                && arithmetic_type(operand.get().data_type())
                && same_number(
                    wider(operand.get().data_type().number_type(), NumberType::Int),
                    *number_type,
                ),
            Expression::Not { operand } => self.typed_expression(operand.get())
                && arithmetic_type(operand.get().data_type()),
            Expression::Plus {
                operand,
                number_type,
            } => self.typed_expression(operand.get())
                && arithmetic_type(operand.get().data_type())
                && same_number(
                    wider(operand.get().data_type().number_type(), NumberType::Int),
                    *number_type,
                ),
            Expression::Parenthesized { operand, data_type } => self.typed_expression(operand.get())
                && same_type(operand.get().data_type(), *data_type),
            Expression::ChangeBefore { at, .. } => self.typed_place(at)
                && arithmetic_type(at.data_type),
            Expression::ChangeAfter { at, .. } => self.typed_place(at)
                && arithmetic_type(at.data_type),
            Expression::Arithmetic {
                first,
                rest,
                number_type,
            } => self.typed_expression(first.get())
                && arithmetic_type(first.get().data_type())
                && self.typed_operations(
                    first.get().data_type().number_type(),
                    rest.as_slice(),
                    *number_type,
                ),
            Expression::Compare { first, rest } => self.typed_expression(first.get())
                && self.typed_comparisons(first.get().data_type(), rest.as_slice()),
            Expression::Both { first, rest } => self.typed_expression(first.get())
                && arithmetic_type(first.get().data_type())
                && self.typed_operands(first.get().data_type(), rest.as_slice()),
            Expression::Either { first, rest } => self.typed_expression(first.get())
                && arithmetic_type(first.get().data_type())
                && self.typed_operands(first.get().data_type(), rest.as_slice()),
            Expression::Choose {
                condition,
                yes,
                no,
                data_type,
            } => self.typed_expression(condition.get())
                && arithmetic_type(condition.get().data_type())
                && self.typed_expression(yes.get())
                && self.typed_expression(no.get())
                && choice_type(yes.get().data_type(), no.get().data_type(), *data_type),
            Expression::Assign { to, value } => self.typed_place(to)
                && self.typed_expression(value.get())
                && assignable(value.get().data_type(), to.data_type),
            Expression::Update { to, value, .. } => self.typed_place(to)
                && arithmetic_type(to.data_type)
                && self.typed_expression(value.get())
                && arithmetic_type(value.get().data_type()),
            Expression::CallFunction {
                function,
                args,
                data_type,
            } => self.function_type(*function, *data_type)
                && self.typed_arguments(args.as_slice(), self.function_parameters(*function)),
            Expression::CreateProcess { kind, args } => process_kind(self.parts, *kind)
                && self.typed_arguments(args.as_slice(), self.kind_parameters(*kind)),
            Expression::Within {
                wait,
                process,
                transaction,
                args,
                otherwise,
                data_type,
            } => self.timed(
                *transaction,
                wait.get().data_type(),
                process.get().data_type(),
                otherwise.get().data_type(),
                *data_type,
            ) && self.typed_expression(wait.get())
                && self.typed_expression(process.get())
                && self.typed_arguments(args.as_slice(), self.transaction_parameters(*transaction))
                && self.typed_expression(otherwise.get()),
            Expression::PutChar { value } => self.typed_expression(value.get())
                && arithmetic_type(value.get().data_type()),
            Expression::PrintFormat { format, args } => self.takes_numbers(*format, args.len())
                && self.typed_numbers(args.as_slice()),
        }
    }

    /// Whether there is a typed argument for each parameter, converted to its type.
    #[cycle(typed_expressions)]
    #[tactic(auto, using(crate::proofs::TypedExpressions::typed_expressions))]
    fn typed_arguments(&self, args: &[Argument], types: &[DataType]) -> bool
        ensures { result ≡ arguments_typed (around self.now) args.now types.now }
    {
        if args.len() != types.len() {
            return false;
        }
        for at in 0..args.len() {
            let arg = &args[at];
            let parameter = types[at];
            let fits = self.typed_expression(&arg.value)
                && assignable(arg.value.data_type(), arg.data_type)
                && same_type(parameter, arg.data_type);
            if !fits {
                return false;
            }
        }
        true
    }

    /// Whether operations in a row are typed, after a value of one type and with a result of another.
    #[cycle(typed_expressions)]
    #[tactic(auto, using(crate::proofs::TypedExpressions::typed_expressions))]
    fn typed_operations(&self, first: NumberType, rest: &[Operation], last: NumberType) -> bool
        ensures { result ≡ operations_typed (around self.now) first rest.now last }
    {
        let mut left = first;
        for operation in rest {
            let operand = operation.operand.data_type();
            let fits = self.typed_expression(&operation.operand)
                && arithmetic_type(operand)
                && same_number(wider(left, operand.number_type()), operation.number_type);
            if !fits {
                return false;
            }
            left = operation.number_type;
        }
        same_number(left, last) && !same_number(last, NumberType::Char)
    }

    /// Whether comparisons in a row are typed, after a value of this type.
    #[cycle(typed_expressions)]
    #[tactic(auto, using(crate::proofs::TypedExpressions::typed_expressions))]
    fn typed_comparisons(&self, first: DataType, rest: &[Compared]) -> bool
        ensures { result ≡ comparisons_typed (around self.now) first rest.now }
    {
        let mut left = first;
        for compared in rest {
            let fits = self.typed_expression(&compared.operand)
                && comparable(compared.comparison, left, compared.operand.data_type());
            if !fits {
                return false;
            }
            left = DataType::int();
        }
        same_type(left, DataType::int())
    }

    /// Whether the operands of `&&` or `||` are typed, after one of this type.
    #[cycle(typed_expressions)]
    #[tactic(auto, using(crate::proofs::TypedExpressions::typed_expressions))]
    fn typed_operands(&self, first: DataType, rest: &[Expression]) -> bool
        ensures { result ≡ operands_typed (around self.now) first rest.now }
    {
        let mut left = first;
        for e in rest {
            if !(self.typed_expression(e) && arithmetic_type(e.data_type())) {
                return false;
            }
            left = DataType::int();
        }
        same_type(left, DataType::int())
    }

    /// Whether each is typed and of an arithmetic type.
    #[cycle(typed_expressions)]
    #[tactic(auto, using(crate::proofs::TypedExpressions::typed_expressions))]
    fn typed_numbers(&self, args: &[Expression]) -> bool
        ensures { result ≡ list_all (is_number (around self.now)) args.now }
    {
        for e in args {
            if !(self.typed_expression(e) && arithmetic_type(e.data_type())) {
                return false;
            }
        }
        true
    }
}
