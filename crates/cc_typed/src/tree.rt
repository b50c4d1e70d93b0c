ghost use Rattle.std.specs.Prelude.{◌≡◌};
ghost use Rattle.cc_typed.specs.Types.{type_after, type_after_step, type_of};

use crate::types::DataType;
use cc_base::{Comparison, NumberType, Operator};
use sqlite_items::{Boxed, Items};

/// `++` or `--`.
#[derive(Clone, Copy, Debug, Drop, PartialEq, Eq)]
pub enum Change {
    Up,
    Down,
}

/// A step from a value to a part of it, with the type of the part.
#[cycle(expressions)]
#[derive(Drop)]
pub enum PartStep {
    /// `.f`, by the number of the field.
    Field {
        field: u32,
        data_type: DataType,
    },
    /// `[i]`.
    Element {
        index: Expression,
        data_type: DataType,
    },
}

/// A place that keeps a value: a variable with its type, and the steps from it to a part of it, which has the last type. A
/// variable's number counts the parameters, variables and accepts' parameters of the function or body, from 0, in the order
/// declared.
#[cycle(expressions)]
#[derive(Drop)]
pub struct Location {
    pub variable: u32,
    pub of: DataType,
    pub steps: Items<PartStep>,
    pub data_type: DataType,
}

/// A step from a value to what stands after it in a chain such as `p.t(x).f[i]`.
#[cycle(expressions)]
#[derive(Drop)]
pub enum ChainStep {
    /// `.f` or `[i]`, of a value that is no place.
    Part {
        step: PartStep,
    },
    /// `.t(args)` of a synchronous transaction.
    Call {
        transaction: u32,
        args: Items<Argument>,
        data_type: DataType,
    },
    /// `.t(args)` of an asynchronous transaction.
    Send {
        transaction: u32,
        args: Items<Argument>,
    },
}

/// An expression, with its type where that is not plain.
#[cycle(expressions)]
#[derive(Drop)]
pub enum Expression {
    /// A number, a character or an enumeration constant.
    Constant {
        value: i64,
        number_type: NumberType,
    },
    /// `getchar()`.
    GetChar,
    /// The value of a place.
    Read {
        from: Location,
    },
    /// An expression with steps that go on from it: calls, and parts of values that are no places. It has the type after the
    /// last step.
    Chain {
        first: Boxed<Expression>,
        steps: Items<ChainStep>,
        data_type: DataType,
    },
    /// `-e`.
    Negate {
        operand: Boxed<Expression>,
        number_type: NumberType,
    },
    /// `!e`.
    Not {
        operand: Boxed<Expression>,
    },
    /// `+e`.
    Plus {
        operand: Boxed<Expression>,
        number_type: NumberType,
    },
    /// `(e)`.
    Parenthesized {
        operand: Boxed<Expression>,
        data_type: DataType,
    },
    /// `++e`, `--e`.
    ChangeBefore {
        at: Location,
        change: Change,
    },
    /// `e++`, `e--`.
    ChangeAfter {
        at: Location,
        change: Change,
    },
    /// `a + b - c` and so on: operations in a row, which group from the left.
    Arithmetic {
        first: Boxed<Expression>,
        rest: Items<Operation>,
        number_type: NumberType,
    },
    /// `a < b` and so on: comparisons in a row, which group from the left.
    Compare {
        first: Boxed<Expression>,
        rest: Items<Compared>,
    },
    /// `a && b` and so on, in a row.
    Both {
        first: Boxed<Expression>,
        rest: Items<Expression>,
    },
    /// `a || b` and so on, in a row.
    Either {
        first: Boxed<Expression>,
        rest: Items<Expression>,
    },
    /// `c ? x : y`.
    Choose {
        condition: Boxed<Expression>,
        yes: Boxed<Expression>,
        no: Boxed<Expression>,
        data_type: DataType,
    },
    /// `a = b`.
    Assign {
        to: Location,
        value: Boxed<Expression>,
    },
    /// `a op= b`.
    Update {
        to: Location,
        operator: Operator,
        value: Boxed<Expression>,
    },
    /// `f(args)`.
    CallFunction {
        function: u32,
        args: Items<Argument>,
        data_type: DataType,
    },
    /// `create T(args)`.
    CreateProcess {
        kind: u32,
        args: Items<Argument>,
    },
    /// `within d ? p.t(args) : e`.
    Within {
        wait: Boxed<Expression>,
        process: Boxed<Expression>,
        transaction: u32,
        args: Items<Argument>,
        otherwise: Boxed<Expression>,
        data_type: DataType,
    },
    /// `putchar(e)`.
    PutChar {
        value: Boxed<Expression>,
    },
    /// `printf`, by the number of its format.
    PrintFormat {
        format: u32,
        args: Items<Expression>,
    },
}

/// One operation of a row: what stands left of it is its left operand. It has the type of its result.
#[cycle(expressions)]
#[derive(Drop)]
pub struct Operation {
    pub operator: Operator,
    pub operand: Expression,
    pub number_type: NumberType,
}

/// One comparison of a row, with its right operand.
#[cycle(expressions)]
#[derive(Drop)]
pub struct Compared {
    pub comparison: Comparison,
    pub operand: Expression,
}

/// An argument, and the type of its parameter, to which it is converted.
#[cycle(expressions)]
#[derive(Drop)]
pub struct Argument {
    pub value: Expression,
    pub data_type: DataType,
}

impl PartStep {
    /// The type of the part.
    #[tactic(auto, using(crate::proofs::PhraseTypes::types_of_phrases))]
    pub fn data_type(&self) -> DataType
        ensures type_after { result ≡ type_after self.now }
    {
        match self {
            PartStep::Field { data_type, .. } => *data_type,
            PartStep::Element { data_type, .. } => *data_type,
        }
    }
}

impl ChainStep {
    /// The type of what stands after it.
    #[tactic(auto, using(crate::proofs::PhraseTypes::types_of_phrases))]
    pub fn data_type(&self) -> DataType
        ensures type_after { result ≡ type_after_step self.now }
    {
        match self {
            ChainStep::Part { step } => step.data_type(),
            ChainStep::Call { data_type, .. } => *data_type,
            ChainStep::Send { .. } => DataType::Void,
        }
    }
}

impl Expression {
    /// Its type, which it has or which follows from the phrase alone.
    #[tactic(auto, using(crate::proofs::PhraseTypes::types_of_phrases))]
    pub fn data_type(&self) -> DataType
        ensures type_of { result ≡ type_of self.now }
    {
        match self {
            Expression::Constant { number_type, .. } => DataType::number(*number_type),
            Expression::Read { from } => from.data_type,
            Expression::Chain { data_type, .. } => *data_type,
            Expression::Negate { number_type, .. } => DataType::number(*number_type),
            Expression::Plus { number_type, .. } => DataType::number(*number_type),
            Expression::Parenthesized { data_type, .. } => *data_type,
            Expression::ChangeBefore { at, .. } => at.data_type,
            Expression::ChangeAfter { at, .. } => at.data_type,
            Expression::Arithmetic { number_type, .. } => DataType::number(*number_type),
            Expression::Choose { data_type, .. } => *data_type,
            Expression::Assign { to, .. } => to.data_type,
            Expression::Update { to, .. } => to.data_type,
            Expression::CallFunction { data_type, .. } => *data_type,
            Expression::Within { data_type, .. } => *data_type,
            Expression::CreateProcess { kind, .. } => DataType::process(*kind),
            Expression::GetChar => DataType::int(),
            Expression::Not { .. } => DataType::int(),
            Expression::Compare { .. } => DataType::int(),
            Expression::Both { .. } => DataType::int(),
            Expression::Either { .. } => DataType::int(),
            Expression::PutChar { .. } => DataType::int(),
            Expression::PrintFormat { .. } => DataType::int(),
        }
    }
}

/// A statement, or an entry of a block. A declaration of several variables is one entry for each.
#[cycle(statements)]
#[derive(Drop)]
pub enum Statement {
    /// `;`.
    Empty,
    /// An expression statement.
    Evaluate {
        expression: Expression,
    },
    /// A variable that is set to zero.
    Declare {
        variable: u32,
        data_type: DataType,
    },
    /// A variable with an initialiser.
    Initialize {
        variable: u32,
        data_type: DataType,
        value: Expression,
    },
    Block {
        entries: Items<Statement>,
    },
    If {
        condition: Expression,
        body: Boxed<Statement>,
    },
    IfElse {
        condition: Expression,
        yes: Boxed<Statement>,
        no: Boxed<Statement>,
    },
    While {
        condition: Expression,
        body: Boxed<Statement>,
    },
    DoWhile {
        body: Boxed<Statement>,
        condition: Expression,
    },
    For {
        first: Option<Expression>,
        condition: Option<Expression>,
        next: Option<Expression>,
        body: Boxed<Statement>,
    },
    Break,
    Continue,
    /// `return` in a function, with the function's type.
    Return {
        value: Option<Expression>,
        data_type: DataType,
    },
    /// `return` in `main` or a process body.
    Finish {
        value: Option<Expression>,
    },
    /// `treturn`, with the type of the transaction's value.
    TransactionReturn {
        value: Option<Expression>,
        data_type: DataType,
    },
    /// `delay e;`.
    Delay {
        wait: Expression,
    },
    Accept {
        part: AcceptPart,
    },
    Select {
        alternatives: Items<Alternative>,
    },
}

/// An accept: its site and its block.
#[cycle(statements)]
#[derive(Drop)]
pub struct AcceptPart {
    pub site: u32,
    pub block: Items<Statement>,
}

/// An alternative of a `select`.
#[cycle(statements)]
#[derive(Drop)]
pub struct Alternative {
    pub guard: Option<Expression>,
    pub choice: Choice,
    pub entries: Items<Statement>,
}

#[cycle(statements)]
#[derive(Drop)]
pub enum Choice {
    Accept { part: AcceptPart },
    Delay { wait: Expression },
    Immediate,
    Terminate,
}

/// A function: how many parameters it has, the types of its variables, which begin with the parameters, the type of its
/// value, and its body.
#[derive(Drop)]
pub struct Function {
    pub parameters: u32,
    pub variables: Items<DataType>,
    pub result: DataType,
    pub body: Items<Statement>,
}

/// A kind of process, of which `main` is the first: how many parameters it has, the types of its variables, which begin
/// with the parameters, the type that it is declared with, which is `void` for all but `main`, and its body.
#[derive(Drop)]
pub struct Kind {
    pub parameters: u32,
    pub variables: Items<DataType>,
    pub result: DataType,
    pub body: Items<Statement>,
}

/// A transaction of a kind of process.
#[derive(Drop)]
pub struct Transaction {
    pub kind: u32,
    pub is_async: bool,
    pub parameters: Items<DataType>,
    pub value: DataType,
}

/// An accept in the body of a kind: its transaction, the number of the first of its parameters (the number after the last
/// variable where it has none there), the variables, other than its parameters, that its clauses name, in the order of first
/// mention, and its clauses.
#[derive(Drop)]
pub struct Site {
    pub kind: u32,
    pub transaction: u32,
    pub first: u32,
    pub environment: Items<u32>,
    pub such_that: Option<Expression>,
    pub least_by: Option<Expression>,
}
