//! The plain tree of a text: each name and each format has a number, and layers of the grammar without an operator are gone.

use cc_base::{Bytes, Comparison, NumberType, Operator, Place};
use sqlite_items::{Boxed, Items};

/// A name where it stands, by its number. Two names have one number exactly where their bytes are the same; `main` has 0.
#[derive(Clone, Copy, Debug, Drop, PartialEq, Eq)]
pub struct Identifier {
    pub place: Place,
    pub name: u32,
}

/// A string of `printf` where it stands, by its number among the formats of the text.
#[derive(Clone, Copy, Debug, Drop, PartialEq, Eq)]
pub struct Format {
    pub place: Place,
    pub number: u32,
}

/// `++` or `--`.
#[derive(Clone, Copy, Debug, Drop, PartialEq, Eq)]
pub enum StepWord {
    Up,
    Down,
}

/// An expression. A place is that of its first token, where no part of the expression tells it.
#[cycle(phrases)]
#[derive(Drop)]
pub enum Phrase {
    /// A number or a character.
    Number {
        place: Place,
        value: i64,
        number_type: NumberType,
    },
    /// A name without a call.
    Name(Identifier),
    /// `f(args)`.
    Call {
        name: Identifier,
        args: Items<Phrase>,
    },
    /// `create T(args)`.
    Create {
        place: Place,
        name: Identifier,
        args: Items<Phrase>,
    },
    PutChar {
        place: Place,
        value: Boxed<Phrase>,
    },
    GetChar(Place),
    PrintFormat {
        place: Place,
        format: Format,
        args: Items<Phrase>,
    },
    Parenthesized {
        place: Place,
        operand: Boxed<Phrase>,
    },
    /// An expression with `.name`, `[..]` and `.name(..)` behind it, of which there is at least one.
    Chain {
        first: Boxed<Phrase>,
        steps: Items<Step>,
    },
    /// `e++`, `e--`.
    StepAfter {
        target: Boxed<Phrase>,
        word: StepWord,
    },
    /// `++e`, `--e`.
    StepBefore {
        place: Place,
        word: StepWord,
        target: Boxed<Phrase>,
    },
    /// `-e`.
    Negate {
        place: Place,
        operand: Boxed<Phrase>,
    },
    /// `+e`.
    Plus {
        place: Place,
        operand: Boxed<Phrase>,
    },
    /// `!e`.
    Not {
        place: Place,
        operand: Boxed<Phrase>,
    },
    /// `a + b - c` and so on, which groups from the left.
    Arithmetic {
        first: Boxed<Phrase>,
        rest: Items<Operation>,
    },
    /// `a < b` and so on, which groups from the left.
    Compare {
        first: Boxed<Phrase>,
        rest: Items<Compared>,
    },
    /// `a && b` and so on.
    Both {
        first: Boxed<Phrase>,
        rest: Items<Phrase>,
    },
    /// `a || b` and so on.
    Either {
        first: Boxed<Phrase>,
        rest: Items<Phrase>,
    },
    /// `c ? x : y`.
    Choose {
        condition: Boxed<Phrase>,
        yes: Boxed<Phrase>,
        no: Boxed<Phrase>,
    },
    /// `a = b`.
    Assign {
        target: Boxed<Phrase>,
        value: Boxed<Phrase>,
    },
    /// `a += b` and so on.
    Update {
        target: Boxed<Phrase>,
        operator: Operator,
        value: Boxed<Phrase>,
    },
    /// `within wait ? middle : otherwise`.
    Within {
        place: Place,
        wait: Boxed<Phrase>,
        middle: Boxed<Phrase>,
        otherwise: Boxed<Phrase>,
    },
}

/// What stands behind an expression.
#[cycle(phrases)]
#[derive(Drop)]
pub enum Step {
    /// `.name`
    Field(Identifier),
    /// `.name(args)`
    Call {
        name: Identifier,
        args: Items<Phrase>,
    },
    /// `[index]`
    Index(Boxed<Phrase>),
}

/// An operator and its right operand.
#[cycle(phrases)]
#[derive(Drop)]
pub struct Operation {
    pub operator: Operator,
    pub operand: Phrase,
}

/// A comparison and its right operand.
#[cycle(phrases)]
#[derive(Drop)]
pub struct Compared {
    pub comparison: Comparison,
    pub operand: Phrase,
}

/// A type as it is written.
#[derive(Clone, Copy, Debug, Drop, PartialEq, Eq)]
pub enum TypeName {
    Void(Place),
    Number(NumberType),
    Structure(Identifier),
    Enumeration(Identifier),
    Process(Identifier),
}

/// A number that is known before the program runs: a number or a character, or a name.
#[derive(Clone, Copy, Debug, Drop, PartialEq, Eq)]
pub enum Length {
    Number { place: Place, value: i64 },
    Name(Identifier),
}

/// A field. Where several share one written type, each has it.
#[derive(Clone, Copy, Debug, Drop, PartialEq, Eq)]
pub struct Field {
    pub of: TypeName,
    pub name: Identifier,
    pub length: Option<Length>,
}

/// What a constant is set to.
#[derive(Clone, Copy, Debug, Drop, PartialEq, Eq)]
pub struct ConstantValue {
    pub negative: bool,
    pub length: Length,
}

/// A constant of an enumeration.
#[derive(Clone, Copy, Debug, Drop, PartialEq, Eq)]
pub struct Constant {
    pub name: Identifier,
    pub value: Option<ConstantValue>,
}

/// A parameter of a function.
#[derive(Clone, Copy, Debug, Drop, PartialEq, Eq)]
pub struct Parameter {
    pub of: TypeName,
    pub name: Identifier,
}

/// A transaction. An asynchronous one has no type.
#[derive(Drop)]
pub struct Transaction {
    pub result: Option<TypeName>,
    pub name: Identifier,
    pub parameters: Items<TypeName>,
}

/// A local variable. Where several share one written type, each has it.
#[derive(Drop)]
pub struct Local {
    pub of: TypeName,
    pub name: Identifier,
    pub form: LocalForm,
}

/// What stands behind the name of a local variable.
#[derive(Drop)]
pub enum LocalForm {
    Plain,
    Array(Length),
    Value(Phrase),
}

/// `suchthat` or `by`.
#[derive(Clone, Copy, Debug, Drop, PartialEq, Eq)]
pub enum ClauseWord {
    SuchThat,
    By,
}

/// A clause of an accept.
#[derive(Drop)]
pub struct Clause {
    pub word: ClauseWord,
    pub expression: Phrase,
}

/// A statement, or a local variable.
#[cycle(statements)]
#[derive(Drop)]
pub enum Statement {
    Empty,
    Declare(Local),
    Block(Items<Statement>),
    Evaluate(Phrase),
    If {
        condition: Phrase,
        body: Boxed<Statement>,
    },
    IfElse {
        condition: Phrase,
        yes: Boxed<Statement>,
        no: Boxed<Statement>,
    },
    While {
        condition: Phrase,
        body: Boxed<Statement>,
    },
    DoWhile {
        body: Boxed<Statement>,
        condition: Phrase,
    },
    For {
        first: Option<Phrase>,
        condition: Option<Phrase>,
        next: Option<Phrase>,
        body: Boxed<Statement>,
    },
    Break(Place),
    Continue(Place),
    Return(Place, Option<Phrase>),
    TransactionReturn(Place, Option<Phrase>),
    Delay(Phrase),
    Accept {
        part: AcceptPart,
    },
    Select(Place, Items<Alternative>),
}

/// An accept, up to its block, with at most two clauses, in the order written.
#[derive(Drop)]
pub struct AcceptHead {
    pub place: Place,
    pub name: Identifier,
    pub names: Items<Identifier>,
    pub clauses: Items<Clause>,
}

/// An accept. A `;` in place of the block is an empty block.
#[cycle(statements)]
#[derive(Drop)]
pub struct AcceptPart {
    pub head: AcceptHead,
    pub block: Items<Statement>,
}

#[cycle(statements)]
#[derive(Drop)]
pub struct Alternative {
    pub guard: Option<Phrase>,
    pub choice: Choice,
    pub entries: Items<Statement>,
}

/// What an alternative offers.
#[cycle(statements)]
#[derive(Drop)]
pub enum Choice {
    Accept { part: AcceptPart },
    Delay(Phrase),
    Immediate,
    Terminate,
}

#[derive(Drop)]
pub enum Item {
    Structure {
        name: Identifier,
        fields: Items<Field>,
    },
    Enumeration {
        name: Option<Identifier>,
        constants: Items<Constant>,
    },
    Specification {
        name: Identifier,
        parameters: Items<TypeName>,
        transactions: Items<Transaction>,
    },
    Body {
        name: Identifier,
        names: Items<Identifier>,
        block: Items<Statement>,
    },
    Function {
        result: TypeName,
        name: Identifier,
        parameters: Items<Parameter>,
        block: Items<Statement>,
    },
}

/// The plain tree of a text: how many names it has, its formats, and its items.
#[derive(Drop)]
pub struct Plain {
    pub names: u32,
    pub formats: Items<Bytes>,
    pub items: Items<Item>,
}
