//! The trees of texts. A list keeps its parts in the order written, and a row of operators is a list that groups from the left.

use cc_base::{Bytes, Place};
use cc_lex::{Name, Size};
use sqlite_items::{Boxed, Items};

/// A name where it stands.
#[derive(Drop)]
pub struct Identifier {
    pub place: Place,
    pub name: Name,
}

/// The tree of a text.
#[derive(Drop)]
pub struct Tree {
    pub items: Items<Item>,
}

#[derive(Drop)]
pub enum Item {
    /// `struct name { .. };`
    Structure {
        name: Identifier,
        fields: Items<Field>,
    },
    /// `enum name { .. };`, where the name may be left out.
    Enumeration {
        name: Option<Identifier>,
        constants: Items<Constant>,
    },
    /// `process spec name(..) { .. };`, where the braces may be left out.
    Specification {
        name: Identifier,
        parameters: Items<TransactionParameter>,
        transactions: Option<Items<Transaction>>,
    },
    /// `process body name(..) { .. }`
    Body {
        name: Identifier,
        names: Items<Identifier>,
        block: Items<Entry>,
    },
    /// A function. Where its type is left out it is `int`.
    Function {
        result: Option<TypeName>,
        function: Function,
    },
}

/// What stands behind the type of a function.
#[derive(Drop)]
pub struct Function {
    pub name: Identifier,
    pub parameters: Items<Parameter>,
    pub block: Items<Entry>,
}

/// A type, with the place of its first word.
#[derive(Drop)]
pub enum TypeName {
    Void(Place),
    Char(Place),
    Int(Place),
    Long(Place),
    Structure(Place, Identifier),
    Enumeration(Place, Identifier),
    Process(Place, Identifier),
}

/// Fields of one type.
#[derive(Drop)]
pub struct Field {
    pub of: TypeName,
    pub declarators: Items<Declarator>,
}

/// A name, and its length where it names an array.
#[derive(Drop)]
pub struct Declarator {
    pub name: Identifier,
    pub length: Option<Length>,
}

/// A constant of an enumeration.
#[derive(Drop)]
pub struct Constant {
    pub name: Identifier,
    pub value: Option<ConstantValue>,
}

/// What a constant is set to.
#[derive(Drop)]
pub struct ConstantValue {
    pub negative: bool,
    pub length: Length,
}

/// A number that is known before the program runs.
#[derive(Drop)]
pub enum Length {
    Number {
        place: Place,
        value: i64,
        size: Size,
    },
    Character {
        place: Place,
        value: u8,
    },
    Name(Identifier),
}

/// A transaction. An asynchronous one has no type.
#[derive(Drop)]
pub struct Transaction {
    pub result: Option<TypeName>,
    pub name: Identifier,
    pub parameters: Items<TransactionParameter>,
}

/// A parameter of a transaction or a process, whose name may be left out.
#[derive(Drop)]
pub struct TransactionParameter {
    pub of: TypeName,
    pub name: Option<Identifier>,
}

/// A parameter of a function.
#[derive(Drop)]
pub struct Parameter {
    pub of: TypeName,
    pub name: Identifier,
}

#[cycle(code)]
#[derive(Drop)]
pub enum Entry {
    Local(Local),
    Statement(Statement),
}

/// Variables of one type.
#[derive(Drop)]
pub struct Local {
    pub of: TypeName,
    pub declarators: Items<LocalDeclarator>,
}

#[derive(Drop)]
pub enum LocalDeclarator {
    Plain(Identifier),
    Array(Identifier, Length),
    Value(Identifier, Expression),
}

/// A statement, with the place of its first word or mark, but for a block and an expression, which have none of their own.
#[cycle(code)]
#[derive(Drop)]
pub enum Statement {
    Empty(Place),
    Block(Items<Entry>),
    Expression(Expression),
    If {
        place: Place,
        condition: Expression,
        then: Boxed<Statement>,
    },
    IfElse {
        place: Place,
        condition: Expression,
        then: Boxed<Statement>,
        otherwise: Boxed<Statement>,
    },
    While {
        place: Place,
        condition: Expression,
        body: Boxed<Statement>,
    },
    Do {
        place: Place,
        body: Boxed<Statement>,
        condition: Expression,
    },
    For {
        place: Place,
        header: Boxed<ForHeader>,
        body: Boxed<Statement>,
    },
    Break(Place),
    Continue(Place),
    Return(Place, Option<Expression>),
    Treturn(Place, Option<Expression>),
    Delay(Place, Expression),
    Accept(Boxed<Accept>),
    Select(Place, Items<Alternative>),
}

/// What stands in the parentheses of a `for`.
#[derive(Drop)]
pub struct ForHeader {
    pub first: Option<Expression>,
    pub condition: Option<Expression>,
    pub step: Option<Expression>,
}

/// An accept. Its block is none where a `;` stands in its place.
#[cycle(code)]
#[derive(Drop)]
pub struct Accept {
    pub place: Place,
    pub name: Identifier,
    pub names: Items<Identifier>,
    pub clauses: Clauses,
    pub block: Option<Items<Entry>>,
}

/// The expressions of `suchthat` and `by`, in the order written.
#[derive(Drop)]
pub enum Clauses {
    None,
    Such(Expression),
    Least(Expression),
    SuchLeast(Expression, Expression),
    LeastSuch(Expression, Expression),
}

#[cycle(code)]
#[derive(Drop)]
pub struct Alternative {
    pub guard: Option<Expression>,
    pub choice: Choice,
}

/// What an alternative offers, with the place of its first word and the entries behind it.
#[cycle(code)]
#[derive(Drop)]
pub enum Choice {
    Accept(Accept, Items<Entry>),
    Delay(Place, Expression, Items<Entry>),
    Immediate(Place, Items<Entry>),
    Terminate(Place),
}

/// An expression. A row of one operand is that operand, and a primary expression with nothing behind it is itself. What holds
/// most is boxed, so that an expression is small.
#[cycle(expression)]
#[derive(Drop)]
pub enum Expression {
    /// `within wait ? call : otherwise`
    Within {
        place: Place,
        wait: Boxed<Expression>,
        call: Boxed<Expression>,
        otherwise: Boxed<Expression>,
    },
    /// `target = value`, or with another operator.
    Store {
        target: Boxed<Expression>,
        operator: AssignOperator,
        value: Boxed<Expression>,
    },
    /// `condition ? then : otherwise`
    Choice {
        condition: Boxed<Expression>,
        then: Boxed<Expression>,
        otherwise: Boxed<Expression>,
    },
    /// Operands of `||`.
    Disjunction {
        first: Boxed<Expression>,
        more: Items<Expression>,
    },
    /// Operands of `&&`.
    Conjunction {
        first: Boxed<Expression>,
        more: Items<Expression>,
    },
    /// Operands of `==` and `!=`.
    Equality {
        first: Boxed<Expression>,
        more: Items<EqualityStep>,
    },
    /// Operands of `<`, `<=`, `>` and `>=`.
    Order {
        first: Boxed<Expression>,
        more: Items<OrderStep>,
    },
    /// Operands of `+` and `-`.
    Sum {
        first: Boxed<Expression>,
        more: Items<SumStep>,
    },
    /// Operands of `*`, `/` and `%`.
    Term {
        first: Boxed<Expression>,
        more: Items<TermStep>,
    },
    Prefixed {
        prefix: Prefix,
        operand: Boxed<Expression>,
    },
    /// A primary expression, what is taken of it, and `++` or `--` behind it.
    Postfix {
        first: Boxed<Expression>,
        steps: Items<Step>,
        suffix: Option<SuffixOperator>,
    },
    Number {
        place: Place,
        value: i64,
        size: Size,
    },
    Character {
        place: Place,
        value: u8,
    },
    Name(Identifier),
    Call(Boxed<Identifier>, Items<Expression>),
    Create(Place, Boxed<Identifier>, Items<Expression>),
    Putchar(Place, Boxed<Expression>),
    Getchar(Place),
    Printf(Place, Boxed<Format>, Items<Expression>),
    Parenthesised(Place, Boxed<Expression>),
}

#[derive(Clone, Copy, Debug, Drop, PartialEq, Eq)]
pub enum AssignOperator {
    Set,
    Add,
    Subtract,
    Multiply,
    Divide,
    Remainder,
}

#[cycle(expression)]
#[derive(Drop)]
pub struct EqualityStep {
    pub operator: EqualityOperator,
    pub operand: Expression,
}

#[derive(Clone, Copy, Debug, Drop, PartialEq, Eq)]
pub enum EqualityOperator {
    Equal,
    NotEqual,
}

#[cycle(expression)]
#[derive(Drop)]
pub struct OrderStep {
    pub operator: OrderOperator,
    pub operand: Expression,
}

#[derive(Clone, Copy, Debug, Drop, PartialEq, Eq)]
pub enum OrderOperator {
    Less,
    LessEqual,
    Greater,
    GreaterEqual,
}

#[cycle(expression)]
#[derive(Drop)]
pub struct SumStep {
    pub operator: SumOperator,
    pub operand: Expression,
}

#[derive(Clone, Copy, Debug, Drop, PartialEq, Eq)]
pub enum SumOperator {
    Plus,
    Minus,
}

#[cycle(expression)]
#[derive(Drop)]
pub struct TermStep {
    pub operator: TermOperator,
    pub operand: Expression,
}

#[derive(Clone, Copy, Debug, Drop, PartialEq, Eq)]
pub enum TermOperator {
    Times,
    Divide,
    Remainder,
}

/// A prefix operator where it stands.
#[derive(Clone, Copy, Debug, Drop, PartialEq, Eq)]
pub struct Prefix {
    pub place: Place,
    pub operator: PrefixOperator,
}

#[derive(Clone, Copy, Debug, Drop, PartialEq, Eq)]
pub enum PrefixOperator {
    Minus,
    Plus,
    Not,
    Increment,
    Decrement,
}

/// What is taken of an expression.
#[cycle(expression)]
#[derive(Drop)]
pub enum Step {
    /// `.name`
    Field(Identifier),
    /// `.name(..)`
    Call(Boxed<Identifier>, Items<Expression>),
    /// `[..]`
    Index(Boxed<Expression>),
}

#[derive(Clone, Copy, Debug, Drop, PartialEq, Eq)]
pub enum SuffixOperator {
    Increment,
    Decrement,
}

/// A string where it stands.
#[derive(Drop)]
pub struct Format {
    pub place: Place,
    pub bytes: Bytes,
}
