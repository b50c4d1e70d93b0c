use crate::fault::FaultAt;
use cc_typed::{Argument, ChainStep, DataType, Expression, Location};
use sqlite_items::Items;

/// What a name means as a variable, a constant or a function.
#[derive(Clone, Copy, Debug, Drop, PartialEq, Eq)]
pub enum Meaning {
    Variable(u32),
    Constant(i64),
    Function(u32),
    Main,
    /// A variable without a type: this is the first fault of the declaration that should tell it.
    Typeless(FaultAt),
    /// A constant without a value: this is the fault of its declaration, or of one before it.
    Valueless(FaultAt),
}

/// A name that is declared, and the scope that declares it: 0 is the whole text, 1 the items in their order, 2 the parameters
/// and the outermost block of a function or body, and each scope within counts one more.
#[derive(Clone, Copy, Debug, Drop, PartialEq, Eq)]
pub struct Named {
    pub scope: u32,
    pub meaning: Meaning,
}

/// The types of the parameters, and the type of what is given back.
#[derive(Drop)]
pub struct Signature {
    pub parameters: Items<DataType>,
    pub result: DataType,
}

/// A transaction of a process type: its name, its number in the whole text, and its types, or the first fault of its line.
#[derive(Drop)]
pub struct TransactionHead {
    pub name: u32,
    pub number: u32,
    pub is_async: bool,
    pub signature: Result<Signature, FaultAt>,
}

/// A process type: how many parameters are written, their types, or the first fault of them, and its transactions.
#[derive(Drop)]
pub struct KindHead {
    pub count: usize,
    pub parameters: Result<Items<DataType>, FaultAt>,
    pub transactions: Items<TransactionHead>,
}

/// Whether a `break` or a `continue` has something to leave or to go on with: nothing, one within the same accept's block, or
/// one that holds the accept.
#[derive(Clone, Copy, Debug, Drop, PartialEq, Eq)]
pub enum Leaves {
    Nothing,
    Inside,
    Outside,
}

/// In what a statement stands. The type of a function or of `main` is its own, or the first fault of its head; a process body
/// has the number of its kind, or the fault for which that isn't known.
#[derive(Clone, Copy, Debug, Drop, PartialEq, Eq)]
pub enum Role {
    Function(Result<DataType, FaultAt>),
    Main(Result<DataType, FaultAt>),
    Body(Result<u32, FaultAt>),
}

/// With what the accept replies in whose block a statement stands.
#[derive(Clone, Copy, Debug, Drop, PartialEq, Eq)]
pub enum Reply {
    /// No accept is round it.
    Nowhere,
    /// A value of this type, or the fault for which the type isn't known. `void` and asynchronous transactions have no value.
    With(Result<DataType, FaultAt>),
}

/// Where a phrase stands.
#[derive(Clone, Copy, Debug, Drop, PartialEq, Eq)]
pub struct Around {
    /// The scope in which it stands, as a number that counts them from outside.
    pub scope: u32,
    pub role: Role,
    pub reply: Reply,
    pub breaks: Leaves,
    pub continues: Leaves,
    /// In a clause of an accept.
    pub pure: bool,
}

/// What is found of an expression without a fault.
#[derive(Drop)]
pub enum Found {
    /// A place, which can be stored to.
    Place(Location),
    Value(Expression),
    /// An expression with steps behind it, to which the next step is added.
    Chain {
        first: Expression,
        steps: Items<ChainStep>,
        data_type: DataType,
    },
    /// A call of a synchronous transaction of what stands before it: an expression with steps behind it, of a process type.
    Call {
        first: Expression,
        steps: Items<ChainStep>,
        process: DataType,
        transaction: u32,
        args: Items<Argument>,
        data_type: DataType,
    },
}
