/// A place in a text. Lines and columns count from 1, and a column is one byte.
#[derive(Clone, Copy, Debug, Drop, PartialEq, Eq)]
pub struct Place {
    pub line: u32,
    pub column: u32,
}

/// The number of a process, from 0 in the order made. `main` is process 0.
#[derive(Clone, Copy, Debug, Drop, PartialEq, Eq)]
pub struct Pid(pub u32);

/// The number of a transaction call, from 0 in the order made.
#[derive(Clone, Copy, Debug, Drop, PartialEq, Eq)]
pub struct CallId(pub u32);

/// Why a process was stopped.
#[derive(Clone, Copy, Debug, Drop, PartialEq, Eq)]
pub enum FaultKind {
    /// A number left the range of its type.
    Overflow,
    /// A division or a remainder by zero.
    DivideByZero,
    /// An index outside its array.
    Index,
    /// A call of null, or of a number outside 1 to 4,294,967,296.
    NullProcess,
    /// The called process has ended, was stopped by a fault or was never made, or it was over before it answered.
    CalleeGone,
    /// A `select` with no open alternative.
    NoAlternative,
    /// More than 1,000 active function calls.
    Depth,
    /// More than 65,536 cells of active variables.
    Cells,
    /// A `create` where 4,096 processes were made.
    TooMany,
}

/// What a transaction takes and gives.
#[derive(Clone, Copy, Debug, Drop, PartialEq, Eq)]
pub struct Shape {
    /// Whether its calls are asynchronous: nobody waits for an answer.
    pub is_async: bool,
    /// How many cells its arguments have.
    pub args: u32,
    /// How many cells its value has.
    pub value: u32,
}
