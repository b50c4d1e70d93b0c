//! The limits of the language and of the machine, each in one place. specs/Limits.antt has them for definitions.

/// The most bytes of a text.
pub const MOST_TEXT_BYTES: usize = 1_048_576;

/// The deepest nesting of a phrase.
pub const MOST_NESTING: u32 = 200;

/// The most instructions of a program's code.
pub const MOST_INSTRUCTIONS: u32 = 65_535;

/// The most cells of the parameters of one function, transaction or kind of process.
pub const MOST_PARAMETER_CELLS: u32 = 256;

/// The greatest depth of a pure expression, and the most cells on the operand stack of its code.
pub const MOST_PURE_DEPTH: u32 = 64;

/// The most cells of one type.
pub const MOST_TYPE_CELLS: u32 = 65_536;

/// The most active function calls of a process.
pub const MOST_CALLS: u32 = 1_000;

/// The most cells of the active variables of a process.
pub const MOST_CELLS: u32 = 65_536;

/// The most processes that a run makes, `main` among them.
pub const MOST_PROCESSES: u32 = 4_096;

/// The most bytes of the input, where the text has a `getchar`.
pub const MOST_INPUT_BYTES: usize = 16_777_216;

/// The most workers.
pub const MOST_WORKERS: u32 = 64;

/// The most turns that can be allowed.
pub const MOST_TURNS: u32 = 4_000_000;

/// The turns that are allowed where nothing is said.
pub const DEFAULT_TURNS: u32 = 1_000_000;

/// The most stages of the pipeline that `make` runs.
pub const MOST_STAGES: u32 = 16;

/// The most elements of an array.
pub const MOST_ELEMENTS: u32 = 65_536;

/// The greatest reading of the clock, 2 to the power 62 milliseconds. A greater number counts as this one.
pub const GREATEST_READING: u64 = 4_611_686_018_427_387_904;

/// The greatest deadline. A later one is cut to this.
pub const GREATEST_DEADLINE: u64 = 18_446_744_073_709_551_615;

/// The ticks that a process may spend after each grant.
pub const TICKS_GRANTED: u32 = 1_000;

/// The most instructions since the last grant or tick. One more is the fault Depth, where it neither spends a tick nor is granted
/// anything.
pub const MOST_STEPS: u32 = 131_072;
