//! The faults of a text's names and types, and the program that a text without one means.
//!
//! The definition stands in `specs/`, over the plain tree of a text: `Rows` has the rows of the language's table of faults, in
//! its order; `Expressions`, `Statements` and `Programs` say of which phrases each row is asked, and what a phrase without a
//! fault means; `Scopes` says what is visible; `Sorted` puts the faults in order. `Programs` has the whole: `program`.
//!
//! A plain tree is the tree of a text with a number for each name and for each format, and without the layers of the grammar
//! that have no operator.
#![tactic(auto)]

mod answer;
mod answers;
mod fault;
mod laws;
mod names;
mod plain;
mod scope;

pub use answer::Answer;
pub use answers::{Least, good, known, known_part, pair, some, wrong};
pub use fault::{FaultAt, TypeKind, note};
pub use laws::{first_of_the_list, list_in_order, program_or_fault};
pub use names::{
    as_many, as_many_names, fresh, function_called, visible, visible_type, with_body,
    with_specification,
};
pub use plain::{
    AcceptHead, AcceptPart, Alternative, Choice, Clause, ClauseWord, Compared, Constant,
    ConstantValue, Field, Format, Identifier, Item, Length, Local, LocalForm, Operation, Parameter,
    Phrase, Plain, Statement, Step, StepWord, Transaction, TypeName,
};
pub use scope::{
    Around, Found, KindHead, Leaves, Meaning, Named, Reply, Role, Signature, TransactionHead,
};
