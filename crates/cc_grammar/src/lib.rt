//! The grammar of the language: its phrases and their trees, what begins one, and what reading a list of tokens answers.
#![tactic(auto)]

mod fault;
mod laws;
mod tree;

pub use fault::ParseError;
pub use laws::{
    each_symbol_has_a_phrase, one_answer, one_nesting, one_tree, read_form, tables_of_first_tokens,
    viable_tokens, whole_phrases,
};
pub use tree::{
    Accept, Alternative, AssignOperator, Choice, Clauses, Constant, ConstantValue, Declarator,
    Entry, EqualityOperator, EqualityStep, Expression, Field, ForHeader, Format, Function,
    Identifier, Item, Length, Local, LocalDeclarator, OrderOperator, OrderStep, Parameter, Prefix,
    PrefixOperator, Statement, Step, SuffixOperator, SumOperator, SumStep, TermOperator, TermStep,
    Transaction, TransactionParameter, Tree, TypeName,
};
