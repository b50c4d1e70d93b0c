//! How far the checker has come through the items of a text.

use crate::checker::Checker;
use crate::made::Made;
use cc_declared::Seen;
use std::marker::Model;

/// The checker between two items.
#[derive(Drop)]
pub(crate) struct Progress<'t> {
    pub(crate) checker: Checker<'t>,
    pub(crate) made: Made,
    /// The names of all bodies of the text.
    pub(crate) all_bodies: Seen,
    /// The names of the specifications and of the bodies so far, and how many specifications.
    pub(crate) specifications: Seen,
    pub(crate) bodies: Seen,
    pub(crate) kinds: u32,
}

impl<'t> Model for Progress<'t> {
    ghost use Rattle.cc_typed.specs.contracts.tree.Expression as expression;
    ghost use Rattle.cc_typed.specs.contracts.tree.Statement as statement;
    ghost use Rattle.cc_types.specs.Passing.{Progress};
    ghost use Rattle.std.specs.Coded.{codes};

    ghost Value = { Progress };

    ghost coded = { Prim.hlevel (codes, expression.the_row.coded, statement.the_row.coded) };

    ghost view = { λ p. record { text = p.checker.text; scope = p.checker.scope; made = p.made; all_bodies = p.all_bodies; specifications = p.specifications; bodies = p.bodies; kinds = p.kinds } };
}
