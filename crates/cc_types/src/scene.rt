//! STAND-IN, to be replaced by the file of the same name of the cycle of expressions: where an expression stands.

use cc_declared::{Known, Visible};
use cc_faults::Around;
use std::alloc::Global;
use std::marker::Model;

/// What is known where an expression stands: of the whole text, what is visible, and round it.
#[derive(Drop)]
pub struct Scene<'a> {
    pub alloc: Global,
    pub text: &'a Known<'a>,
    pub visible: &'a Visible,
    pub around: Around,
}

impl<'a> Model for Scene<'a> {
    ghost use Rattle.cc_typed.specs.contracts.tree.Expression as expression;
    ghost use Rattle.cc_types.specs.Scenes.{Scene};
    ghost use Rattle.std.specs.Coded.{codes};

    ghost Value = { Scene };

    ghost coded = { Prim.hlevel (codes, expression.the_row.coded) };

    ghost view = { λ c. record { text = c.text.now; scope = c.visible.now; around = c.around } };
}
