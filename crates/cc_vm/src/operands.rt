//! The operand stack of a fragment.

ghost use Rattle.std.specs.Prelude.{◌≡◌, ◌<◌, [], ◌∷◌, ◌++◌, length};

use std::marker::Model;

/// At most 64 cells, the last on top.
#[derive(Drop)]
pub(crate) struct Operands {
    cells: [i64; 64],
    height: usize,
}

impl Model for Operands {
    ghost use Rattle.std.specs.Prelude.{ℤ, ◌≤◌, List, take};

    ghost Value = { List ℤ };

    ghost view = { λ s. take s.height s.cells };

    ghost invariant = { λ s. s.height ≤ 64 };
}

impl Operands {
    /// No cells.
    pub(crate) fn new() -> Operands
        ensures { result ≡ [] }
    {
        Operands {
            cells: [0; 64],
            height: 0,
        }
    }

    /// How many cells there are.
    pub(crate) fn height(&self) -> usize
        ensures { result ≡ length self.now }
    {
        self.height
    }

    /// Puts a cell on top.
    pub(crate) fn push(&mut self, cell: i64)
        requires { length self.old < 64 }
        ensures { self.new ≡ self.old ++ cell ∷ [] }
    {
        self.cells[self.height] = cell;
        self.height += 1;
    }

    /// Takes the cell from the top.
    pub(crate) fn pop(&mut self) -> i64
        requires { 0 < length self.old }
        ensures { self.old ≡ self.new ++ result ∷ [] }
    {
        self.height -= 1;
        self.cells[self.height]
    }
}
