ghost use Rattle.std.specs.Prelude.{◌≡◌, ◌<◌, [], ◌∷◌, ◌++◌, length, All, AllPairs, MatchOption, OnOk, OnErr, None, Some, slice_get};
ghost use Rattle.cc_base.specs.Alternatives.{NumbersRise};

use crate::cells::Cells;
use crate::memory::Memory;
use std::alloc::Global;
use std::marker::Model;

/// An alternative of a `select`.
#[derive(Debug, Drop)]
pub enum Alt {
    /// A call of this transaction, where its arguments fit this site in this environment.
    Accept { trans: u32, site: u32, env: Cells },
    /// This many milliseconds have passed.
    After { wait: i64 },
    /// At once, where no call can be taken.
    Now,
    /// The collective end of the program.
    Terminate,
}

/// The open alternatives of a `select`, each with its number as written, in rising numbers.
#[derive(Debug, Drop)]
pub struct Alts {
    items: Vec<(u32, Alt)>,
}

impl Model for Alts {
    ghost use Rattle.std.specs.Prelude.{ℕ, List};
    ghost use Rattle.cc_base.specs.declared.alternatives.Alt.{Alt};

    ghost Value = { List (ℕ × Alt) };

    ghost use Rattle.cc_base.specs.Alternatives.{NumbersRise};

    ghost view = { λ a. a.items.items };

    ghost invariant = { λ a. NumbersRise a.items.items };
}

impl Alts {
    /// No alternative.
    pub fn new(alloc: Global) -> Alts
        ensures { result ≡ [] }
    {
        Alts {
            items: Vec::new(alloc),
        }
    }

    pub fn len(&self) -> usize
        ensures len { result ≡ length self.now }
        ensures rising { NumbersRise self.now }
    {
        self.items.len()
    }

    /// Puts an alternative at the end, with a number above all others. After an error the list is as before.
    pub fn push(&mut self, item: (u32, Alt)) -> Result<(), Memory>
        requires { All (λ a. a.0 < item.0) self.old }
        ensures ok { OnOk result (self.new ≡ self.old ++ item ∷ []) }
        ensures err { OnErr result (self.new ≡ self.old) }
    {
        self.items.push(item)?;
        Ok(())
    }

    /// The alternative at this index, from 0; none exactly past the end.
    pub fn get(&self, at: usize) -> Option<&(u32, Alt)>
        ensures { MatchOption result (slice_get self.now at ≡ None) (λ a. slice_get self.now at ≡ Some a.now) }
    {
        self.items.get(at)
    }
}
