ghost use Rattle.std.specs.Prelude.{◌≡◌, [], ◌∷◌, ◌++◌, length, OnErr, OnOk, slice_get};

use cc_base::Memory;
use std::alloc::Global;
use std::marker::Model;

/// A list of moments, in milliseconds. It keeps its allocator.
#[derive(Debug, Drop)]
pub struct Moments {
    items: Vec<u64>,
}

impl Model for Moments {
    ghost use Rattle.std.specs.Prelude.{ℕ, List};

    ghost Value = { List ℕ };

    ghost view = { λ m. m.items.items };
}

impl Moments {
    /// The empty list.
    pub fn new(alloc: Global) -> Moments
        ensures { result ≡ [] }
    {
        Moments {
            items: Vec::new(alloc),
        }
    }

    pub fn len(&self) -> usize
        ensures { result ≡ length self.now }
    {
        self.items.len()
    }

    /// Puts a moment at the end. After an error the list is as before.
    pub fn push(&mut self, moment: u64) -> Result<(), Memory>
        ensures ok { OnOk result (self.new ≡ self.old ++ moment ∷ []) }
        ensures err { OnErr result (self.new ≡ self.old) }
    {
        self.items.push(moment)?;
        Ok(())
    }

    /// The moment at this index, from 0; none exactly past the end.
    pub fn get(&self, at: usize) -> Option<u64>
        ensures { result ≡ slice_get self.now at }
    {
        self.items.get(at).copied()
    }
}
