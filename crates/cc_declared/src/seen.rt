//! Names, each once.

ghost use Rattle.std.specs.Prelude.{◌≡◌, [], IfOk, OnOk};
ghost use Rattle.cc_declared.specs.Lists.{and_once};
ghost use Rattle.cc_faults.specs.Scopes.{is_among, position};

use cc_base::Memory;
use indexmap::IndexSet;
use std::alloc::Global;
use std::marker::Model;

/// Names, each once, in the order in which they were seen first.
#[derive(Drop)]
pub struct Seen {
    set: IndexSet<u32>,
}

impl Model for Seen {
    ghost use Rattle.std.specs.Prelude.{ℕ, List};

    ghost Value = { List ℕ };

    ghost view = { λ s. s.set.keys };
}

impl Seen {
    /// No names.
    pub fn new(alloc: Global) -> Seen
        ensures empty { result ≡ [] }
    {
        Seen {
            set: IndexSet::new(alloc),
        }
    }

    /// Sees a name, and whether it was seen before.
    pub fn see(&mut self, name: u32) -> Result<bool, Memory>
        ensures before { IfOk result (λ before. before ≡ is_among self.old name) }
        ensures names { OnOk result (self.new ≡ and_once self.old name) }
    {
        let (_, is_new) = self.set.insert_full(name)?;
        Ok(!is_new)
    }

    /// Whether a name was seen.
    pub fn contains(&self, name: u32) -> bool
        ensures contains { result ≡ is_among self.now name }
    {
        self.set.contains(&name)
    }

    /// How many other names were seen before a name; none where it wasn't seen. A number that 32 bits don't hold is out of memory.
    pub fn position(&self, name: u32) -> Result<Option<u32>, Memory>
        ensures position { IfOk result (λ at. at ≡ position self.now name) }
    {
        match self.set.get_index_of(&name) {
            None => Ok(None),
            Some(at) => Ok(Some(short(at)?)),
        }
    }
}

/// A number in 32 bits.
pub(crate) fn short(number: usize) -> Result<u32, Memory>
    ensures { IfOk result (λ n. n ≡ number) }
{
    match u32::try_from(number) {
        Ok(number) => Ok(number),
        Err(_) => Err(Memory),
    }
}
