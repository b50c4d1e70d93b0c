//! Byte strings, each once and by its number.

ghost use Rattle.std.specs.Prelude.{◌≡◌, [], OnOk, IfOk, length};
ghost use Rattle.cc_names.specs.Names.{number_in, with_mention};

use cc_base::{Bytes, Memory};
use indexmap::IndexSet;
use sqlite_items::Items;
use std::alloc::Global;
use std::marker::Model;

/// Byte strings, each once, in the order of their first mention. The number of each is how many stand before it.
#[derive(Drop)]
pub(crate) struct Strings<'t> {
    set: IndexSet<&'t [u8]>,
}

impl<'t> Model for Strings<'t> {
    ghost use Rattle.std.specs.Prelude.{ℕ, List, map};

    ghost Value = { List (List ℕ) };

    ghost view = { λ s. map (λ k. k.now) s.set.keys };
}

impl<'t> Strings<'t> {
    /// No strings.
    pub(crate) fn new(alloc: Global) -> Strings<'t>
        ensures { result ≡ [] }
    {
        Strings {
            set: IndexSet::new(alloc),
        }
    }

    /// Mentions a string.
    pub(crate) fn mention(&mut self, string: &'t [u8]) -> Result<(), Memory>
        ensures { OnOk result (self.new ≡ with_mention self.old string.now) }
    {
        self.set.insert_full(string)?;
        Ok(())
    }

    /// The number of a string, or how many there are where it was not mentioned. A number that 32 bits don't hold is out of memory.
    pub(crate) fn number(&self, string: &[u8]) -> Result<u32, Memory>
        ensures { IfOk result (λ n. n ≡ number_in self.now string.now) }
    {
        short(self.found(string))
    }

    fn found(&self, string: &[u8]) -> usize
        ensures { result ≡ number_in self.now string.now }
    {
        match self.set.get_index_of(&string) {
            Some(at) => at,
            None => self.set.len(),
        }
    }

    /// How many there are. A number that 32 bits don't hold is out of memory.
    pub(crate) fn count(&self) -> Result<u32, Memory>
        ensures { IfOk result (λ n. n ≡ length self.now) }
    {
        short(self.set.len())
    }

    /// The strings in memory of their own.
    pub(crate) fn copies(&self, alloc: Global) -> Result<Items<Bytes>, Memory>
        ensures { IfOk result (λ all. all ≡ self.now) }
    {
        let mut all = Items::new(alloc);
        for string in self.set.as_slice() {
            all.push(Bytes::from_slice(alloc, *string)?)?;
        }
        Ok(all)
    }
}

/// The number in 32 bits, which a list of that length has to have room for.
fn short(n: usize) -> Result<u32, Memory>
    ensures { IfOk result (λ m. m ≡ n) }
{
    match u32::try_from(n) {
        Ok(m) => Ok(m),
        Err(_) => Err(Memory),
    }
}
