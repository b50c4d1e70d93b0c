ghost use Rattle.std.specs.Prelude.{◌≡◌, [], ◌∷◌, ◌++◌, length, slice_get, take, IfOk, OnOk, OnErr};

use crate::memory::Memory;
use std::alloc::Global;
use std::marker::Model;

/// A list of cells, 64-bit signed numbers. It keeps its allocator.
#[derive(Debug, Drop)]
pub struct Cells {
    items: Vec<i64>,
}

impl Model for Cells {
    ghost use Rattle.std.specs.Prelude.{ℤ, List};

    ghost Value = { List ℤ };

    ghost view = { λ c. c.items.items };
}

impl Cells {
    /// The empty list.
    pub fn new(alloc: Global) -> Cells
        ensures { result ≡ [] }
    {
        Cells {
            items: Vec::new(alloc),
        }
    }

    pub fn len(&self) -> usize
        ensures { result ≡ length self.now }
    {
        self.items.len()
    }

    /// Puts a cell at the end. After an error the list is as before.
    pub fn push(&mut self, cell: i64) -> Result<(), Memory>
        ensures ok { OnOk result (self.new ≡ self.old ++ cell ∷ []) }
        ensures err { OnErr result (self.new ≡ self.old) }
    {
        self.items.push(cell)?;
        Ok(())
    }

    /// The cell at this index, from 0; none exactly past the end.
    pub fn get(&self, at: usize) -> Option<i64>
        ensures { result ≡ slice_get self.now at }
    {
        self.items.get(at).copied()
    }

    /// Leaves at most this many cells, the first.
    pub fn cut(&mut self, len: usize)
        ensures { self.new ≡ take len self.old }
    {
        self.items.truncate(len);
    }

    /// The same list, in memory of its own.
    pub fn copy(&self) -> Result<Cells, Memory>
        ensures { IfOk result (λ c. c ≡ self.now) }
    {
        let items = Vec::from_slice(*self.items.allocator(), self.items.as_slice())?;
        Ok(Cells { items })
    }
}

/// A list of bytes. It keeps its allocator.
#[derive(Debug, Drop)]
pub struct Bytes {
    items: Vec<u8>,
}

impl Model for Bytes {
    ghost use Rattle.std.specs.Prelude.{ℕ, List};

    ghost Value = { List ℕ };

    ghost view = { λ b. b.items.items };
}

impl Bytes {
    /// The empty list.
    pub fn new(alloc: Global) -> Bytes
        ensures { result ≡ [] }
    {
        Bytes {
            items: Vec::new(alloc),
        }
    }

    /// The list of these bytes.
    pub fn from_slice(alloc: Global, bytes: &[u8]) -> Result<Bytes, Memory>
        ensures { IfOk result (λ b. b ≡ bytes.now) }
    {
        let items = Vec::from_slice(alloc, bytes)?;
        Ok(Bytes { items })
    }

    pub fn len(&self) -> usize
        ensures { result ≡ length self.now }
    {
        self.items.len()
    }

    /// Puts a byte at the end. After an error the list is as before.
    pub fn push(&mut self, byte: u8) -> Result<(), Memory>
        ensures ok { OnOk result (self.new ≡ self.old ++ byte ∷ []) }
        ensures err { OnErr result (self.new ≡ self.old) }
    {
        self.items.push(byte)?;
        Ok(())
    }

    /// Puts these bytes at the end. After an error the list is as before.
    pub fn append(&mut self, more: &[u8]) -> Result<(), Memory>
        ensures ok { OnOk result (self.new ≡ self.old ++ more.now) }
        ensures err { OnErr result (self.new ≡ self.old) }
    {
        self.items.extend_from_slice(more)?;
        Ok(())
    }

    /// The byte at this index, from 0; none exactly past the end.
    pub fn get(&self, at: usize) -> Option<u8>
        ensures { result ≡ slice_get self.now at }
    {
        self.items.get(at).copied()
    }

    /// The same list, in memory of its own.
    pub fn copy(&self) -> Result<Bytes, Memory>
        ensures { IfOk result (λ b. b ≡ self.now) }
    {
        Bytes::from_slice(*self.items.allocator(), self.items.as_slice())
    }

    pub fn as_slice(&self) -> &[u8]
        ensures { result.now ≡ self.now }
    {
        self.items.as_slice()
    }
}
