ghost use Rattle.std.specs.Prelude.{◌≡◌, ◌≤◌, ◌⊎◌, [], length, IfOk, IsErrOf, None, OnErr, OnOk, Some};
ghost use Rattle.std.specs.FinMap as map;
ghost use Rattle.std.specs.Option.{option_copied};
ghost use Rattle.cc_world.specs.Calls.{counted, FailsNext, none_made};
ghost use Rattle.cc_world.specs.Shelf.{IsStartOf, missed_after, Written};

use crate::calls::Calls;
use crate::fault::{IoFault, ShelfCall};
use crate::misses::Misses;
use crate::shelf::Shelf;
use cc_base::{Bytes, Cells, Memory};
use std::alloc::Global;
use std::collections::VecDeque;

/// Files in memory. It fails where it is told to, and where a file to be read is missing.
///
/// A file that is set goes in front, so the first entry of a name is what it holds. Older entries stay until the
/// shelf is let go.
#[derive(Drop)]
pub struct MemShelf {
    alloc: Global,
    entries: VecDeque<(Bytes, Bytes)>,
    calls: Calls,
    failed: Misses,
}

impl MemShelf {
    ghost use Rattle.cc_world.specs.MemShelf.{calls_of, failed_of, files_of};

    /// A shelf with no file. `failing` lists the numbers of the calls that fail, from 1.
    pub fn new(alloc: Global, failing: Cells) -> MemShelf
        ensures files { files_of result ≡ map.empty }
        ensures failed { failed_of result ≡ [] }
        ensures calls { calls_of result ≡ none_made failing }
    {
        MemShelf {
            alloc,
            entries: VecDeque::new(alloc),
            calls: Calls::new(failing),
            failed: Misses::new(alloc),
        }
    }

    /// What the file of this name holds; none exactly where there is no such file.
    #[tactic(auto, using(crate::proofs::Names::same_name))]
    pub fn file(&self, name: &str) -> Option<&Bytes>
        ensures { option_copied result ≡ map.get (files_of self.now) name.now }
    {
        for entry in &self.entries {
            if name.as_bytes() == entry.0.as_slice() {
                return Some(&entry.1);
            }
        }
        None
    }

    /// Sets a file. This is none of the calls that are counted. After an error nothing has changed.
    pub fn place(&mut self, name: &str, bytes: Bytes) -> Result<(), Memory>
        ensures done { OnOk result (files_of self.new ≡ map.insert (files_of self.old) name.now bytes) }
        ensures same { OnErr result (files_of self.new ≡ files_of self.old) }
        ensures failed { failed_of self.new ≡ failed_of self.old }
        ensures calls { calls_of self.new ≡ calls_of self.old }
    {
        let name = Bytes::from_slice(self.alloc, name.as_bytes())?;
        self.entries.push_front((name, bytes))?;
        Ok(())
    }
}

impl Shelf for MemShelf {
    ghost use Rattle.cc_world.specs.MemShelf.{calls_of, failed_of, files_of};
    ghost use Rattle.std.specs.Prelude.{Some};

    ghost files = { λ s. Some (files_of s) };

    ghost failed = { λ s. failed_of s };

    fn read(&mut self, name: &str, most: usize) -> Result<Bytes, IoFault>
        ensures bytes { IfOk result (IsStartOf (Some (files_of self.old)) name.now most) }
        ensures bound { IfOk result (λ bytes. length bytes ≤ most) }
        ensures same { Some (files_of self.new) ≡ Some (files_of self.old) }
        ensures cause { failed_of self.new ≡ missed_after result (failed_of self.old) name.now ShelfCall.Read }
        ensures fails { let missing = map.get (files_of self.old) name.now ≡ None in
            IsErrOf result IoFault.Failed → FailsNext (calls_of self.old) ⊎ missing }
        ensures passes { OnOk result (¬ FailsNext (calls_of self.old)) }
        ensures calls { calls_of self.new ≡ counted (calls_of self.old) }
    {
        let fails = self.calls.next_fails();
        let noted = Bytes::from_slice(self.alloc, name.as_bytes())?;
        self.failed.reserve()?;
        if !fails {
            if let Some(bytes) = self.file(name) {
                let all = bytes.as_slice();
                return Ok(Bytes::from_slice(self.alloc, &all[..all.len().min(most)])?);
            }
        }
        self.failed.add(noted, ShelfCall::Read);
        Err(IoFault::Failed)
    }

    fn write(&mut self, name: &str, bytes: &[u8]) -> Result<(), IoFault>
        ensures done { OnOk result (Some (files_of self.new) ≡ Written (Some (files_of self.old)) name.now bytes.now) }
        ensures same { OnErr result (Some (files_of self.new) ≡ Some (files_of self.old)) }
        ensures cause { failed_of self.new ≡ missed_after result (failed_of self.old) name.now ShelfCall.Write }
        ensures fails { IsErrOf result IoFault.Failed → FailsNext (calls_of self.old) }
        ensures passes { OnOk result (¬ FailsNext (calls_of self.old)) }
        ensures calls { calls_of self.new ≡ counted (calls_of self.old) }
    {
        let fails = self.calls.next_fails();
        let noted = Bytes::from_slice(self.alloc, name.as_bytes())?;
        self.failed.reserve()?;
        if fails {
            self.failed.add(noted, ShelfCall::Write);
            return Err(IoFault::Failed);
        }
        let content = Bytes::from_slice(self.alloc, bytes)?;
        Ok(self.place(name, content)?)
    }
}
