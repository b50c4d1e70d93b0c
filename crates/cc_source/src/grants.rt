ghost use Rattle.std.specs.Prelude.{◌≡◌, [], ◌∷◌, ◌++◌, length, slice_get, MatchOption, OnErr, OnOk, None, Some};

use cc_base::{Grant, Memory};
use std::alloc::Global;
use std::marker::Model;

/// What a process was granted so far.
#[derive(Debug, Drop)]
pub struct Grants {
    items: Vec<Grant>,
}

impl Model for Grants {
    ghost use Rattle.std.specs.Prelude.{List};
    ghost use Rattle.cc_base.specs.declared.request.Grant.{Grant};

    ghost Value = { List Grant };

    ghost view = { λ g. g.items.items };
}

impl Grants {
    /// No grant.
    pub fn new(alloc: Global) -> Grants
        ensures empty { result ≡ [] }
    {
        Grants {
            items: Vec::new(alloc),
        }
    }

    /// How many grants there are.
    pub fn len(&self) -> usize
        ensures length { result ≡ length self.now }
    {
        self.items.len()
    }

    /// Puts a grant at the end. After an error the list is as before.
    pub fn push(&mut self, grant: Grant) -> Result<(), Memory>
        ensures ok { OnOk result (self.new ≡ self.old ++ grant ∷ []) }
        ensures err { OnErr result (self.new ≡ self.old) }
    {
        self.items.push(grant)?;
        Ok(())
    }

    /// The grant at this index, from 0; none exactly past the end.
    pub fn get(&self, at: usize) -> Option<&Grant>
        ensures grant { MatchOption result (slice_get self.now at ≡ None) (λ g. slice_get self.now at ≡ Some g.now) }
    {
        self.items.get(at)
    }

    pub(crate) fn as_slice(&self) -> &[Grant]
        ensures { result.now ≡ self.now }
    {
        self.items.as_slice()
    }
}
