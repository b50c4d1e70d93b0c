ghost use Rattle.std.specs.Prelude.{◌≡◌, ◌-◌, [], ◌∷◌, ◌++◌, length, slice_get, IfOk, OnOk};
ghost use Rattle.cc_base.specs.declared.request.Grant.TheVariants.{Go, Took};
ghost use Rattle.cc_rules.specs.Effects.{granted, without_innermost};
ghost use Rattle.cc_rules.specs.State.{made};

use crate::copies::{copy_calls, copy_grants, copy_standing};
use cc_base::{Cells, Grant, Memory};
use cc_rules::{ProcessStanding, TransactionCall};
use std::alloc::Global;
use std::marker::Model;

/// A process: its kind and arguments, what it was granted so far, how it stands, and the calls that it serves, innermost
/// last.
#[derive(Drop)]
pub struct PlainProcess {
    kind: u32,
    args: Cells,
    grants: Vec<Grant>,
    standing: ProcessStanding,
    serving: Vec<TransactionCall>,
}

impl Model for PlainProcess {
    ghost use Rattle.cc_rules.specs.State.{Process};

    ghost Value = { Process };

    ghost view = { λ q. record { kind = q.kind; args = q.args; grants = q.grants.items; standing = q.standing; serving = q.serving.items } };
}

impl PlainProcess {
    /// A process as it is made: it may begin.
    pub(crate) fn made(alloc: Global, kind: u32, args: Cells) -> Result<PlainProcess, Memory>
        ensures { IfOk result (λ q. q ≡ made kind args) }
    {
        let mut grants = Vec::new(alloc);
        grants.push(Grant::Go)?;
        Ok(PlainProcess {
            kind,
            args,
            grants,
            standing: ProcessStanding::Running,
            serving: Vec::new(alloc),
        })
    }

    pub(crate) fn kind(&self) -> u32
        ensures { result ≡ self.now.kind }
    {
        self.kind
    }

    pub(crate) fn args(&self) -> &Cells
        ensures { result.now ≡ self.now.args }
    {
        &self.args
    }

    pub(crate) fn grants(&self) -> &[Grant]
        ensures { result.now ≡ self.now.grants }
    {
        self.grants.as_slice()
    }

    pub(crate) fn standing(&self) -> &ProcessStanding
        ensures { result.now ≡ self.now.standing }
    {
        &self.standing
    }

    pub(crate) fn serving(&self) -> &[TransactionCall]
        ensures { result.now ≡ self.now.serving }
    {
        self.serving.as_slice()
    }

    /// The same process, in memory of its own.
    pub(crate) fn copy(&self, alloc: Global) -> Result<PlainProcess, Memory>
        ensures { IfOk result (λ q. q ≡ self.now) }
    {
        Ok(PlainProcess {
            kind: self.kind,
            args: self.args.copy()?,
            grants: copy_grants(alloc, self.grants.as_slice())?,
            standing: copy_standing(alloc, &self.standing)?,
            serving: copy_calls(alloc, self.serving.as_slice())?,
        })
    }

    /// It goes on with this grant.
    pub(crate) fn grant(&mut self, grant: Grant) -> Result<(), Memory>
        ensures { OnOk result (self.new ≡ granted self.old grant) }
    {
        self.grants.push(grant)?;
        self.standing = ProcessStanding::Running;
        Ok(())
    }

    /// It serves the call, which it took by this alternative.
    pub(crate) fn take(&mut self, alt: u32, call: TransactionCall) -> Result<(), Memory>
        ensures { OnOk result (self.new ≡ record (granted self.old (Took alt call.args)) { serving = self.old.serving ++ call ∷ [] }) }
    {
        let args = call.args.copy()?;
        self.grants.push(Grant::Took { alt, args })?;
        self.standing = ProcessStanding::Running;
        self.serving.push(call)?;
        Ok(())
    }

    /// It goes on, and no longer serves the innermost call, which is given where there is one.
    pub(crate) fn reply(&mut self) -> Result<Option<TransactionCall>, Memory>
        ensures process { OnOk result (self.new ≡ record (granted self.old Go) { serving = without_innermost self.old.serving }) }
        ensures call { IfOk result (λ call. call ≡ slice_get self.old.serving (length self.old.serving - 1)) }
    {
        self.grants.push(Grant::Go)?;
        self.standing = ProcessStanding::Running;
        Ok(self.serving.pop())
    }

    /// It waits.
    pub(crate) fn wait(&mut self, standing: ProcessStanding)
        ensures { self.new ≡ record self.old { standing = standing } }
    {
        self.standing = standing;
    }

    /// It is over, and serves no call any more.
    pub(crate) fn end(&mut self, standing: ProcessStanding)
        ensures { self.new ≡ record self.old { standing = standing; serving = [] } }
    {
        self.standing = standing;
        self.serving.clear();
    }
}
