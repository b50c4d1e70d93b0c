//! The deadlines that stand, with how many there are at most.
ghost use Rattle.std.specs.Prelude.{◌≡◌, [], ◌≤◌, ◌<◌, All, IfNone, IfSome, MatchOption, OnErr, OnOk, true, length, ℕ};
ghost use Rattle.cc_kernel.specs.Timed.{stands_in, with_some, without_some};
ghost use Rattle.cc_rules.specs.Effects.{deadline_after};
ghost use Rattle.cc_timer.specs.Deadlines.{IsFirst, with_deadline, without_deadline};
ghost use Rattle.cc_timer.specs.declared.who.Who.{Who};

use cc_base::Memory;
use cc_timer::{Timers, Who};
use std::alloc::Global;
use std::marker::Model;

/// The deadlines that stand, each a moment in milliseconds and who waits for it, with room for more.
#[derive(Drop)]
pub struct Deadlines {
    timers: Timers,
    // no more deadlines stand than this
    count: u32,
    spare: u32,
}

impl Model for Deadlines {
    ghost use Rattle.std.specs.Prelude.{◌≤◌, ◌+◌, length};
    ghost use Rattle.cc_kernel.specs.Timed.{DeadlineList};

    ghost Value = { DeadlineList };

    ghost view = { λ d. record { pairs = d.timers.pairs; spare = d.spare } };

    ghost invariant = { λ d. (length d.timers.pairs ≤ d.count) × (d.count + d.spare ≤ 4294967295) × (d.spare ≤ d.timers.spare) };
}

impl Deadlines {
    pub(crate) fn new(alloc: Global) -> Deadlines
        ensures { result.pairs ≡ [] }
    {
        Deadlines {
            timers: Timers::new(alloc),
            count: 0,
            spare: 0,
        }
    }

    /// Makes room for one more. After an error nothing has changed.
    pub(crate) fn reserve_one(&mut self) -> Result<(), Memory>
        ensures pairs { self.new.pairs ≡ self.old.pairs }
        ensures ok { OnOk result (0 < self.new.spare) }
        ensures spare { self.old.spare ≤ self.new.spare }
    {
        if self.spare > 0 {
            return Ok(());
        }
        if self.count == u32::MAX {
            return Err(Memory);
        }
        self.timers.reserve(1)?;
        self.spare = 1;
        Ok(())
    }

    /// At most so many deadlines stand.
    pub(crate) fn count(&self) -> usize
        ensures most { length self.now.pairs ≤ result }
        ensures few { result ≤ 4294967295 }
    {
        self.count as usize
    }

    /// Adds the deadline, in the room that was made before.
    pub(crate) fn add(&mut self, moment: u64, who: Who)
        requires { 0 < self.old.spare }
        ensures { self.new.pairs ≡ with_deadline (moment, who) self.old.pairs }
    {
        self.timers.add(moment, who);
        self.count += 1;
        self.spare -= 1;
    }

    /// Takes the deadline out, which stands. All others stay.
    pub(crate) fn remove(&mut self, moment: u64, who: Who)
        requires { stands_in self.old.pairs moment who ≡ true }
        ensures pairs { self.new.pairs ≡ without_deadline (moment, who) self.old.pairs }
        ensures spare { self.new.spare ≡ self.old.spare }
    {
        self.timers.remove(moment, who);
        self.count -= 1;
    }

    /// Adds the deadline, where there is one, in the room that was made before.
    pub(crate) fn add_some(&mut self, moment: Option<u64>, who: Who)
        requires { 0 < self.old.spare }
        ensures { self.new.pairs ≡ with_some moment who self.old.pairs }
    {
        if let Some(moment) = moment {
            self.add(moment, who);
        }
    }

    /// Takes the deadline out, where there is one, which stands then. All others stay.
    pub(crate) fn remove_some(&mut self, moment: Option<u64>, who: Who)
        requires { IfSome moment (λ n. stands_in self.old.pairs n who ≡ true) }
        ensures pairs { self.new.pairs ≡ without_some moment who self.old.pairs }
        ensures spare { self.new.spare ≡ self.old.spare }
    {
        if let Some(moment) = moment {
            self.remove(moment, who);
        }
    }

    /// Who waits for the first deadline, where its moment has come; none exactly where no moment has.
    pub(crate) fn first_due(&self, now: u64) -> Option<Who>
        ensures none { IfNone result (All (λ d. now < d.0) self.now.pairs) }
        ensures first { IfSome result (λ who. (moment : ℕ) × (moment ≤ now) × IsFirst (moment, who) self.now.pairs) }
    {
        self.timers.first_due(now)
    }

    /// The earliest moment; none exactly where no deadline stands.
    pub(crate) fn earliest(&self) -> Option<u64>
        ensures { MatchOption result (self.now.pairs ≡ []) (λ moment. (who : Who) × IsFirst (moment, who) self.now.pairs) }
    {
        self.timers.earliest()
    }
}

/// The deadline of what was asked at this moment, in milliseconds, at most the greatest number of 64 bits.
pub(crate) fn deadline_after(moment: u64, wait: i64) -> u64
    ensures { result ≡ deadline_after moment wait }
{
    if wait < 0 {
        moment
    } else {
        moment.saturating_add(wait as u64)
    }
}
