ghost use Rattle.std.specs.Prelude.{◌≡◌};

use crate::clock::Clock;

/// A clock that stands until it is told to rest, and then shows that moment, or its own where that is later.
#[derive(Debug, Drop)]
pub struct StepClock {
    at: u64,
}

impl StepClock {
    ghost use Rattle.cc_world.specs.StepClock.{moment_of};

    /// A clock that shows this moment, in milliseconds.
    pub fn new(at: u64) -> StepClock
        ensures { moment_of result ≡ at }
    {
        StepClock { at }
    }
}

impl Clock for StepClock {
    ghost use Rattle.cc_world.specs.StepClock.{moment_of};
    ghost use Rattle.std.specs.Prelude.{None, Some};

    ghost given = { λ _. None };

    ghost rests = { λ _. None };

    ghost at = { λ c. Some (moment_of c) };

    fn now(&mut self) -> u64 {
        self.at
    }

    fn rest(&mut self, until: u64) {
        self.at = self.at.max(until);
    }
}
