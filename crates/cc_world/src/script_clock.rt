ghost use Rattle.std.specs.Prelude.{◌≡◌, ◌<◌, [], length, Some};

use crate::clock::Clock;
use crate::moments::Moments;

/// A clock that answers the moments of a list one after the other, and then its last one for ever. To rest is only counted. It tells
/// its answers and its rests until one of the two counts stands at the last number of 64 bits, and nothing from then on.
#[derive(Debug, Drop)]
pub struct ScriptClock {
    script: Moments,
    answers: u64,
    rests: u64,
    ghost some: { 0 < length script },
}

impl ScriptClock {
    ghost use Rattle.cc_world.specs.ScriptClock.{answers_of, rests_of};

    /// A clock that answers these moments, in milliseconds, of which there is at least one.
    pub fn new(script: Moments) -> ScriptClock
        requires { 0 < length script }
        ensures answers { answers_of result ≡ Some [] }
        ensures rests { rests_of result ≡ Some 0 }
    {
        ScriptClock {
            script,
            answers: 0,
            rests: 0,
        }
    }
}

impl Clock for ScriptClock {
    ghost use Rattle.cc_world.specs.ScriptClock.{answers_of, rests_of};
    ghost use Rattle.std.specs.Prelude.{None};

    ghost given = { λ c. answers_of c };

    ghost rests = { λ c. rests_of c };

    ghost at = { λ _. None };

    fn now(&mut self) -> u64 {
        let last = self.script.len() - 1;
        let at = last.min(self.answers as usize);
        self.answers = self.answers.saturating_add(1);
        match self.script.get(at) {
            Some(moment) => moment,
            None => 0,
        }
    }

    fn rest(&mut self, _until: u64) {
        self.rests = self.rests.saturating_add(1);
    }
}
