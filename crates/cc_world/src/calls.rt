ghost use Rattle.std.specs.Prelude.{◌≡◌, ◌↔◌, pos, Contains, IsTrue};
ghost use Rattle.cc_world.specs.Calls.{counted, FailsNext, none_made};

use cc_base::Cells;

/// The numbers of the calls that are to fail, from 1, and how many calls were made.
#[derive(Drop)]
pub(crate) struct Calls {
    failing: Cells,
    made: u64,
}

impl Calls {
    pub fn new(failing: Cells) -> Calls
        ensures { result ≡ none_made failing }
    {
        Calls { failing, made: 0 }
    }

    /// Counts a call, and tells whether it is to fail.
    pub fn next_fails(&mut self) -> bool
        ensures listed { IsTrue result ↔ FailsNext self.old }
        ensures counted { self.new ≡ counted self.old }
    {
        self.made = self.made.saturating_add(1);
        is_listed(&self.failing, self.made)
    }
}

fn is_listed(numbers: &Cells, call: u64) -> bool
    ensures { IsTrue result ↔ Contains numbers.now (pos call) }
{
    for at in 0..numbers.len() {
        if let Some(number) = numbers.get(at) {
            if u64::try_from(number) == Ok(call) {
                return true;
            }
        }
    }
    false
}
