ghost use Rattle.std.specs.Prelude.{◌≡◌};
ghost use Rattle.cc_command.specs.Statuses.{status_for, status_in, status_of};

use crate::cause::{Cause, Ending};

fn ending_status(ending: &Ending) -> u8
    ensures { result ≡ status_in ending.now }
{
    match ending {
        Ending::Well => 0,
        Ending::Faulted(_) => 3,
        Ending::Stuck => 4,
        Ending::Spent => 5,
    }
}

fn cause_status(cause: &Cause) -> u8
    ensures { result ≡ status_for cause.now }
{
    match cause {
        Cause::Usage => 1,
        Cause::Text(_) => 2,
        Cause::Shelf => 6,
        Cause::Write => 8,
        Cause::Memory => 9,
    }
}

/// The status of an answer.
pub(crate) fn status_number(answer: &Result<Ending, Cause>) -> u8
    ensures { result ≡ status_of answer.now }
{
    match answer {
        Ok(ending) => ending_status(ending),
        Err(cause) => cause_status(cause),
    }
}
