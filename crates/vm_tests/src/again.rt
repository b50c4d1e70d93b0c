//! A process that asks again and again, at once.
ghost use Rattle.std.specs.Prelude.{◌≡◌, true};
ghost use Rattle.cc_base.specs.Grants.{Answers};
ghost use Rattle.cc_base.specs.Meaning.{Meaning};
ghost use Rattle.cc_base.specs.declared.request.Grant.TheVariants.{Go};
ghost use Rattle.vm_tests.specs.Again.{MayGo};

use cc_base::{Behave, Cells, Grant, Memory, Request};
use std::alloc::Global;
use std::sync::Arc;

/// Whether it is a print or a delay, which `Go` answers.
fn is_answered(request: &Request) -> bool
    ensures { result ≡ true → (m : Meaning) → Answers m request.now Go }
{
    matches!(request, Request::Print { .. } | Request::Delay { .. })
}

/// Whether a process asks for a print or a delay so many times, one after the other, each time as soon as it may go on.
fn asks_on<B: Behave>(process: &mut B::Proc, alloc: Global, times: u32) -> Result<bool, Memory>
    requires next { MayGo B.means B.at process.old }
{
    for _ in 0..times {
        let request = B::go(process, alloc, Grant::Go)?;
        if !is_answered(&request) {
            return Ok(false);
        }
    }
    Ok(true)
}

/// Whether `main` does.
pub fn asks_again<B: Behave>(alloc: Global, program: B, times: u32) -> Result<bool, Memory> {
    let program = Arc::new(alloc, program)?;
    let mut process = B::start(&program, alloc, 0, Cells::new(alloc))?;
    asks_on::<B>(&mut process, alloc, times)
}
