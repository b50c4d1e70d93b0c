//! Programs that follow a table and may wait, also for measurements.
ghost use Rattle.std.specs.Prelude.{◌≡◌, Bool, [], ◌∷◌, IfOk};
ghost use Rattle.kernel_tests.specs.Delays.{timed_alternatives_of, waiting_request_of};
ghost use Rattle.kernel_tests.specs.Tables.{trans_of};

use crate::tables::{Script, Step, accept, one_cell, request, two};
use cc_base::{Alt, Alts, Behave, Bytes, Cells, Grant, Memory, Pid, Request, Shape};
use cc_kernel::Kernel;
use cc_rules::{Journal, Standing, Word};
use std::alloc::Global;
use std::sync::Arc;

/// A program that follows these steps, and waits where one says so.
#[derive(Drop)]
pub struct Waiting {
    pub script: Script,
}

/// A process that follows its steps.
#[derive(Drop)]
pub struct Waiter {
    code: Arc<Waiting>,
    kind: u32,
    asked: usize,
}

// A select of three alternatives.
fn three(alloc: Global, first: Alt, second: Alt, third: Alt) -> Result<Alts, Memory>
    ensures { IfOk result (λ alts. alts ≡ (0, first) ∷ (1, second) ∷ (2, third) ∷ []) }
{
    let mut alts = two(alloc, first, second)?;
    alts.push((2, third))?;
    Ok(alts)
}

// The alternatives of a select.
fn alternatives(alloc: Global, number: u8, trans: u32, wait: i64) -> Result<Alts, Memory>
    ensures { (second : Bool) → trans ≡ trans_of second → IfOk result (λ alts. alts ≡ timed_alternatives_of number second wait) }
{
    let after = Alt::After { wait };
    match number {
        0 => {
            let mut alts = Alts::new(alloc);
            alts.push((0, accept(alloc, trans)))?;
            Ok(alts)
        }
        1 => two(alloc, accept(alloc, trans), after),
        2 => three(alloc, accept(alloc, trans), after, Alt::Terminate),
        _ => three(alloc, Alt::After { wait: 7 }, after, Alt::After { wait }),
    }
}

fn waiting_request(alloc: Global, step: Step) -> Result<Request, Memory>
    ensures { IfOk result (λ r. r ≡ waiting_request_of step.0 step.1 step.2 step.3) }
{
    let (word, number, second, cell) = step;
    let trans = if second { 1 } else { 0 };
    match word {
        Word::Delay => Ok(Request::Delay { wait: cell }),
        Word::TimedCall => Ok(Request::TimedCall {
            target: Pid(number as u32),
            trans,
            args: one_cell(alloc, cell)?,
            wait: cell,
        }),
        Word::Select => Ok(Request::Select {
            alts: alternatives(alloc, number, trans, cell)?,
        }),
        _ => request(alloc, step),
    }
}

impl Behave for Waiting {
    type Proc = Waiter;

    ghost use Rattle.std.specs.Prelude.{◌≡◌, min, length};
    ghost use Rattle.kernel_tests.specs.lemmas.Delays.{waiting_has_sites, waiting_well_formed};
    ghost use Rattle.kernel_tests.specs.Delays.{waiting};
    ghost use Rattle.kernel_tests.specs.Tables.{steps_of};

    ghost means = { λ s. waiting s.script.main.items s.script.first.items s.script.second.items };

    ghost sites = { λ s. 2 };

    ghost at = { λ s a kind args grants. (a.code.value ≡ s) × (a.kind ≡ kind) × (a.asked ≡ min (length grants) (length (steps_of s.script.main.items s.script.first.items s.script.second.items kind))) };

    ghost well_formed = { λ s. waiting_well_formed s.script.main.items s.script.first.items s.script.second.items };

    ghost has_sites = { λ s. waiting_has_sites s.script.main.items s.script.first.items s.script.second.items };

    fn start(
        this: &Arc<Waiting>,
        _alloc: Global,
        kind: u32,
        _args: Cells,
    ) -> Result<Waiter, Memory> {
        let code = Arc::try_clone(this)?;
        Ok(Waiter {
            code,
            kind,
            asked: 0,
        })
    }

    fn go(this: &mut Waiter, alloc: Global, _grant: Grant) -> Result<Request, Memory> {
        let Some(step) = this.code.script.step(this.kind, this.asked) else {
            return Ok(Request::Done);
        };
        let request = waiting_request(alloc, step)?;
        this.asked += 1;
        Ok(request)
    }

    fn fit(&self, site: u32, _env: &Cells, args: &Cells) -> Option<i64> {
        match site {
            0 => Some(0),
            1 => args.get(0),
            _ => None,
        }
    }

    fn shape(&self, _trans: u32) -> Shape {
        Shape {
            is_async: false,
            args: 1,
            value: 1,
        }
    }
}

/// Where no process is running, it is this moment.
pub(crate) fn tell_idle<B: Behave>(kernel: &mut Kernel<B>, moment: u64) -> Result<(), Memory> {
    let Standing::Idle { until: _until } = kernel.state() else {
        return Ok(());
    };
    if !kernel.time_allowed(moment) {
        return Ok(());
    }
    kernel.prepare(None)?;
    kernel.at_moment(moment);
    Ok(())
}

// A process that is ready goes on; where none is running, it is the moment of the least deadline. False where the run goes no further.
fn go_on<B: Behave>(kernel: &mut Kernel<B>, alloc: Global) -> Result<bool, Memory> {
    if let Standing::Idle { until } = kernel.state() {
        tell_idle(kernel, until)?;
        return Ok(true);
    }
    let Some((pid, mut process, grant)) = kernel.pick() else {
        return Ok(false);
    };
    let request = B::go(&mut process, alloc, grant)?;
    kernel.prepare(Some(&request))?;
    let _printed = kernel.commit(pid, process, request);
    Ok(true)
}

/// The journal of a run of at most so many turns that takes no longer than it waits.
pub fn run_waiting(alloc: Global, script: Script, turns: u32) -> Result<Journal, Memory> {
    let code = Arc::new(alloc, Waiting { script })?;
    let mut kernel = Kernel::open(alloc, code, Bytes::new(alloc), turns)?;
    for _ in 0..turns {
        if !go_on(&mut kernel, alloc)? {
            break;
        }
    }
    let (journal, _faults) = kernel.into_journal();
    Ok(journal)
}
