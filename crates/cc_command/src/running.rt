ghost use Rattle.std.specs.Prelude.{◌≡◌, ◌⊎◌, ℕ, List, [], Err, IfOk, IfErr, IsErrOf};
ghost use Rattle.std.specs.List.{AllPass};
ghost use Rattle.cc_command.specs.Outcomes.{RunsTo, RunsUntilOutOfMemory, RunsUntilThePrintFails};
ghost use Rattle.cc_command.specs.Statuses.{EndsSo};
ghost use Rattle.cc_command.specs.Texts.{MeansProgram};
ghost use Rattle.cc_pool.specs.Driven.{is_untimed};
ghost use Rattle.cc_rules.specs.Standing.{IsOver};
ghost use Rattle.cc_world.specs.Causes.{Rose};

use crate::cause::{Cause, Ending};
use cc_base::Bytes;
use cc_pool::{Stop, drive};
use cc_rules::{Faults, Journal, Standing};
use cc_source::Early;
use cc_world::Sink;
use std::alloc::Global;
use std::sync::Arc;

/// The most turns that a run takes.
const MOST_TURNS: u32 = 1_000_000;

/// How a run was answered, with the sink that it was given and its journal.
#[derive(Drop)]
pub(crate) struct Ran<K> {
    pub(crate) answer: Result<Ending, Cause>,
    pub(crate) out: K,
    pub(crate) journal: Journal,
}

/// What is left where no run began.
pub(crate) fn unbegun<K>(alloc: Global, cause: Cause, out: K) -> Ran<K>
    ensures answer { result.answer ≡ Err cause }
    ensures out { result.out ≡ out }
    ensures journal { result.journal.items ≡ [] }
{
    Ran {
        answer: Err(cause),
        out,
        journal: Journal::new(alloc),
    }
}

/// How a run ended that stands so, with these faults.
fn ending(standing: Standing, faults: Faults) -> Ending
    requires { IsOver standing }
    ensures { EndsSo result standing faults.items }
{
    match standing {
        Standing::Ended { faulted: true } => Ending::Faulted(faults),
        Standing::Ended { faulted: false } => Ending::Well,
        Standing::Stuck => Ending::Stuck,
        Standing::Spent => Ending::Spent,
        Standing::Going | Standing::Idle { .. } => unreachable!(),
    }
}

/// How a run is answered that stopped so.
fn answer(stop: Stop, standing: Standing, faults: Faults) -> Result<Ending, Cause>
    requires { stop ≡ Stop.Over → IsOver standing }
    ensures over { IfOk result (λ ending. stop ≡ Stop.Over) }
    ensures written { stop ≡ Stop.Write → IsErrOf result Cause.Write }
    ensures ending { IfOk result (λ ending. EndsSo ending standing faults.items) }
    ensures write { IsErrOf result Cause.Write → stop ≡ Stop.Write }
    ensures memory { IsErrOf result Cause.Memory → stop ≡ Stop.Memory }
    ensures only { IfErr result (λ cause. (cause ≡ Cause.Write) ⊎ (cause ≡ Cause.Memory)) }
{
    match stop {
        Stop::Over => Ok(ending(standing, faults)),
        Stop::Write => Err(Cause::Write),
        Stop::Memory => Err(Cause::Memory),
    }
}

/// Runs the program of a text.
pub(crate) fn run_program<K: Sink>(alloc: Global, program: &Arc<Early>, out: K) -> Ran<K>
    ensures done { IfOk result.answer (λ ending. (text : List ℕ) → MeansProgram text program.now.value → RunsTo program.now.value result.journal.items ending (K.held out) (K.held result.out)) }
    ensures well { IfOk result.answer (λ ending. (text : List ℕ) → MeansProgram text program.now.value → ending ≡ Ending.Well) }
    ensures write { IsErrOf result.answer Cause.Write → (text : List ℕ) → MeansProgram text program.now.value → RunsUntilThePrintFails program.now.value result.journal.items (K.held out) (K.held result.out) }
    ensures cause { IsErrOf result.answer Cause.Write → Rose (K.faults out) (K.faults result.out) }
    ensures memory { IsErrOf result.answer Cause.Memory → (text : List ℕ) → MeansProgram text program.now.value → RunsUntilOutOfMemory program.now.value result.journal.items (K.held out) (K.held result.out) }
    ensures spared { IsErrOf result.answer Cause.Write ⊎ (K.faults result.out ≡ K.faults out) }
    ensures only { IfErr result.answer (λ cause. (cause ≡ Cause.Write) ⊎ (cause ≡ Cause.Memory)) }
    ensures untimed { AllPass is_untimed result.journal.items }
{
    let ran = drive(alloc, program, Bytes::new(alloc), MOST_TURNS, out);
    Ran {
        answer: answer(ran.stop, ran.standing, ran.faults),
        out: ran.out,
        journal: ran.journal,
    }
}
