ghost use Rattle.std.specs.Prelude.{◌≡◌, ◌≤◌, ◌⊎◌, ℕ, List, [], false, OnOk, OnErr, IfOk, IfErr, IsErrOf};
ghost use Rattle.std.specs.List.{AllPass};
ghost use Rattle.cc_base.specs.Meaning.{Meaning};
ghost use Rattle.cc_kernel.specs.Untimed.{AsksNoDeadline};
ghost use Rattle.cc_kernel.specs.Contract.{IsOutWith, IsPreparedFor, SomeRunning};
ghost use Rattle.cc_rules.specs.Standing.{standing_of};
ghost use Rattle.cc_pool.specs.Driven.{GoesOn, GoesToItsEnd, IsRunOf, NoneOut, OnlyOut, StopsAtTheSink, StopsForMemory, is_untimed};
ghost use Rattle.cc_rules.specs.Ends.{is_complete};
ghost use Rattle.cc_rules.specs.Events.{request_at};
ghost use Rattle.cc_rules.specs.Runs.{printed, state_after, turns};
ghost use Rattle.cc_rules.specs.declared.event.Standing.TheVariants.{Going};
ghost use Rattle.cc_world.specs.Causes.{Rose};
ghost use Rattle.cc_world.specs.Told.{GrewBy, GrewByPart};

use crate::driven::{Driven, Stop};
use cc_base::{Behave, Bytes, Memory, Pid, Request};
use cc_kernel::Kernel;
use cc_rules::{Faults, Journal, Standing};
use cc_world::{IoFault, Sink, write_all};
use std::alloc::Global;
use std::sync::Arc;

/// Why a run was cut short.
#[derive(Clone, Copy, Debug, Drop, PartialEq, Eq)]
enum Cut {
    /// The sink failed.
    Write,
    /// It was out of memory.
    Memory,
}

/// Takes a process out that is ready, and lets it ask. All memory of its step is taken.
fn take_asking<B: Behave>(
    alloc: Global,
    kernel: &mut Kernel<B>,
) -> Result<(Pid, B::Proc, Request), Memory>
    requires going { standing_of (B.means kernel.old.code) kernel.old.input kernel.old.journal kernel.old.turns ≡ Going }
    requires running { SomeRunning (B.means kernel.old.code) kernel.old.input kernel.old.journal }
    requires inside { NoneOut kernel.old.outs }
    ensures code { kernel.new.code ≡ kernel.old.code }
    ensures input { kernel.new.input ≡ kernel.old.input }
    ensures turns { kernel.new.turns ≡ kernel.old.turns }
    ensures journal { kernel.new.journal ≡ kernel.old.journal }
    ensures asks { IfOk result (λ r. r.2 ≡ request_at (B.means kernel.old.code) (state_after (B.means kernel.old.code) kernel.old.input kernel.old.journal) r.0) }
    ensures out { IfOk result (λ r. IsOutWith (B.means kernel.old.code) (B.at kernel.old.code) kernel.old.input kernel.old.journal kernel.new.outs r.0.0 r.1) }
    ensures others { IfOk result (λ r. OnlyOut kernel.new.outs r.0.0) }
    ensures prepared { IfOk result (λ r. IsPreparedFor kernel.new r.2) }
{
    let Some((pid, mut process, grant)) = kernel.pick() else {
        unreachable!()
    };
    let request = B::go(&mut process, alloc, grant)?;
    kernel.prepare(Some(&request))?;
    Ok((pid, process, request))
}

/// One process asks, the machine settles, and what is printed is put into the sink.
fn step<B: Behave, K: Sink>(alloc: Global, kernel: &mut Kernel<B>, out: &mut K) -> Result<(), Cut>
    requires going { standing_of (B.means kernel.old.code) kernel.old.input kernel.old.journal kernel.old.turns ≡ Going }
    requires running { SomeRunning (B.means kernel.old.code) kernel.old.input kernel.old.journal }
    requires inside { NoneOut kernel.old.outs }
    ensures code { kernel.new.code ≡ kernel.old.code }
    ensures input { kernel.new.input ≡ kernel.old.input }
    ensures turns { kernel.new.turns ≡ kernel.old.turns }
    ensures inside { OnOk result (NoneOut kernel.new.outs) }
    ensures within { OnOk result (turns kernel.new.journal ≤ kernel.new.turns) }
    ensures done { OnOk result ((bytes : List ℕ) × GoesOn (B.means kernel.old.code) kernel.old.input kernel.old.journal kernel.new.journal bytes × GrewBy (K.held out.old) (K.held out.new) bytes) }
    ensures write { IsErrOf result Cut.Write → (bytes : List ℕ) × GoesOn (B.means kernel.old.code) kernel.old.input kernel.old.journal kernel.new.journal bytes × GrewByPart (K.held out.old) (K.held out.new) bytes }
    ensures cause { IsErrOf result Cut.Write → Rose (K.faults out.old) (K.faults out.new) }
    ensures memory { IsErrOf result Cut.Memory → (kernel.new.journal ≡ kernel.old.journal) × (K.held out.new ≡ K.held out.old)
        ⊎ ((bytes : List ℕ) × GoesOn (B.means kernel.old.code) kernel.old.input kernel.old.journal kernel.new.journal bytes × GrewByPart (K.held out.old) (K.held out.new) bytes) }
    ensures spared { IsErrOf result Cut.Write ⊎ (K.faults out.new ≡ K.faults out.old) }
    ensures later { K.faults out.old ≤ K.faults out.new }
{
    let Ok((pid, process, request)) = take_asking(alloc, kernel) else {
        return Err(Cut::Memory);
    };
    let bytes = kernel.commit(pid, process, request);
    match write_all(out, bytes.as_slice()) {
        Ok(()) => Ok(()),
        Err(IoFault::Failed) => Err(Cut::Write),
        Err(IoFault::Memory) => Err(Cut::Memory),
    }
}

/// Lets processes take turns until the run goes no further.
fn run_on<B: Behave, K: Sink>(alloc: Global, kernel: &mut Kernel<B>, out: &mut K) -> Stop
    requires new { kernel.old.journal ≡ [] }
    requires inside { NoneOut kernel.old.outs }
    requires no_deadline { AsksNoDeadline (B.means kernel.old.code) }
    ensures code { kernel.new.code ≡ kernel.old.code }
    ensures input { kernel.new.input ≡ kernel.old.input }
    ensures turns { kernel.new.turns ≡ kernel.old.turns }
    ensures over { result ≡ Stop.Over → GoesToItsEnd (B.means kernel.old.code) kernel.old.input kernel.new.journal (standing_of (B.means kernel.old.code) kernel.old.input kernel.new.journal kernel.old.turns) (K.held out.old) (K.held out.new) }
    ensures write { result ≡ Stop.Write → StopsAtTheSink (B.means kernel.old.code) kernel.old.input kernel.new.journal (K.held out.old) (K.held out.new) }
    ensures cause { result ≡ Stop.Write → Rose (K.faults out.old) (K.faults out.new) }
    ensures memory { result ≡ Stop.Memory → StopsForMemory (B.means kernel.old.code) kernel.old.input kernel.new.journal (K.held out.old) (K.held out.new) }
    ensures untimed { AllPass is_untimed kernel.new.journal }
    ensures spared { (result ≡ Stop.Write) ⊎ (K.faults out.new ≡ K.faults out.old) }
    ensures later { K.faults out.old ≤ K.faults out.new }
{
    while kernel.state() == Standing::Going {
        match step(alloc, kernel, out) {
            Ok(()) => {}
            Err(Cut::Write) => return Stop::Write,
            Err(Cut::Memory) => return Stop::Memory,
        }
    }
    Stop::Over
}

/// A run that was out of memory before it began.
fn unbegun<K>(alloc: Global, turns: u32, out: K) -> Driven<K>
    ensures out { result.out ≡ out }
    ensures journal { result.journal.items ≡ [] }
    ensures faults { result.faults.items ≡ [] }
    ensures standing { (m : Meaning) (input : List ℕ) → result.standing ≡ standing_of m input [] turns }
    ensures stop { result.stop ≡ Stop.Memory }
{
    Driven {
        out,
        journal: Journal::new(alloc),
        faults: Faults::new(alloc),
        standing: if turns == 0 {
            Standing::Spent
        } else {
            Standing::Going
        },
        stop: Stop::Memory,
    }
}

/// Runs the program on this input, with at most so many turns, until the run goes no further, and puts what it prints into
/// the sink.
///
/// The journal is a settled run of the machine on the program. `Over`: the run came to its end, is stuck or has used up
/// its turns, and the sink took exactly what it prints. `Write`: the sink failed, in the Print of the last turn, and took
/// all that was printed before and a proper first part of that Print. `Memory`: the same in the last Print, or between two
/// turns, when the sink took exactly what the run prints. After `Write` and `Memory` the run isn't complete.
pub fn drive<B: Behave, K: Sink>(
    alloc: Global,
    code: &Arc<B>,
    input: Bytes,
    turns: u32,
    out: K,
) -> Driven<K>
    requires no_deadline { AsksNoDeadline (B.means code.now.value) }
    ensures run { IsRunOf (B.means code.now.value) input turns result.journal.items result.faults.items result.standing }
    ensures over { result.stop ≡ Stop.Over → GoesToItsEnd (B.means code.now.value) input result.journal.items result.standing (K.held out) (K.held result.out) }
    ensures write { result.stop ≡ Stop.Write → StopsAtTheSink (B.means code.now.value) input result.journal.items (K.held out) (K.held result.out) }
    ensures incomplete { (result.stop ≡ Stop.Over) ⊎ (is_complete (state_after (B.means code.now.value) input result.journal.items) ≡ false) }
    ensures cause { result.stop ≡ Stop.Write → Rose (K.faults out) (K.faults result.out) }
    ensures memory { result.stop ≡ Stop.Memory → StopsForMemory (B.means code.now.value) input result.journal.items (K.held out) (K.held result.out) }
    ensures untimed { AllPass is_untimed result.journal.items }
    ensures spared { (result.stop ≡ Stop.Write) ⊎ (K.faults result.out ≡ K.faults out) }
    ensures later { K.faults out ≤ K.faults result.out }
{
    let mut out = out;
    let Ok(mut kernel) = opened(alloc, code, input, turns) else {
        return unbegun(alloc, turns, out);
    };
    let stop = run_on(alloc, &mut kernel, &mut out);
    let standing = kernel.state();
    let (journal, faults) = kernel.into_journal();
    Driven {
        out,
        journal,
        faults,
        standing,
        stop,
    }
}

/// A kernel with no event yet.
fn opened<B: Behave>(
    alloc: Global,
    code: &Arc<B>,
    input: Bytes,
    turns: u32,
) -> Result<Kernel<B>, Memory>
    ensures code { IfOk result (λ k. k.code ≡ code.now.value) }
    ensures input { IfOk result (λ k. k.input ≡ input) }
    ensures turns { IfOk result (λ k. k.turns ≡ turns) }
    ensures journal { IfOk result (λ k. k.journal ≡ []) }
    ensures inside { IfOk result (λ k. NoneOut k.outs) }
{
    let code = Arc::try_clone(code)?;
    Kernel::open(alloc, code, input, turns)
}
