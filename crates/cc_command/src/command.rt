ghost use Rattle.std.specs.Prelude.{◌≡◌, ◌≤◌, ◌↔◌, ◌⊎◌, ℕ, List, [], ◌∷◌, None, Some, IfOk, IfErr, IfSome, IsErrOf, Contains};
ghost use Rattle.std.specs.List.{AllPass};
ghost use Rattle.std.specs.FinMap as map;
ghost use Rattle.cc_base.specs.declared.names.Place.{Place};
ghost use Rattle.cc_typed.specs.Parts.{Parts};
ghost use Rattle.cc_command.specs.Asked.{file_asked};
ghost use Rattle.cc_command.specs.Outcomes.{faults_of, FileHasFault, FileMeans, HoldsProgram, ReportsFault, RunsAsFarAsItGoes, RunsTo, RunsUntilOutOfMemory, RunsUntilThePrintFails, TellsNone, TellsText};
ghost use Rattle.cc_command.specs.Reports.{fault_line, line_of, run_report};
ghost use Rattle.cc_command.specs.Statuses.{IfText, IsRefused};
ghost use Rattle.cc_command.specs.Texts.{HasFault, MeansProgram};
ghost use Rattle.cc_command.specs.declared.text_fault.TextFaultKind.{TextFaultKind};
ghost use Rattle.cc_pool.specs.Driven.{is_untimed};
ghost use Rattle.cc_world.specs.Causes.{Rose};
ghost use Rattle.cc_world.specs.Shelf.{FailedMore};
ghost use Rattle.cc_world.specs.Told.{Reported};
ghost use Rattle.cc_world.specs.declared.fault.ShelfCall.{ShelfCall};

use crate::cause::{Cause, Ending};
use crate::report::report;
use crate::running::{Ran, run_program, unbegun};
use crate::status::status_number;
use crate::text::{MOST_TEXT_BYTES, read_program};
use crate::text_fault::ReadError;
use crate::words::{Words, asked_file};
use cc_rules::Journal;
use cc_source::Early;
use cc_world::{Clock, IoFault, Shelf, Sink, Source};
use std::alloc::Global;
use std::sync::Arc;

/// The program in an `Arc`, so that its processes can share it.
fn shared(alloc: Global, program: Early) -> Result<Arc<Early>, Cause>
    ensures program { IfOk result (λ shared. shared.value ≡ program) }
    ensures only { IfErr result (λ cause. cause ≡ Cause.Memory) }
{
    match Arc::new(alloc, program) {
        Ok(program) => Ok(program),
        Err(_) => Err(Cause::Memory),
    }
}

/// Reads the program in a file.
fn load<H: Shelf>(alloc: Global, shelf: &mut H, file: &str) -> Result<Arc<Early>, Cause>
    ensures program { IfOk result (λ program. FileMeans (H.files shelf.old) file.now program.value) }
    ensures text { IfText result (λ place kind. FileHasFault (H.files shelf.old) file.now place kind) }
    ensures shelf { IsErrOf result Cause.Shelf → FailedMore ShelfCall.Read file.now (H.failed shelf.old) (H.failed shelf.new) }
    ensures noted { IsErrOf result Cause.Shelf ⊎ (H.failed shelf.new ≡ H.failed shelf.old) }
    ensures same { H.files shelf.new ≡ H.files shelf.old }
    ensures usage { ¬ IsErrOf result Cause.Usage }
    ensures write { ¬ IsErrOf result Cause.Write }
{
    let text = match shelf.read(file, MOST_TEXT_BYTES + 1) {
        Ok(text) => text,
        Err(IoFault::Failed) => return Err(Cause::Shelf),
        Err(IoFault::Memory) => return Err(Cause::Memory),
    };
    match read_program(alloc, text.as_slice()) {
        Ok(program) => shared(alloc, program),
        Err(ReadError::Fault(fault)) => Err(Cause::Text(fault)),
        Err(ReadError::Memory) => Err(Cause::Memory),
    }
}

/// Runs the program in the file that the words name.
fn run_file<H: Shelf, K: Sink>(alloc: Global, words: &Words, shelf: &mut H, out: K) -> Ran<K>
    ensures usage { IsErrOf result.answer Cause.Usage → file_asked words.now ≡ None }
    ensures refused { file_asked words.now ≡ None → IsErrOf result.answer Cause.Usage }
    ensures done { IfOk result.answer (λ ending. IfSome (file_asked words.now) (λ file.
        HoldsProgram (H.files shelf.old) file (λ program. RunsTo program result.journal.items ending (K.held out) (K.held result.out)))) }
    ensures well { IfOk result.answer (λ ending. ending ≡ Ending.Well) }
    ensures text { IfText result.answer (λ place kind. IfSome (file_asked words.now) (λ file. FileHasFault (H.files shelf.old) file place kind)) }
    ensures shelf { IsErrOf result.answer Cause.Shelf → IfSome (file_asked words.now) (λ file. FailedMore ShelfCall.Read file (H.failed shelf.old) (H.failed shelf.new)) }
    ensures write { IsErrOf result.answer Cause.Write → IfSome (file_asked words.now) (λ file.
        HoldsProgram (H.files shelf.old) file (λ program. RunsUntilThePrintFails program result.journal.items (K.held out) (K.held result.out))) }
    ensures sink { IsErrOf result.answer Cause.Write → Rose (K.faults out) (K.faults result.out) }
    ensures memory { IsErrOf result.answer Cause.Memory → (result.journal.items ≡ []) × (K.held result.out ≡ K.held out)
        ⊎ IfSome (file_asked words.now) (λ file.
        HoldsProgram (H.files shelf.old) file (λ program. RunsUntilOutOfMemory program result.journal.items (K.held out) (K.held result.out))) }
    ensures spared { IsErrOf result.answer Cause.Write ⊎ (K.faults result.out ≡ K.faults out) }
    ensures unbegun { IsRefused result.answer → result.journal.items ≡ [] }
    ensures untouched { IsRefused result.answer → result.out ≡ out }
    ensures untimed { AllPass is_untimed result.journal.items }
    ensures noted { IsErrOf result.answer Cause.Shelf ⊎ (H.failed shelf.new ≡ H.failed shelf.old) }
    ensures same { H.files shelf.new ≡ H.files shelf.old }
{
    let Some(file) = asked_file(words) else {
        return unbegun(alloc, Cause::Usage, out);
    };
    match load(alloc, shelf, file) {
        Ok(program) => run_program(alloc, &program, out),
        Err(cause) => unbegun(alloc, cause, out),
    }
}

/// How a command ended, with the output and the clock that it was given and the journal of the run.
#[derive(Drop)]
pub struct Finished<K, C> {
    /// 0: every process came to its end. 1: the words are not `run FILE`. 2: the text has a fault. 3: every process came to its
    /// end, some by a fault. 4: no process can go on. 5: the allowed turns are used up. 6: the file could not be read. 8: the
    /// output failed. 9: out of memory.
    pub status: u8,
    pub out: K,
    pub clock: C,
    /// The events of the run; none where no run began.
    pub journal: Journal,
}

/// Runs the command that the words ask for: `run FILE` runs the program in that file.
///
/// The program prints to `out`, and what is reported on `err` tells the cause of any status but 0. What is said of the file's
/// text holds where the shelf tells what it holds, and of some text where it doesn't.
/// The input and the clock are for programs that ask for them, and no program does yet.
#[tactic(auto, using(crate::proofs::Ends::is_usage, crate::proofs::Ends::is_shelf, crate::proofs::Ends::is_write, crate::proofs::Ends::is_memory))]
pub fn command_one<H: Shelf, S: Source, K: Sink, E: Sink, C: Clock>(
    alloc: Global,
    words: &Words,
    shelf: &mut H,
    input: &mut S,
    out: K,
    err: &mut E,
    clock: C,
) -> Finished<K, C>
    // 1: exactly where the words are not `run FILE`.
    ensures usage { (result.status ≡ 1) ↔ (file_asked words.now ≡ None) }

    // 2: only where the file's text has a fault, the first of which is reported.
    ensures first_fault { result.status ≡ 2 → IfSome (file_asked words.now) (λ file. ReportsFault (H.files shelf.old) file (λ line.
        Reported (E.held err.old) (E.held err.new) line (E.faults err.old) (E.faults err.new) (E.wants err.old) (E.wants err.new))) }

    // 0, 3, 4, 5: the program in the file ran as far as it goes, which the status tells, all that it prints was printed, and
    // the processes are reported that it has stopped.
    ensures headline { Contains (0 ∷ 3 ∷ 4 ∷ 5 ∷ []) result.status → IfSome (file_asked words.now) (λ file.
        HoldsProgram (H.files shelf.old) file (λ program.
        RunsAsFarAsItGoes program result.journal.items result.status (K.held out) (K.held result.out)
        × Reported (E.held err.old) (E.held err.new) (run_report result.status (faults_of program result.journal.items))
        (E.faults err.old) (E.faults err.new) (E.wants err.old) (E.wants err.new))) }

    // 6: only where the shelf's count of reads of the file rose; and no failed read is passed over.
    ensures shelf { result.status ≡ 6 → IfSome (file_asked words.now) (λ file. FailedMore ShelfCall.Read file (H.failed shelf.old) (H.failed shelf.new)) }
    ensures noted { (result.status ≡ 6) ⊎ (H.failed shelf.new ≡ H.failed shelf.old) }

    // 8: only where the output's count rose. The run was cut short in a Print.
    ensures sink { result.status ≡ 8 → Rose (K.faults out) (K.faults result.out) }
    ensures spared { (result.status ≡ 8) ⊎ (K.faults result.out ≡ K.faults out) }
    ensures write { result.status ≡ 8 → IfSome (file_asked words.now) (λ file.
        HoldsProgram (H.files shelf.old) file (λ program. RunsUntilThePrintFails program result.journal.items (K.held out) (K.held result.out))) }

    // 9: before a run began, or within one that isn't complete, between two turns or in a Print. A failed output is no cause of it,
    // nor of any status but 8.
    ensures memory { result.status ≡ 9 → (result.journal.items ≡ []) × (K.held result.out ≡ K.held out)
        ⊎ IfSome (file_asked words.now) (λ file.
        HoldsProgram (H.files shelf.old) file (λ program. RunsUntilOutOfMemory program result.journal.items (K.held out) (K.held result.out))) }

    // 1, 2, 6: no run began, and the output is as it was.
    ensures unbegun { Contains (1 ∷ 2 ∷ 6 ∷ []) result.status → result.journal.items ≡ [] }
    ensures untouched { Contains (1 ∷ 2 ∷ 6 ∷ []) result.status → result.out ≡ out }

    // Each program that is built so far ends well: there is no 3, 4 or 5.
    ensures known { Contains (0 ∷ 1 ∷ 2 ∷ 6 ∷ 8 ∷ 9 ∷ []) result.status }

    // The converse, out of memory apart: where the shelf tells the text of the file, the text decides, unless the shelf or the
    // output failed.
    ensures runs { (file text : List ℕ) (program : Parts) → file_asked words.now ≡ Some file → TellsText (H.files shelf.old) file text → MeansProgram text program
        → ¬ FailedMore ShelfCall.Read file (H.failed shelf.old) (H.failed shelf.new) → ¬ Rose (K.faults out) (K.faults result.out)
        → (result.status ≡ 0) ⊎ (result.status ≡ 9) }
    ensures refuses { (file text : List ℕ) → file_asked words.now ≡ Some file → TellsText (H.files shelf.old) file text → ((program : Parts) → ¬ MeansProgram text program)
        → ¬ FailedMore ShelfCall.Read file (H.failed shelf.old) (H.failed shelf.new)
        → (result.status ≡ 2) ⊎ (result.status ≡ 9) }
    ensures reports { (file text : List ℕ) (place : Place) (kind : TextFaultKind) → file_asked words.now ≡ Some file → TellsText (H.files shelf.old) file text
        → HasFault text place kind → ¬ FailedMore ShelfCall.Read file (H.failed shelf.old) (H.failed shelf.new)
        → (result.status ≡ 2) × Reported (E.held err.old) (E.held err.new) (fault_line place kind) (E.faults err.old) (E.faults err.new) (E.wants err.old) (E.wants err.new)
        ⊎ (result.status ≡ 9) }
    ensures absent { (file : List ℕ) → file_asked words.now ≡ Some file → TellsNone (H.files shelf.old) file → (result.status ≡ 6) ⊎ (result.status ≡ 9) }

    // No file is changed, nothing is taken from the input, and the clock is not asked.
    ensures files { H.files shelf.new ≡ H.files shelf.old }
    ensures input { input.new ≡ input.old }
    ensures clock { result.clock ≡ clock }
    ensures untimed { AllPass is_untimed result.journal.items }

    // The line of each other status, or a first part of it where a count of `err` rose; nothing for 0.
    ensures report { ¬ Contains (2 ∷ 3 ∷ []) result.status → Reported (E.held err.old) (E.held err.new) (line_of result.status)
        (E.faults err.old) (E.faults err.new) (E.wants err.old) (E.wants err.new) }
    ensures silent { result.status ≡ 0 → err.new ≡ err.old }
{
    let ran = run_file(alloc, words, shelf, out);
    report(err, &ran.answer);
    Finished {
        status: status_number(&ran.answer),
        out: ran.out,
        clock,
        journal: ran.journal,
    }
}
