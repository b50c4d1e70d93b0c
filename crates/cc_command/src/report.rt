ghost use Rattle.std.specs.Prelude.{◌≡◌, ◌<◌, length, slice_get, Some};
ghost use Rattle.cc_command.specs.ProcessFaults.{fault_name};
ghost use Rattle.cc_command.specs.Reports.{bytes_of, fault_line, line_of, process_line, process_lines, Wrote};
ghost use Rattle.cc_command.specs.Statuses.{report_for, report_in, report_of, status_of};
ghost use Rattle.cc_world.specs.Told.{Reported};

use crate::cause::{Cause, Ending};
use crate::status::status_number;
use crate::text_fault::TextFault;
use cc_base::{FaultKind, Pid};
use cc_rules::Faults;
use cc_world::{IoFault, Sink, write_all};
use itoa::Buffer;

/// Appends these pieces, one after the other.
fn write_pieces<E: Sink>(err: &mut E, pieces: &[&[u8]]) -> Result<(), IoFault>
    ensures { Wrote (E.held err.old) (E.held err.new) (bytes_of pieces.now) (E.faults err.old) (E.faults err.new) (E.wants err.old) (E.wants err.new) result }
{
    for piece in pieces {
        write_all(err, piece)?;
    }
    Ok(())
}

/// Writes the line of a fault of a text.
fn write_text_fault<E: Sink>(err: &mut E, fault: TextFault) -> Result<(), IoFault>
    ensures { Wrote (E.held err.old) (E.held err.new) (fault_line fault.place fault.kind) (E.faults err.old) (E.faults err.new) (E.wants err.old) (E.wants err.new) result }
{
    let mut line = Buffer::new();
    let mut column = Buffer::new();
    let pieces = [
        line.format(fault.place.line).as_bytes(),
        b":".as_slice(),
        column.format(fault.place.column).as_bytes(),
        b": ".as_slice(),
        fault.kind.name().as_bytes(),
        b"\n".as_slice(),
    ];
    write_pieces(err, &pieces)
}

/// The fault of a process as a report names it.
fn fault_word(kind: FaultKind) -> &'static str
    ensures { result.now ≡ fault_name kind }
{
    match kind {
        FaultKind::Overflow => "Overflow",
        FaultKind::DivideByZero => "DivideByZero",
        FaultKind::Index => "Index",
        FaultKind::NullProcess => "NullProcess",
        FaultKind::CalleeGone => "CalleeGone",
        FaultKind::NoAlternative => "NoAlternative",
        FaultKind::Depth => "Depth",
        FaultKind::Cells => "Cells",
        FaultKind::TooMany => "TooMany",
    }
}

/// Writes the line of a process that was stopped by a fault.
fn write_process<E: Sink>(err: &mut E, fault: (Pid, FaultKind)) -> Result<(), IoFault>
    ensures { Wrote (E.held err.old) (E.held err.new) (process_line fault) (E.faults err.old) (E.faults err.new) (E.wants err.old) (E.wants err.new) result }
{
    let mut number = Buffer::new();
    let pieces = [
        b"process ".as_slice(),
        number.format(fault.0.0).as_bytes(),
        b": ".as_slice(),
        fault_word(fault.1).as_bytes(),
        b"\n".as_slice(),
    ];
    write_pieces(err, &pieces)
}

/// The process and its fault at an index.
fn fault_at(faults: &Faults, at: usize) -> (Pid, FaultKind)
    requires { at < length faults.now.items }
    ensures { slice_get faults.now.items at ≡ Some result }
{
    match faults.get(at) {
        Some(fault) => *fault,
        None => unreachable!(),
    }
}

/// Writes a line for each process that was stopped by a fault.
fn write_processes<E: Sink>(err: &mut E, faults: &Faults) -> Result<(), IoFault>
    ensures { Wrote (E.held err.old) (E.held err.new) (process_lines faults.now.items) (E.faults err.old) (E.faults err.new) (E.wants err.old) (E.wants err.new) result }
{
    for at in 0..faults.len() {
        write_process(err, fault_at(faults, at))?;
    }
    Ok(())
}

/// Writes one line.
fn write_line<E: Sink>(err: &mut E, line: &str) -> Result<(), IoFault>
    ensures { Wrote (E.held err.old) (E.held err.new) line.now (E.faults err.old) (E.faults err.new) (E.wants err.old) (E.wants err.new) result }
{
    write_all(err, line.as_bytes())
}

/// Writes how a run ended, unless it ended well.
fn write_ending<E: Sink>(err: &mut E, ending: &Ending) -> Result<(), IoFault>
    ensures told { Wrote (E.held err.old) (E.held err.new) (report_in ending.now) (E.faults err.old) (E.faults err.new) (E.wants err.old) (E.wants err.new) result }
    ensures silent { ending.now ≡ Ending.Well → err.new ≡ err.old }
{
    match ending {
        Ending::Well => Ok(()),
        Ending::Faulted(faults) => write_processes(err, faults),
        Ending::Stuck => write_line(err, "stuck\n"),
        Ending::Spent => write_line(err, "budget\n"),
    }
}

/// Writes why the command did not do what was asked.
fn write_cause<E: Sink>(err: &mut E, cause: Cause) -> Result<(), IoFault>
    ensures { Wrote (E.held err.old) (E.held err.new) (report_for cause) (E.faults err.old) (E.faults err.new) (E.wants err.old) (E.wants err.new) result }
{
    match cause {
        Cause::Usage => write_line(err, "usage: ccrun ACTION FILE [options]\n"),
        Cause::Text(fault) => write_text_fault(err, fault),
        Cause::Shelf => write_line(err, "shelf\n"),
        Cause::Write => write_line(err, "write\n"),
        Cause::Memory => write_line(err, "memory\n"),
    }
}

/// Writes how the command ended; nothing where it did what was asked. It takes no memory.
pub fn write_report<E: Sink>(err: &mut E, answer: &Result<Ending, Cause>) -> Result<(), IoFault>
    ensures told { Wrote (E.held err.old) (E.held err.new) (report_of answer.now) (E.faults err.old) (E.faults err.new) (E.wants err.old) (E.wants err.new) result }
    ensures silent { status_of answer.now ≡ 0 → err.new ≡ err.old }
{
    match answer {
        Ok(ending) => write_ending(err, ending),
        Err(cause) => write_cause(err, *cause),
    }
}

/// Reports how the command ended, as far as the sink takes it.
pub(crate) fn report<E: Sink>(err: &mut E, answer: &Result<Ending, Cause>)
    ensures told { Reported (E.held err.old) (E.held err.new) (report_of answer.now) (E.faults err.old) (E.faults err.new) (E.wants err.old) (E.wants err.new) }
    ensures silent { status_of answer.now ≡ 0 → err.new ≡ err.old }
{
    match write_report(err, answer) {
        Ok(()) => {}
        Err(IoFault::Failed) => {}
        Err(IoFault::Memory) => {}
    }
}

/// Reports that there was no memory for the words of a command line, as far as the sink takes it, and answers the status.
pub fn report_out_of_memory<E: Sink>(err: &mut E) -> u8
    ensures status { result ≡ 9 }
    ensures told { Reported (E.held err.old) (E.held err.new) (line_of 9) (E.faults err.old) (E.faults err.new) (E.wants err.old) (E.wants err.new) }
{
    let answer = Err(Cause::Memory);
    report(err, &answer);
    status_number(&answer)
}
