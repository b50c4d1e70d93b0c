use cc_base::{Cells, FaultKind, Pid, Place};
use cc_command::{Cause, Ending, TextFault, TextFaultKind, write_report};
use cc_lex::LexKind;
use cc_rules::Faults;
use cc_world::{IoFault, MemSink};
use std::alloc::Global;
use std::process::Abort;
use std::rt::HostRuntime;
use std::test::Fail;

/// A sink that takes this many bytes a call, of which this one fails, from 1; none for 0.
fn sink(rt: &impl Abort, alloc: Global, piece: usize, fails: i64) -> MemSink {
    let mut calls = Cells::new(alloc);
    assert!(rt; fails == 0 || calls.push(fails).is_ok());
    assert!(rt; piece >= 1);
    MemSink::new(alloc, piece, calls)
}

fn told(rt: &impl Abort, alloc: Global, answer: &Result<Ending, Cause>, wanted: &[u8]) {
    let mut err = sink(rt, alloc, 3, 0);
    assert!(rt; write_report(&mut err, answer).is_ok());
    assert!(rt; err.bytes().as_slice() == wanted);
}

fn text_fault(line: u32, column: u32, kind: TextFaultKind) -> Result<Ending, Cause> {
    let place = Place { line, column };
    Err(Cause::Text(TextFault { place, kind }))
}

#[test]
fn faults_of_texts(rt: HostRuntime) {
    let alloc = rt.alloc();
    told(
        &rt,
        alloc,
        &text_fault(1, 1, TextFaultKind::Unbuilt),
        b"1:1: Unbuilt\n",
    );
    told(
        &rt,
        alloc,
        &text_fault(12, 345, TextFaultKind::Syntax),
        b"12:345: Syntax\n",
    );
    told(
        &rt,
        alloc,
        &text_fault(9, 10, TextFaultKind::TooDeep),
        b"9:10: TooDeep\n",
    );
}

#[test]
fn faults_of_tokens(rt: HostRuntime) {
    let alloc = rt.alloc();
    for (kind, wanted) in [
        (LexKind::TextTooLong, b"1048577:1: TextTooLong\n".as_slice()),
        (LexKind::NoToken, b"1048577:1: NoToken\n"),
        (LexKind::BadNumber, b"1048577:1: BadNumber\n"),
        (LexKind::NumberTooLarge, b"1048577:1: NumberTooLarge\n"),
        (LexKind::BadCharacter, b"1048577:1: BadCharacter\n"),
        (LexKind::BadString, b"1048577:1: BadString\n"),
        (LexKind::OpenComment, b"1048577:1: OpenComment\n"),
    ] {
        let fault = text_fault(1_048_577, 1, TextFaultKind::Tokens(kind));
        told(&rt, alloc, &fault, wanted);
    }
}

#[test]
fn causes(rt: HostRuntime) {
    let alloc = rt.alloc();
    told(
        &rt,
        alloc,
        &Err(Cause::Usage),
        b"usage: ccrun ACTION FILE [options]\n",
    );
    told(&rt, alloc, &Err(Cause::Shelf), b"shelf\n");
    told(&rt, alloc, &Err(Cause::Write), b"write\n");
    told(&rt, alloc, &Err(Cause::Memory), b"memory\n");
}

#[test]
fn endings(rt: HostRuntime) {
    let alloc = rt.alloc();
    told(&rt, alloc, &Ok(Ending::Well), b"");
    told(&rt, alloc, &Ok(Ending::Stuck), b"stuck\n");
    told(&rt, alloc, &Ok(Ending::Spent), b"budget\n");
}

#[test]
fn one_process(rt: HostRuntime) -> Result<(), Fail> {
    let alloc = rt.alloc();
    for (kind, wanted) in [
        (FaultKind::Overflow, b"process 0: Overflow\n".as_slice()),
        (FaultKind::DivideByZero, b"process 0: DivideByZero\n"),
        (FaultKind::Index, b"process 0: Index\n"),
        (FaultKind::NullProcess, b"process 0: NullProcess\n"),
        (FaultKind::CalleeGone, b"process 0: CalleeGone\n"),
        (FaultKind::NoAlternative, b"process 0: NoAlternative\n"),
        (FaultKind::Depth, b"process 0: Depth\n"),
        (FaultKind::Cells, b"process 0: Cells\n"),
        (FaultKind::TooMany, b"process 0: TooMany\n"),
    ] {
        let mut faults = Faults::new(alloc);
        faults.push((Pid(0), kind))?;
        told(&rt, alloc, &Ok(Ending::Faulted(faults)), wanted);
    }
    Ok(())
}

/// Two processes that were stopped by faults.
fn two(alloc: Global) -> Result<Ending, Fail> {
    let mut faults = Faults::new(alloc);
    faults.push((Pid(3), FaultKind::Overflow))?;
    faults.push((Pid(4095), FaultKind::Index))?;
    Ok(Ending::Faulted(faults))
}

#[test]
fn two_processes(rt: HostRuntime) -> Result<(), Fail> {
    let alloc = rt.alloc();
    let ending = two(alloc)?;
    told(
        &rt,
        alloc,
        &Ok(ending),
        b"process 3: Overflow\nprocess 4095: Index\n",
    );
    Ok(())
}

#[test]
fn a_report_stops_at_a_failed_put(rt: HostRuntime) -> Result<(), Fail> {
    let alloc = rt.alloc();
    let mut err = sink(&rt, alloc, 64, 7);
    let ended = write_report(&mut err, &Ok(two(alloc)?));
    assert!(rt; matches!(ended, Err(IoFault::Failed)));
    assert!(rt; err.bytes().as_slice() == b"process 3: Overflow\nprocess ".as_slice());
    Ok(())
}
