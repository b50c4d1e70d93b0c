//! Runs of programs that follow a table, on the kernel and on a pool of one worker. The process that has been ready for longest goes
//! on first.

use crate::tables::{Script, Step};
use cc_base::{Behave, Bytes, CallId, Cells, FaultKind, Grant, Memory, Pid};
use cc_kernel::Kernel;
use cc_pool::{Stop, drive};
use cc_rules::{Event, Faults, Journal, Standing, Word};
use cc_world::MemSink;
use std::alloc::Global;
use std::rt::HostRuntime;
use std::sync::Arc;

/// What a run printed, and the cells and bytes that its processes were given, where no byte was left -1.
#[derive(Drop)]
pub(crate) struct Seen {
    pub(crate) printed: Bytes,
    pub(crate) given: Cells,
}

fn see(seen: &mut Seen, grant: &Grant) -> Result<(), Memory> {
    match grant {
        Grant::Value(cells) => see_all(seen, cells),
        Grant::Took { alt: _alt, args } => see_all(seen, args),
        Grant::Byte(None) => seen.given.push(-1),
        Grant::Byte(Some(byte)) => seen.given.push(*byte as i64),
        _other => Ok(()),
    }
}

fn see_all(seen: &mut Seen, cells: &Cells) -> Result<(), Memory> {
    for at in 0..cells.len() {
        if let Some(cell) = cells.get(at) {
            seen.given.push(cell)?;
        }
    }
    Ok(())
}

/// A process that is ready goes on with its grant, and what it asks is done. False where none is ready.
fn go_on<B: Behave>(
    kernel: &mut Kernel<B>,
    alloc: Global,
    seen: &mut Seen,
) -> Result<bool, Memory> {
    let Some((pid, mut process, grant)) = kernel.pick() else {
        return Ok(false);
    };
    see(seen, &grant)?;
    let request = B::go(&mut process, alloc, grant)?;
    kernel.prepare(Some(&request))?;
    let bytes = kernel.commit(pid, process, request);
    seen.printed.append(bytes.as_slice())?;
    Ok(true)
}

/// At most so many slices.
pub(crate) fn go_on_for<B: Behave>(
    kernel: &mut Kernel<B>,
    alloc: Global,
    seen: &mut Seen,
    slices: u32,
) -> Result<(), Memory> {
    for _ in 0..slices {
        if !go_on(kernel, alloc, seen)? {
            return Ok(());
        }
    }
    Ok(())
}

#[derive(Drop)]
struct Ran {
    journal: Journal,
    faults: Faults,
    standing: Standing,
    seen: Seen,
}

/// The script of these steps.
fn script(
    alloc: Global,
    main: &[Step],
    first: &[Step],
    second: &[Step],
) -> Result<Arc<Script>, Memory> {
    let script = Script {
        main: Vec::from_slice(alloc, main)?,
        first: Vec::from_slice(alloc, first)?,
        second: Vec::from_slice(alloc, second)?,
    };
    Ok(Arc::new(alloc, script)?)
}

/// The run of a script on the input `a`, of at most so many turns.
fn run(
    alloc: Global,
    main: &[Step],
    first: &[Step],
    second: &[Step],
    turns: u32,
) -> Result<Ran, Memory> {
    let code = script(alloc, main, first, second)?;
    let mut kernel = Kernel::open(alloc, code, Bytes::from_slice(alloc, b"a")?, turns)?;
    let mut seen = Seen {
        printed: Bytes::new(alloc),
        given: Cells::new(alloc),
    };
    go_on_for(&mut kernel, alloc, &mut seen, 10_000)?;
    let standing = kernel.state();
    let (journal, faults) = kernel.into_journal();
    Ok(Ran {
        journal,
        faults,
        standing,
        seen,
    })
}

fn ask(pid: u32, word: Word) -> Event {
    Event::Ask {
        pid: Pid(pid),
        word,
    }
}

fn accept(pid: u32, call: u32) -> Event {
    Event::Accept {
        pid: Pid(pid),
        alt: 0,
        call: CallId(call),
    }
}

pub(crate) fn has_events(journal: &Journal, events: &[Event]) -> bool {
    for (at, event) in events.iter().enumerate() {
        if journal.get(at) != Some(event) {
            return false;
        }
    }
    journal.len() == events.len()
}

fn has_faults(faults: &Faults, wanted: &[(Pid, FaultKind)]) -> bool {
    for (at, fault) in wanted.iter().enumerate() {
        if faults.get(at) != Some(fault) {
            return false;
        }
    }
    faults.len() == wanted.len()
}

fn has_cells(cells: &Cells, wanted: &[i64]) -> bool {
    for (at, cell) in wanted.iter().enumerate() {
        if cells.get(at) != Some(*cell) {
            return false;
        }
    }
    cells.len() == wanted.len()
}

const CALLER: [Step; 3] = [
    (Word::Create, 0, false, 0),
    (Word::Call, 1, false, 65),
    (Word::Print, 66, false, 0),
];

const SERVER: [Step; 3] = [
    (Word::Select, 0, false, 0),
    (Word::Print, 65, false, 0),
    (Word::Reply, 0, false, 66),
];

#[test]
fn a_caller_and_a_server_meet_in_eight_turns(rt: HostRuntime) {
    let ran = run(rt.alloc(), &CALLER, &SERVER, &[], 8).expect(&rt, "memory");
    let events = [
        ask(0, Word::Create),
        ask(0, Word::Call),
        ask(1, Word::Select),
        accept(1, 0),
        ask(1, Word::Print),
        ask(1, Word::Reply),
        ask(1, Word::Done),
        ask(0, Word::Print),
        ask(0, Word::Done),
    ];
    assert!(rt; has_events(&ran.journal, &events));
    assert!(rt; ran.standing == Standing::Ended { faulted: false });
    assert!(rt; ran.seen.printed.as_slice() == b"AB".as_slice());
    assert!(rt; has_cells(&ran.seen.given, &[65, 66]));
    assert_eq!(rt; ran.faults.len(), 0);
}

#[test]
fn turns_are_spent(rt: HostRuntime) {
    let ran = run(rt.alloc(), &CALLER, &SERVER, &[], 7).expect(&rt, "memory");
    assert!(rt; ran.standing == Standing::Spent);
    assert_eq!(rt; ran.journal.len(), 8);
    let none = run(rt.alloc(), &CALLER, &SERVER, &[], 0).expect(&rt, "memory");
    assert!(rt; none.standing == Standing::Spent);
    assert_eq!(rt; none.journal.len(), 0);
}

#[test]
fn the_innermost_call_is_answered(rt: HostRuntime) {
    let main = [
        (Word::Create, 0, false, 0),
        (Word::Create, 0, true, 0),
        (Word::Call, 1, true, 5),
    ];
    let server = [
        (Word::Select, 0, true, 0),
        (Word::Select, 0, false, 0),
        (Word::Reply, 0, false, 1),
        (Word::Reply, 0, false, 2),
    ];
    let caller = [(Word::Call, 1, false, 6)];
    let ran = run(rt.alloc(), &main, &server, &caller, 100).expect(&rt, "memory");
    let events = [
        ask(0, Word::Create),
        ask(0, Word::Create),
        ask(1, Word::Select),
        ask(0, Word::Call),
        accept(1, 0),
        ask(2, Word::Call),
        ask(1, Word::Select),
        accept(1, 1),
        ask(1, Word::Reply),
        ask(1, Word::Reply),
        ask(2, Word::Done),
        ask(1, Word::Done),
        ask(0, Word::Done),
    ];
    assert!(rt; has_events(&ran.journal, &events));
    assert!(rt; has_cells(&ran.seen.given, &[5, 6, 1, 2]));
}

#[test]
fn a_call_of_what_is_not_there_is_a_fault(rt: HostRuntime) {
    let main = [(Word::Create, 0, false, 0), (Word::Create, 0, true, 0)];
    let caller = [
        (Word::Call, 9, false, 0),
        (Word::Call, 1, false, 0),
        (Word::Fault, 0, false, 0),
    ];
    let ran = run(rt.alloc(), &main, &[], &caller, 100).expect(&rt, "memory");
    let events = [
        ask(0, Word::Create),
        ask(0, Word::Create),
        ask(1, Word::Done),
        ask(0, Word::Done),
        ask(2, Word::Call),
        ask(2, Word::Call),
        ask(2, Word::Fault),
    ];
    assert!(rt; has_events(&ran.journal, &events));
    assert!(rt; ran.standing == Standing::Ended { faulted: true });
    assert!(rt; has_faults(&ran.faults, &[(Pid(2), FaultKind::CalleeGone)]));
}

// One of the two calls is served and the other is pending.
#[test]
fn whoever_waits_for_a_process_that_ends_goes_on(rt: HostRuntime) {
    let main = [
        (Word::Create, 0, true, 0),
        (Word::Create, 0, false, 0),
        (Word::Call, 2, false, 5),
        (Word::Fault, 0, false, 0),
    ];
    let server = [(Word::Select, 0, false, 0)];
    let caller = [(Word::Call, 2, false, 8), (Word::Fault, 0, false, 0)];
    let ran = run(rt.alloc(), &main, &server, &caller, 100).expect(&rt, "memory");
    let events = [
        ask(0, Word::Create),
        ask(0, Word::Create),
        ask(1, Word::Call),
        ask(0, Word::Call),
        ask(2, Word::Select),
        accept(2, 0),
        ask(2, Word::Done),
        ask(0, Word::Fault),
        ask(1, Word::Fault),
    ];
    assert!(rt; has_events(&ran.journal, &events));
    let gone = FaultKind::CalleeGone;
    assert!(rt; has_faults(&ran.faults, &[(Pid(0), gone), (Pid(1), gone)]));
}

// Three calls are pending when the server may take them; the one that was asked first has the greatest rank.
#[test]
fn the_call_of_least_rank_is_taken_the_earliest_on_a_tie(rt: HostRuntime) {
    let main = [
        (Word::Create, 0, false, 0),
        (Word::Create, 0, true, 0),
        (Word::Create, 0, true, 0),
        (Word::Call, 1, true, 5),
    ];
    let server = [
        (Word::Pause, 0, false, 0),
        (Word::Pause, 0, false, 0),
        (Word::Pause, 0, false, 0),
        (Word::Select, 0, true, 0),
        (Word::Reply, 0, false, 10),
        (Word::Select, 0, true, 0),
        (Word::Reply, 0, false, 20),
        (Word::Select, 0, true, 0),
        (Word::Reply, 0, false, 30),
    ];
    let caller = [(Word::Pause, 0, false, 0), (Word::Call, 1, true, 3)];
    let ran = run(rt.alloc(), &main, &server, &caller, 100).expect(&rt, "memory");
    let events = [
        ask(0, Word::Create),
        ask(0, Word::Create),
        ask(1, Word::Pause),
        ask(0, Word::Create),
        ask(2, Word::Pause),
        ask(1, Word::Pause),
        ask(0, Word::Call),
        ask(3, Word::Pause),
        ask(2, Word::Call),
        ask(1, Word::Pause),
        ask(3, Word::Call),
        ask(1, Word::Select),
        accept(1, 1),
        ask(1, Word::Reply),
        ask(1, Word::Select),
        accept(1, 2),
        ask(2, Word::Done),
        ask(1, Word::Reply),
        ask(1, Word::Select),
        accept(1, 0),
        ask(3, Word::Done),
        ask(1, Word::Reply),
        ask(1, Word::Done),
        ask(0, Word::Done),
    ];
    assert!(rt; has_events(&ran.journal, &events));
    assert!(rt; has_cells(&ran.seen.given, &[3, 10, 3, 20, 5, 30]));
}

#[test]
fn a_process_that_calls_itself_is_stuck(rt: HostRuntime) {
    let main = [(Word::Call, 0, false, 0)];
    let ran = run(rt.alloc(), &main, &[], &[], 1).expect(&rt, "memory");
    assert!(rt; has_events(&ran.journal, &[ask(0, Word::Call)]));
    assert!(rt; ran.standing == Standing::Stuck);
}

#[test]
fn the_input_is_taken_byte_by_byte(rt: HostRuntime) {
    let main = [(Word::Get, 0, false, 0), (Word::Get, 0, false, 0)];
    let ran = run(rt.alloc(), &main, &[], &[], 100).expect(&rt, "memory");
    assert!(rt; has_cells(&ran.seen.given, &[97, -1]));
}

#[test]
fn there_are_too_many_processes(rt: HostRuntime) {
    let mut main = Vec::new(rt.alloc());
    for _ in 0..4097 {
        main.push((Word::Create, 0, false, 0)).expect(&rt, "memory");
    }
    let ran = run(rt.alloc(), main.as_slice(), &[], &[], 10_000).expect(&rt, "memory");
    assert!(rt; ran.standing == Standing::Ended { faulted: true });
    assert!(rt; has_faults(&ran.faults, &[(Pid(0), FaultKind::TooMany)]));
    assert_eq!(rt; ran.journal.len(), 4096 + 4095);
}

// Each Print goes to the sink in the turn that asks it; here a put takes one byte at most.
#[test]
fn one_worker_prints_what_the_run_prints(rt: HostRuntime) {
    let alloc = rt.alloc();
    let code = script(alloc, &CALLER, &SERVER, &[]).expect(&rt, "memory");
    let sink = MemSink::new(alloc, 1, Cells::new(alloc));
    let ran = drive(alloc, &code, Bytes::new(alloc), 8, sink);
    assert!(rt; ran.stop == Stop::Over);
    assert!(rt; ran.standing == Standing::Ended { faulted: false });
    assert!(rt; ran.out.bytes().as_slice() == b"AB".as_slice());
    assert_eq!(rt; ran.journal.len(), 9);
}
