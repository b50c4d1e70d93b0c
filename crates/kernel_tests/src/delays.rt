//! Delays, on a kernel that is told the readings of a clock where no process is running.
use crate::judged::{ask, is_taken};
use crate::kernel::{Seen, go_on_for, has_events};
use crate::tables::{Script, Step};
use crate::waiting::{Waiting, tell_idle};
use cc_base::{Behave, Bytes, Cells, Memory, Pid};
use cc_kernel::Kernel;
use cc_rules::{Event, Journal, Standing, Word};
use std::alloc::Global;
use std::rt::HostRuntime;
use std::sync::Arc;

/// The greatest of the readings so far is told where no process is running, one reading after the other.
fn go_on_with<B: Behave>(
    kernel: &mut Kernel<B>,
    alloc: Global,
    seen: &mut Seen,
    readings: &[u64],
) -> Result<(), Memory> {
    let mut greatest = 0;
    go_on_for(kernel, alloc, seen, 100)?;
    for reading in readings {
        greatest = (*reading).max(greatest);
        tell_idle(kernel, greatest)?;
        go_on_for(kernel, alloc, seen, 100)?;
    }
    Ok(())
}

/// What a run leaves.
#[derive(Drop)]
pub(crate) struct Waited {
    pub(crate) journal: Journal,
    pub(crate) standing: Standing,
    pub(crate) printed: Bytes,
}

/// The program of these steps.
pub(crate) fn program(
    alloc: Global,
    main: &[Step],
    first: &[Step],
) -> Result<Arc<Waiting>, Memory> {
    let script = Script {
        main: Vec::from_slice(alloc, main)?,
        first: Vec::from_slice(alloc, first)?,
        second: Vec::new(alloc),
    };
    Ok(Arc::new(alloc, Waiting { script })?)
}

/// Its run of at most so many turns, where a clock shows these readings as no process is running.
pub(crate) fn run(
    alloc: Global,
    code: &Arc<Waiting>,
    turns: u32,
    readings: &[u64],
) -> Result<Waited, Memory> {
    let mut kernel = Kernel::open(alloc, Arc::try_clone(code)?, Bytes::new(alloc), turns)?;
    let mut seen = Seen {
        printed: Bytes::new(alloc),
        given: Cells::new(alloc),
    };
    go_on_with(&mut kernel, alloc, &mut seen, readings)?;
    let standing = kernel.state();
    let (journal, _faults) = kernel.into_journal();
    Ok(Waited {
        journal,
        standing,
        printed: seen.printed,
    })
}

pub(crate) fn time(moment: u64) -> Event {
    Event::Time { moment }
}

fn expire(pid: u32) -> Event {
    Event::Expire {
        pid: Pid(pid),
        alt: 0,
    }
}

#[test]
fn a_negative_wait_is_over_as_it_begins(rt: HostRuntime) {
    let alloc = rt.alloc();
    let main = [(Word::Delay, 0, false, -1), (Word::Print, 120, false, 0)];
    let code = program(alloc, &main, &[]).expect(&rt, "memory");
    let ran = run(alloc, &code, 100, &[]).expect(&rt, "memory");
    let events = [
        ask(0, Word::Delay),
        expire(0),
        ask(0, Word::Print),
        ask(0, Word::Done),
    ];
    assert!(rt; has_events(&ran.journal, &events));
    assert!(rt; ran.standing == Standing::Ended { faulted: false });
    assert!(rt; ran.printed.as_slice() == b"x".as_slice());
    assert!(rt; is_taken(alloc, &code, &events).expect(&rt, "memory"));
}

#[test]
fn a_delay_is_over_once_its_moment_was_read(rt: HostRuntime) {
    let alloc = rt.alloc();
    let main = [(Word::Delay, 0, false, 5), (Word::Print, 120, false, 0)];
    let code = program(alloc, &main, &[]).expect(&rt, "memory");
    let ran = run(alloc, &code, 100, &[3, 2, 9]).expect(&rt, "memory");
    let events = [
        ask(0, Word::Delay),
        time(3),
        time(3),
        time(9),
        expire(0),
        ask(0, Word::Print),
        ask(0, Word::Done),
    ];
    assert!(rt; has_events(&ran.journal, &events));
    assert!(rt; is_taken(alloc, &code, &events).expect(&rt, "memory"));
    let early = [ask(0, Word::Delay), time(3), expire(0)];
    assert!(rt; !is_taken(alloc, &code, &early).expect(&rt, "memory"));
}

#[test]
fn a_clock_that_stands_still_uses_up_the_turns(rt: HostRuntime) {
    let alloc = rt.alloc();
    let main = [(Word::Delay, 0, false, 5), (Word::Print, 120, false, 0)];
    let code = program(alloc, &main, &[]).expect(&rt, "memory");
    let ran = run(alloc, &code, 4, &[0, 0, 0, 0, 0]).expect(&rt, "memory");
    let events = [ask(0, Word::Delay), time(0), time(0), time(0)];
    assert!(rt; has_events(&ran.journal, &events));
    assert!(rt; ran.standing == Standing::Spent);
    assert_eq!(rt; ran.printed.len(), 0);
}

#[test]
fn a_call_after_a_delay_finds_that_its_process_ended(rt: HostRuntime) {
    let alloc = rt.alloc();
    let main = [
        (Word::Create, 0, false, 0),
        (Word::Delay, 0, false, 1),
        (Word::Call, 1, false, 0),
        (Word::Fault, 0, false, 0),
    ];
    let code = program(alloc, &main, &[]).expect(&rt, "memory");
    let ran = run(alloc, &code, 100, &[1]).expect(&rt, "memory");
    let events = [
        ask(0, Word::Create),
        ask(0, Word::Delay),
        ask(1, Word::Done),
        time(1),
        expire(0),
        ask(0, Word::Call),
        ask(0, Word::Fault),
    ];
    assert!(rt; has_events(&ran.journal, &events));
    assert!(rt; ran.standing == Standing::Ended { faulted: true });
    assert!(rt; is_taken(alloc, &code, &events).expect(&rt, "memory"));
}

#[test]
fn delays_that_are_over_at_once_go_on_by_their_deadlines(rt: HostRuntime) {
    let alloc = rt.alloc();
    let main = [
        (Word::Create, 0, false, 0),
        (Word::Delay, 0, false, 7),
        (Word::Print, 98, false, 0),
    ];
    let other = [(Word::Delay, 0, false, 3), (Word::Print, 97, false, 0)];
    let code = program(alloc, &main, &other).expect(&rt, "memory");
    let ran = run(alloc, &code, 100, &[9]).expect(&rt, "memory");
    let events = [
        ask(0, Word::Create),
        ask(0, Word::Delay),
        ask(1, Word::Delay),
        time(9),
        expire(1),
        expire(0),
        ask(1, Word::Print),
        ask(0, Word::Print),
        ask(1, Word::Done),
        ask(0, Word::Done),
    ];
    assert!(rt; has_events(&ran.journal, &events));
    assert!(rt; ran.printed.as_slice() == b"ab".as_slice());
    assert!(rt; is_taken(alloc, &code, &events).expect(&rt, "memory"));
}
