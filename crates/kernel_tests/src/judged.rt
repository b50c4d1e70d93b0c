//! Journals of one worker, judged event by event by the machine over plain lists: each is taken whole, and is refused after a
//! change.
use crate::tables::{Script, Step};
use cc_base::{Behave, Bytes, CallId, Cells, Memory, Pid};
use cc_plain::{Plain, StepError};
use cc_pool::drive;
use cc_rules::{Event, Journal, Standing, Word};
use cc_world::MemSink;
use std::alloc::Global;
use std::rt::HostRuntime;
use std::sync::Arc;

/// The events of a journal.
fn events_of(alloc: Global, journal: &Journal) -> Result<Vec<Event>, Memory> {
    let mut events = Vec::new(alloc);
    for at in 0..journal.len() {
        if let Some(event) = journal.get(at) {
            events.push(*event)?;
        }
    }
    Ok(events)
}

pub(crate) fn script(
    alloc: Global,
    main: &[Step],
    first: &[Step],
    second: &[Step],
) -> Result<Arc<Script>, Memory> {
    let script = Script {
        main: Vec::from_slice(alloc, main)?,
        first: Vec::from_slice(alloc, first)?,
        second: Vec::from_slice(alloc, second)?,
    };
    Ok(Arc::new(alloc, script)?)
}

/// The journal of one worker.
pub(crate) fn journal(alloc: Global, code: &Arc<Script>) -> Result<Vec<Event>, Memory> {
    let sink = MemSink::new(alloc, 1, Cells::new(alloc));
    let ran = drive(alloc, code, Bytes::new(alloc), 1_000, sink);
    events_of(alloc, &ran.journal)
}

/// A stepper that took these events; none where one of them was refused.
pub(crate) fn after<B: Behave>(
    alloc: Global,
    code: &Arc<B>,
    events: &[Event],
) -> Result<Option<Plain<B>>, Memory> {
    let mut plain = Plain::open(alloc, Arc::try_clone(code)?, Bytes::new(alloc))?;
    for event in events {
        if plain.events().len() >= 1_000 {
            return Ok(None);
        }
        match plain.step(event) {
            Ok(()) => {}
            Err(StepError::Illegal) => return Ok(None),
            Err(StepError::Memory) => return Err(Memory),
        }
    }
    Ok(Some(plain))
}

pub(crate) fn is_taken<B: Behave>(
    alloc: Global,
    code: &Arc<B>,
    events: &[Event],
) -> Result<bool, Memory> {
    Ok(after(alloc, code, events)?.is_some())
}

/// Whether the events are refused with this one at this index in place of what stands there.
pub(crate) fn is_refused_with(
    alloc: Global,
    code: &Arc<Script>,
    events: &[Event],
    at: usize,
    event: Event,
) -> Result<bool, Memory> {
    let mut changed = Vec::from_slice(alloc, events)?;
    if at >= changed.len() {
        return Ok(false);
    }
    changed[at] = event;
    Ok(!is_taken(alloc, code, changed.as_slice())?)
}

/// Whether the events are refused without the one at this index.
pub(crate) fn is_refused_without(
    alloc: Global,
    code: &Arc<Script>,
    events: &[Event],
    at: usize,
) -> Result<bool, Memory> {
    let mut changed = Vec::from_slice(alloc, events)?;
    if at >= changed.len() {
        return Ok(false);
    }
    let _left_out = changed.remove(at);
    Ok(!is_taken(alloc, code, changed.as_slice())?)
}

/// Whether the events are refused with the one at this index and the next in each other's place.
pub(crate) fn is_refused_swapped(
    alloc: Global,
    code: &Arc<Script>,
    events: &[Event],
    at: usize,
) -> Result<bool, Memory> {
    let mut changed = Vec::from_slice(alloc, events)?;
    if changed.len() < 2 || at >= changed.len() - 1 {
        return Ok(false);
    }
    let first = changed[at];
    changed[at] = changed[at + 1];
    changed[at + 1] = first;
    Ok(!is_taken(alloc, code, changed.as_slice())?)
}

/// Whether the events are refused with `end` before the one at this index.
pub(crate) fn is_refused_ended(
    alloc: Global,
    code: &Arc<Script>,
    events: &[Event],
    at: usize,
) -> Result<bool, Memory> {
    let mut changed = Vec::from_slice(alloc, events)?;
    if at > changed.len() {
        return Ok(false);
    }
    changed.insert(at, Event::End)?;
    Ok(!is_taken(alloc, code, changed.as_slice())?)
}

pub(crate) fn ask(pid: u32, word: Word) -> Event {
    Event::Ask {
        pid: Pid(pid),
        word,
    }
}

pub(crate) fn accept(pid: u32, alt: u32, call: u32) -> Event {
    Event::Accept {
        pid: Pid(pid),
        alt,
        call: CallId(call),
    }
}

pub(crate) fn instant(pid: u32, alt: u32) -> Event {
    Event::Instant { pid: Pid(pid), alt }
}

// Three asynchronous calls are pending when the server may take them: those of the least argument go first, the earliest
// before the later.
const RANKED: [Step; 5] = [
    (Word::Create, 0, false, 0),
    (Word::Send, 1, true, 5),
    (Word::Send, 1, true, 3),
    (Word::Send, 1, true, 3),
    (Word::Call, 1, false, 0),
];

const RANKING: [Step; 5] = [
    (Word::Select, 0, false, 0),
    (Word::Reply, 0, false, 0),
    (Word::Select, 0, true, 0),
    (Word::Select, 0, true, 0),
    (Word::Select, 0, true, 0),
];

#[test]
fn asynchronous_calls_are_taken_by_their_ranks(rt: HostRuntime) {
    let alloc = rt.alloc();
    let code = script(alloc, &RANKED, &RANKING, &[]).expect(&rt, "memory");
    let events = journal(alloc, &code).expect(&rt, "memory");
    let wanted = [
        ask(0, Word::Create),
        ask(0, Word::Send),
        ask(1, Word::Select),
        ask(0, Word::Send),
        ask(0, Word::Send),
        ask(0, Word::Call),
        accept(1, 0, 3),
        ask(1, Word::Reply),
        ask(1, Word::Select),
        accept(1, 0, 1),
        ask(0, Word::Done),
        ask(1, Word::Select),
        accept(1, 0, 2),
        ask(1, Word::Select),
        accept(1, 0, 0),
        ask(1, Word::Done),
    ];
    assert!(rt; events.as_slice() == wanted.as_slice());
    let events = events.as_slice();
    assert!(rt; is_taken(alloc, &code, events).expect(&rt, "memory"));
    assert!(rt; is_refused_without(alloc, &code, events, 0).expect(&rt, "memory"));
    assert!(rt; is_refused_swapped(alloc, &code, events, 5).expect(&rt, "memory"));
    assert!(rt; is_refused_with(alloc, &code, events, 6, accept(1, 1, 3)).expect(&rt, "memory"));
    assert!(rt; is_refused_with(alloc, &code, events, 9, accept(1, 0, 2)).expect(&rt, "memory"));
    assert!(rt; is_refused_ended(alloc, &code, events, 8).expect(&rt, "memory"));
}

// The call is of another transaction than the one that is accepted.
#[test]
fn a_call_that_cannot_be_taken_does_not_hold_up_the_end(rt: HostRuntime) {
    let alloc = rt.alloc();
    let main = [(Word::Create, 0, false, 0), (Word::Send, 1, false, 7)];
    let server = [(Word::Select, 2, true, 0)];
    let code = script(alloc, &main, &server, &[]).expect(&rt, "memory");
    let events = journal(alloc, &code).expect(&rt, "memory");
    let wanted = [
        ask(0, Word::Create),
        ask(0, Word::Send),
        ask(1, Word::Select),
        ask(0, Word::Done),
        Event::End,
    ];
    assert!(rt; events.as_slice() == wanted.as_slice());
    let events = events.as_slice();
    assert!(rt; is_refused_without(alloc, &code, events, 3).expect(&rt, "memory"));
    assert!(rt; is_refused_swapped(alloc, &code, events, 3).expect(&rt, "memory"));
    assert!(rt; is_refused_with(alloc, &code, events, 4, accept(1, 0, 0)).expect(&rt, "memory"));
    assert!(rt; is_refused_with(alloc, &code, events, 4, instant(1, 1)).expect(&rt, "memory"));
    assert!(rt; is_refused_ended(alloc, &code, events, 3).expect(&rt, "memory"));
    let Some(plain) = after(alloc, &code, events).expect(&rt, "memory") else {
        panic!(rt; "refused");
    };
    assert!(rt; plain.standing(4) == Standing::Ended { faulted: false });
    assert_eq!(rt; plain.drawn(), 1);
    assert!(rt; plain.pending(CallId(0)).is_none());
}

#[test]
fn an_immediate_alternative_waits_for_no_call(rt: HostRuntime) {
    let alloc = rt.alloc();
    let main = [(Word::Create, 0, false, 0)];
    let server = [(Word::Select, 1, false, 0), (Word::Print, 105, false, 0)];
    let code = script(alloc, &main, &server, &[]).expect(&rt, "memory");
    let events = journal(alloc, &code).expect(&rt, "memory");
    let wanted = [
        ask(0, Word::Create),
        ask(0, Word::Done),
        ask(1, Word::Select),
        instant(1, 1),
        ask(1, Word::Print),
        ask(1, Word::Done),
    ];
    assert!(rt; events.as_slice() == wanted.as_slice());
    let events = events.as_slice();
    assert!(rt; is_refused_without(alloc, &code, events, 3).expect(&rt, "memory"));
    assert!(rt; is_refused_swapped(alloc, &code, events, 2).expect(&rt, "memory"));
    assert!(rt; is_refused_with(alloc, &code, events, 3, instant(1, 0)).expect(&rt, "memory"));
    assert!(rt; is_refused_with(alloc, &code, events, 3, accept(1, 0, 0)).expect(&rt, "memory"));
    assert!(rt; is_refused_ended(alloc, &code, events, 4).expect(&rt, "memory"));
    let Some(plain) = after(alloc, &code, events).expect(&rt, "memory") else {
        panic!(rt; "refused");
    };
    assert!(rt; plain.printed().as_slice() == b"i".as_slice());
}

#[test]
fn a_call_goes_before_an_immediate_alternative(rt: HostRuntime) {
    let alloc = rt.alloc();
    let main = [(Word::Create, 0, false, 0), (Word::Send, 1, false, 7)];
    let server = [(Word::Select, 1, false, 0), (Word::Print, 97, false, 0)];
    let code = script(alloc, &main, &server, &[]).expect(&rt, "memory");
    let events = journal(alloc, &code).expect(&rt, "memory");
    let wanted = [
        ask(0, Word::Create),
        ask(0, Word::Send),
        ask(1, Word::Select),
        accept(1, 0, 0),
        ask(0, Word::Done),
        ask(1, Word::Print),
        ask(1, Word::Done),
    ];
    assert!(rt; events.as_slice() == wanted.as_slice());
    let events = events.as_slice();
    assert!(rt; is_taken(alloc, &code, events).expect(&rt, "memory"));
    assert!(rt; is_refused_with(alloc, &code, events, 3, instant(1, 1)).expect(&rt, "memory"));
    let time = Event::Time { moment: 5 };
    assert!(rt; is_refused_with(alloc, &code, events, 3, time).expect(&rt, "memory"));
}

// It was called and ended, so that the caller goes on; then an asynchronous call of it is neither a fault nor kept.
#[test]
fn a_send_to_a_process_that_ended_is_dropped(rt: HostRuntime) {
    let alloc = rt.alloc();
    let main = [
        (Word::Create, 0, false, 0),
        (Word::Call, 1, false, 7),
        (Word::Send, 1, false, 8),
    ];
    let code = script(alloc, &main, &[], &[]).expect(&rt, "memory");
    let events = journal(alloc, &code).expect(&rt, "memory");
    let wanted = [
        ask(0, Word::Create),
        ask(0, Word::Call),
        ask(1, Word::Done),
        ask(0, Word::Send),
        ask(0, Word::Done),
    ];
    assert!(rt; events.as_slice() == wanted.as_slice());
    let Some(plain) = after(alloc, &code, events.as_slice()).expect(&rt, "memory") else {
        panic!(rt; "refused");
    };
    assert_eq!(rt; plain.drawn(), 1);
    assert!(rt; plain.standing(5) == Standing::Ended { faulted: false });
}

#[test]
fn a_pending_call_is_told_by_its_number(rt: HostRuntime) {
    let alloc = rt.alloc();
    let main = [(Word::Create, 0, false, 0), (Word::Call, 1, true, 7)];
    let code = script(alloc, &main, &[], &[]).expect(&rt, "memory");
    let events = [ask(0, Word::Create), ask(0, Word::Call)];
    let Some(plain) = after(alloc, &code, &events).expect(&rt, "memory") else {
        panic!(rt; "refused");
    };
    assert!(rt; plain.pending(CallId(0)) == Some((Pid(1), 1)));
    assert!(rt; plain.pending(CallId(1)).is_none());
    assert!(rt; plain.standing(2) == Standing::Spent);
    assert!(rt; plain.standing(3) == Standing::Going);
    assert!(rt; !plain.has_stopped());
}

// After a Time no other may come before a process asks; the moment must be later.
#[test]
fn a_time_comes_once_before_an_ask(rt: HostRuntime) {
    let alloc = rt.alloc();
    let code = script(alloc, &[(Word::Pause, 0, false, 0)], &[], &[]).expect(&rt, "memory");
    let time = Event::Time { moment: 5 };
    let later = Event::Time { moment: 6 };
    assert!(rt; is_taken(alloc, &code, &[time, ask(0, Word::Pause), later]).expect(&rt, "memory"));
    assert!(rt; !is_taken(alloc, &code, &[time, later]).expect(&rt, "memory"));
    assert!(rt; !is_taken(alloc, &code, &[time, ask(0, Word::Pause), time]).expect(&rt, "memory"));
    assert!(rt; !is_taken(alloc, &code, &[ask(0, Word::Print)]).expect(&rt, "memory"));
}
