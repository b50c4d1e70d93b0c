//! Programs of the language as tables: a buffer between a producer and a consumer, a process that faults, a call within a call. The
//! journal of one worker is taken whole by the machine over plain lists, and is refused after each of five changes.
use crate::judged::{
    accept, after, ask, instant, is_refused_ended, is_refused_swapped, is_refused_with,
    is_refused_without, journal, script,
};
use crate::tables::Step;
use cc_base::CallId;
use cc_rules::{Event, Standing, Word};
use std::rt::HostRuntime;

// It reads three bytes and the end of the input, and puts each into the buffer, process 1.
const PRODUCER: [Step; 10] = [
    (Word::Create, 0, false, 0),
    (Word::Create, 0, true, 0),
    (Word::Get, 0, false, 0),
    (Word::Call, 1, false, 97),
    (Word::Get, 0, false, 0),
    (Word::Call, 1, false, 98),
    (Word::Get, 0, false, 0),
    (Word::Call, 1, false, 99),
    (Word::Get, 0, false, 0),
    (Word::Call, 1, false, -1),
];

// It takes a byte from the buffer and prints it, until it gets the end of the input.
const CONSUMER: [Step; 7] = [
    (Word::Call, 1, true, 0),
    (Word::Print, 97, false, 0),
    (Word::Call, 1, true, 0),
    (Word::Print, 98, false, 0),
    (Word::Call, 1, true, 0),
    (Word::Print, 99, false, 0),
    (Word::Call, 1, true, 0),
];

// Where it is empty, a byte is put or it ends; where it holds one, one is put or taken.
const BUFFER: [Step; 17] = [
    (Word::Select, 2, false, 0),
    (Word::Reply, 0, false, 0),
    (Word::Select, 3, false, 0),
    (Word::Reply, 0, false, 97),
    (Word::Select, 2, false, 0),
    (Word::Reply, 0, false, 0),
    (Word::Select, 3, false, 0),
    (Word::Reply, 0, false, 98),
    (Word::Select, 2, false, 0),
    (Word::Reply, 0, false, 0),
    (Word::Select, 3, false, 0),
    (Word::Reply, 0, false, 99),
    (Word::Select, 2, false, 0),
    (Word::Reply, 0, false, 0),
    (Word::Select, 3, false, 0),
    (Word::Reply, 0, false, -1),
    (Word::Select, 2, false, 0),
];

#[test]
fn a_buffer_hands_on_what_is_put_into_it(rt: HostRuntime) {
    let alloc = rt.alloc();
    let code = script(alloc, &PRODUCER, &BUFFER, &CONSUMER).expect(&rt, "memory");
    let events = journal(alloc, &code).expect(&rt, "memory");
    let wanted = [
        ask(0, Word::Create),
        ask(0, Word::Create),
        ask(1, Word::Select),
        ask(0, Word::Get),
        ask(2, Word::Call),
        ask(0, Word::Call),
        accept(1, 0, 1),
        ask(1, Word::Reply),
        ask(1, Word::Select),
        accept(1, 1, 0),
        ask(0, Word::Get),
        ask(1, Word::Reply),
        ask(0, Word::Call),
        ask(1, Word::Select),
        accept(1, 0, 2),
        ask(2, Word::Print),
        ask(1, Word::Reply),
        ask(2, Word::Call),
        ask(1, Word::Select),
        accept(1, 1, 3),
        ask(0, Word::Get),
        ask(1, Word::Reply),
        ask(0, Word::Call),
        ask(1, Word::Select),
        accept(1, 0, 4),
        ask(2, Word::Print),
        ask(1, Word::Reply),
        ask(2, Word::Call),
        ask(1, Word::Select),
        accept(1, 1, 5),
        ask(0, Word::Get),
        ask(1, Word::Reply),
        ask(0, Word::Call),
        ask(1, Word::Select),
        accept(1, 0, 6),
        ask(2, Word::Print),
        ask(1, Word::Reply),
        ask(2, Word::Call),
        ask(1, Word::Select),
        accept(1, 1, 7),
        ask(0, Word::Done),
        ask(1, Word::Reply),
        ask(1, Word::Select),
        ask(2, Word::Done),
        Event::End,
    ];
    assert!(rt; events.as_slice() == wanted.as_slice());
    let events = events.as_slice();
    assert!(rt; is_refused_without(alloc, &code, events, 6).expect(&rt, "memory"));
    assert!(rt; is_refused_swapped(alloc, &code, events, 8).expect(&rt, "memory"));
    assert!(rt; is_refused_with(alloc, &code, events, 9, accept(1, 0, 0)).expect(&rt, "memory"));
    assert!(rt; is_refused_with(alloc, &code, events, 14, accept(1, 0, 3)).expect(&rt, "memory"));
    assert!(rt; is_refused_ended(alloc, &code, events, 43).expect(&rt, "memory"));
    let Some(plain) = after(alloc, &code, events).expect(&rt, "memory") else {
        panic!(rt; "refused");
    };
    assert!(rt; plain.printed().as_slice() == b"abc".as_slice());
    assert!(rt; plain.standing(36) == Standing::Ended { faulted: false });
    assert_eq!(rt; plain.drawn(), 8);
}

#[test]
fn a_buffer_hands_on_the_end_of_an_empty_input(rt: HostRuntime) {
    let alloc = rt.alloc();
    let producer = [
        (Word::Create, 0, false, 0),
        (Word::Create, 0, true, 0),
        (Word::Get, 0, false, 0),
        (Word::Call, 1, false, -1),
    ];
    let buffer = [
        (Word::Select, 2, false, 0),
        (Word::Reply, 0, false, 0),
        (Word::Select, 3, false, 0),
        (Word::Reply, 0, false, -1),
        (Word::Select, 2, false, 0),
    ];
    let consumer = [(Word::Call, 1, true, 0)];
    let code = script(alloc, &producer, &buffer, &consumer).expect(&rt, "memory");
    let events = journal(alloc, &code).expect(&rt, "memory");
    let wanted = [
        ask(0, Word::Create),
        ask(0, Word::Create),
        ask(1, Word::Select),
        ask(0, Word::Get),
        ask(2, Word::Call),
        ask(0, Word::Call),
        accept(1, 0, 1),
        ask(1, Word::Reply),
        ask(1, Word::Select),
        accept(1, 1, 0),
        ask(0, Word::Done),
        ask(1, Word::Reply),
        ask(1, Word::Select),
        ask(2, Word::Done),
        Event::End,
    ];
    assert!(rt; events.as_slice() == wanted.as_slice());
    let events = events.as_slice();
    assert!(rt; is_refused_without(alloc, &code, events, 13).expect(&rt, "memory"));
    assert!(rt; is_refused_swapped(alloc, &code, events, 5).expect(&rt, "memory"));
    assert!(rt; is_refused_with(alloc, &code, events, 6, accept(1, 1, 1)).expect(&rt, "memory"));
    assert!(rt; is_refused_with(alloc, &code, events, 6, accept(1, 0, 0)).expect(&rt, "memory"));
    assert!(rt; is_refused_ended(alloc, &code, events, 13).expect(&rt, "memory"));
    let Some(plain) = after(alloc, &code, events).expect(&rt, "memory") else {
        panic!(rt; "refused");
    };
    assert_eq!(rt; plain.printed().as_slice().len(), 0);
}

#[test]
fn a_process_that_faults_ends_the_run_with_a_fault(rt: HostRuntime) {
    let alloc = rt.alloc();
    let main = [(Word::Create, 0, false, 0)];
    let server = [(Word::Fault, 0, false, 0)];
    let code = script(alloc, &main, &server, &[]).expect(&rt, "memory");
    let events = journal(alloc, &code).expect(&rt, "memory");
    let wanted = [
        ask(0, Word::Create),
        ask(0, Word::Done),
        ask(1, Word::Fault),
    ];
    assert!(rt; events.as_slice() == wanted.as_slice());
    let events = events.as_slice();
    assert!(rt; is_refused_without(alloc, &code, events, 0).expect(&rt, "memory"));
    assert!(rt; is_refused_swapped(alloc, &code, events, 0).expect(&rt, "memory"));
    assert!(rt; is_refused_with(alloc, &code, events, 2, instant(1, 0)).expect(&rt, "memory"));
    assert!(rt; is_refused_with(alloc, &code, events, 2, ask(1, Word::Done)).expect(&rt, "memory"));
    assert!(rt; is_refused_ended(alloc, &code, events, 3).expect(&rt, "memory"));
    let Some(plain) = after(alloc, &code, events).expect(&rt, "memory") else {
        panic!(rt; "refused");
    };
    assert!(rt; plain.standing(3) == Standing::Ended { faulted: true });
}

// The second call is accepted while the first is being served, and is answered first.
#[test]
fn a_call_is_served_within_another(rt: HostRuntime) {
    let alloc = rt.alloc();
    let main = [
        (Word::Create, 0, false, 0),
        (Word::Create, 0, true, 0),
        (Word::Call, 1, true, 0),
        (Word::Print, 117, false, 0),
    ];
    let server = [
        (Word::Select, 0, true, 0),
        (Word::Select, 0, false, 0),
        (Word::Reply, 0, false, 1),
        (Word::Reply, 0, false, 2),
    ];
    let caller = [(Word::Call, 1, false, 0), (Word::Print, 116, false, 0)];
    let code = script(alloc, &main, &server, &caller).expect(&rt, "memory");
    let events = journal(alloc, &code).expect(&rt, "memory");
    let wanted = [
        ask(0, Word::Create),
        ask(0, Word::Create),
        ask(1, Word::Select),
        ask(0, Word::Call),
        accept(1, 0, 0),
        ask(2, Word::Call),
        ask(1, Word::Select),
        accept(1, 0, 1),
        ask(1, Word::Reply),
        ask(1, Word::Reply),
        ask(2, Word::Print),
        ask(1, Word::Done),
        ask(0, Word::Print),
        ask(2, Word::Done),
        ask(0, Word::Done),
    ];
    assert!(rt; events.as_slice() == wanted.as_slice());
    let events = events.as_slice();
    assert!(rt; is_refused_without(alloc, &code, events, 8).expect(&rt, "memory"));
    assert!(rt; is_refused_swapped(alloc, &code, events, 3).expect(&rt, "memory"));
    assert!(rt; is_refused_with(alloc, &code, events, 7, accept(1, 1, 1)).expect(&rt, "memory"));
    assert!(rt; is_refused_with(alloc, &code, events, 7, accept(1, 0, 0)).expect(&rt, "memory"));
    assert!(rt; is_refused_ended(alloc, &code, events, 10).expect(&rt, "memory"));
    let Some(plain) = after(alloc, &code, events).expect(&rt, "memory") else {
        panic!(rt; "refused");
    };
    assert!(rt; plain.printed().as_slice() == b"tu".as_slice());
    assert!(rt; plain.pending(CallId(1)).is_none());
}
