//! Timed calls and selects with delay alternatives, on a kernel that is told the readings of a clock where no process is running.
use crate::delays::{program, run, time};
use crate::judged::{ask, is_taken};
use crate::kernel::has_events;
use crate::tables::Step;
use cc_base::{CallId, Pid};
use cc_rules::{Event, Standing, Word};
use std::rt::HostRuntime;

fn expire(pid: u32, alt: u32) -> Event {
    Event::Expire { pid: Pid(pid), alt }
}

fn withdraw(call: u32) -> Event {
    Event::Withdraw { call: CallId(call) }
}

fn accept(pid: u32, call: u32) -> Event {
    Event::Accept {
        pid: Pid(pid),
        alt: 0,
        call: CallId(call),
    }
}

#[test]
fn a_call_that_is_not_taken_at_once_is_withdrawn_at_a_wait_of_0(rt: HostRuntime) {
    let alloc = rt.alloc();
    let main = [
        (Word::Create, 0, false, 0),
        (Word::TimedCall, 1, true, 0),
        (Word::Print, 55, false, 0),
        (Word::Call, 1, false, 0),
        (Word::Call, 1, true, 0),
        (Word::Print, 49, false, 0),
    ];
    let server = [
        (Word::Select, 0, false, 0),
        (Word::Reply, 0, false, 0),
        (Word::Select, 0, true, 0),
        (Word::Reply, 0, false, 1),
    ];
    let code = program(alloc, &main, &server).expect(&rt, "memory");
    let ran = run(alloc, &code, 100, &[]).expect(&rt, "memory");
    let events = [
        ask(0, Word::Create),
        ask(0, Word::TimedCall),
        withdraw(0),
        ask(1, Word::Select),
        ask(0, Word::Print),
        ask(0, Word::Call),
        accept(1, 1),
        ask(1, Word::Reply),
        ask(1, Word::Select),
        ask(0, Word::Call),
        accept(1, 2),
        ask(1, Word::Reply),
        ask(1, Word::Done),
        ask(0, Word::Print),
        ask(0, Word::Done),
    ];
    assert!(rt; has_events(&ran.journal, &events));
    assert!(rt; ran.standing == Standing::Ended { faulted: false });
    assert!(rt; ran.printed.as_slice() == b"71".as_slice());
    assert!(rt; is_taken(alloc, &code, &events).expect(&rt, "memory"));
}

#[test]
fn a_call_that_is_taken_at_once_is_not_withdrawn_at_a_wait_of_0(rt: HostRuntime) {
    let alloc = rt.alloc();
    let main = [
        (Word::Create, 0, false, 0),
        (Word::Delay, 0, false, 10),
        (Word::TimedCall, 1, true, 0),
        (Word::Print, 49, false, 0),
    ];
    let server = [(Word::Select, 0, true, 0), (Word::Reply, 0, false, 1)];
    let code = program(alloc, &main, &server).expect(&rt, "memory");
    let ran = run(alloc, &code, 100, &[10]).expect(&rt, "memory");
    let events = [
        ask(0, Word::Create),
        ask(0, Word::Delay),
        ask(1, Word::Select),
        time(10),
        expire(0, 0),
        ask(0, Word::TimedCall),
        accept(1, 0),
        ask(1, Word::Reply),
        ask(1, Word::Done),
        ask(0, Word::Print),
        ask(0, Word::Done),
    ];
    assert!(rt; has_events(&ran.journal, &events));
    assert!(rt; ran.printed.as_slice() == b"1".as_slice());
    assert!(rt; is_taken(alloc, &code, &events).expect(&rt, "memory"));
}

const LATE_CALLER: [Step; 3] = [
    (Word::Create, 0, false, 0),
    (Word::TimedCall, 1, true, 5),
    (Word::Print, 57, false, 0),
];

const SLOW_SERVER: [Step; 4] = [
    (Word::Delay, 0, false, 3),
    (Word::Select, 0, true, 0),
    (Word::Delay, 0, false, 100),
    (Word::Reply, 0, false, 9),
];

#[test]
fn a_call_that_was_accepted_has_no_deadline_any_more(rt: HostRuntime) {
    let alloc = rt.alloc();
    let code = program(alloc, &LATE_CALLER, &SLOW_SERVER).expect(&rt, "memory");
    let accepted = run(alloc, &code, 100, &[3]).expect(&rt, "memory");
    assert!(rt; accepted.standing == Standing::Idle { until: 103 });
    let ran = run(alloc, &code, 100, &[3, 103]).expect(&rt, "memory");
    let events = [
        ask(0, Word::Create),
        ask(0, Word::TimedCall),
        ask(1, Word::Delay),
        time(3),
        expire(1, 0),
        ask(1, Word::Select),
        accept(1, 0),
        ask(1, Word::Delay),
        time(103),
        expire(1, 0),
        ask(1, Word::Reply),
        ask(1, Word::Done),
        ask(0, Word::Print),
        ask(0, Word::Done),
    ];
    assert!(rt; has_events(&ran.journal, &events));
    assert!(rt; ran.standing == Standing::Ended { faulted: false });
    assert!(rt; ran.printed.as_slice() == b"9".as_slice());
    assert!(rt; is_taken(alloc, &code, &events).expect(&rt, "memory"));
}

#[test]
fn a_call_that_was_accepted_is_not_withdrawn(rt: HostRuntime) {
    let alloc = rt.alloc();
    let code = program(alloc, &LATE_CALLER, &SLOW_SERVER).expect(&rt, "memory");
    let events = [
        ask(0, Word::Create),
        ask(0, Word::TimedCall),
        ask(1, Word::Delay),
        time(3),
        expire(1, 0),
        ask(1, Word::Select),
        accept(1, 0),
        ask(1, Word::Delay),
        time(6),
        withdraw(0),
    ];
    assert!(rt; !is_taken(alloc, &code, &events).expect(&rt, "memory"));
}

#[test]
fn a_deadline_does_not_hold_up_the_end(rt: HostRuntime) {
    let alloc = rt.alloc();
    let main = [(Word::Create, 0, false, 0)];
    let server = [(Word::Select, 2, false, 1000), (Word::Print, 100, false, 0)];
    let code = program(alloc, &main, &server).expect(&rt, "memory");
    let ran = run(alloc, &code, 100, &[1000]).expect(&rt, "memory");
    let events = [
        ask(0, Word::Create),
        ask(0, Word::Done),
        ask(1, Word::Select),
        Event::End,
    ];
    assert!(rt; has_events(&ran.journal, &events));
    assert!(rt; ran.standing == Standing::Ended { faulted: false });
    assert_eq!(rt; ran.printed.len(), 0);
    assert!(rt; is_taken(alloc, &code, &events).expect(&rt, "memory"));
}

#[test]
fn a_send_after_a_delay_to_a_process_that_ended_is_no_fault(rt: HostRuntime) {
    let alloc = rt.alloc();
    let main = [
        (Word::Create, 0, false, 0),
        (Word::Delay, 0, false, 1),
        (Word::Send, 1, false, 0),
    ];
    let code = program(alloc, &main, &[]).expect(&rt, "memory");
    let ran = run(alloc, &code, 100, &[1]).expect(&rt, "memory");
    let events = [
        ask(0, Word::Create),
        ask(0, Word::Delay),
        ask(1, Word::Done),
        time(1),
        expire(0, 0),
        ask(0, Word::Send),
        ask(0, Word::Done),
    ];
    assert!(rt; has_events(&ran.journal, &events));
    assert!(rt; ran.standing == Standing::Ended { faulted: false });
    assert!(rt; is_taken(alloc, &code, &events).expect(&rt, "memory"));
}

#[test]
fn a_select_expires_by_the_first_of_its_least_deadlines(rt: HostRuntime) {
    let alloc = rt.alloc();
    let main = [(Word::Create, 0, false, 0)];
    let server = [(Word::Select, 3, false, 3), (Word::Print, 97, false, 0)];
    let code = program(alloc, &main, &server).expect(&rt, "memory");
    let ran = run(alloc, &code, 100, &[3]).expect(&rt, "memory");
    let events = [
        ask(0, Word::Create),
        ask(0, Word::Done),
        ask(1, Word::Select),
        time(3),
        expire(1, 1),
        ask(1, Word::Print),
        ask(1, Word::Done),
    ];
    assert!(rt; has_events(&ran.journal, &events));
    assert!(rt; ran.printed.as_slice() == b"a".as_slice());
    assert!(rt; is_taken(alloc, &code, &events).expect(&rt, "memory"));
}

#[test]
fn a_select_that_takes_a_call_has_no_deadline_any_more(rt: HostRuntime) {
    let alloc = rt.alloc();
    let main = [(Word::Create, 0, false, 0), (Word::Send, 1, false, 0)];
    let server = [
        (Word::Select, 1, false, 5),
        (Word::Reply, 0, false, 0),
        (Word::Select, 1, false, 9),
    ];
    let code = program(alloc, &main, &server).expect(&rt, "memory");
    let ran = run(alloc, &code, 100, &[]).expect(&rt, "memory");
    let events = [
        ask(0, Word::Create),
        ask(0, Word::Send),
        ask(1, Word::Select),
        accept(1, 0),
        ask(0, Word::Done),
        ask(1, Word::Reply),
        ask(1, Word::Select),
    ];
    assert!(rt; has_events(&ran.journal, &events));
    assert!(rt; ran.standing == Standing::Idle { until: 9 });
    assert!(rt; is_taken(alloc, &code, &events).expect(&rt, "memory"));
}

#[test]
fn a_call_to_a_process_that_ends_has_no_deadline_any_more(rt: HostRuntime) {
    let alloc = rt.alloc();
    let main = [
        (Word::Create, 0, false, 0),
        (Word::TimedCall, 1, false, 50),
        (Word::Select, 0, false, 0),
    ];
    let code = program(alloc, &main, &[]).expect(&rt, "memory");
    let ran = run(alloc, &code, 100, &[]).expect(&rt, "memory");
    let events = [
        ask(0, Word::Create),
        ask(0, Word::TimedCall),
        ask(1, Word::Done),
        ask(0, Word::Select),
    ];
    assert!(rt; has_events(&ran.journal, &events));
    assert!(rt; ran.standing == Standing::Stuck);
    assert!(rt; is_taken(alloc, &code, &events).expect(&rt, "memory"));
}

#[test]
fn of_one_deadline_a_process_goes_on_before_a_call_is_withdrawn(rt: HostRuntime) {
    let alloc = rt.alloc();
    let main = [
        (Word::Create, 0, false, 0),
        (Word::TimedCall, 1, true, 3),
        (Word::Print, 108, false, 0),
    ];
    let server = [(Word::Select, 1, false, 3)];
    let code = program(alloc, &main, &server).expect(&rt, "memory");
    let ran = run(alloc, &code, 100, &[2, 4]).expect(&rt, "memory");
    let events = [
        ask(0, Word::Create),
        ask(0, Word::TimedCall),
        ask(1, Word::Select),
        time(2),
        time(4),
        expire(1, 1),
        withdraw(0),
        ask(1, Word::Done),
        ask(0, Word::Print),
        ask(0, Word::Done),
    ];
    assert!(rt; has_events(&ran.journal, &events));
    assert!(rt; ran.printed.as_slice() == b"l".as_slice());
    assert!(rt; is_taken(alloc, &code, &events).expect(&rt, "memory"));
}
