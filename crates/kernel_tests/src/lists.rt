//! The lists of the machine: journals and faults.
use cc_base::{FaultKind, Pid};
use cc_rules::{Event, Faults, Journal, Word};
use std::rt::HostRuntime;

#[test]
fn events_are_added_in_the_room_that_was_made(rt: HostRuntime) {
    let mut journal = Journal::new(rt.alloc());
    journal.reserve(1).expect(&rt, "memory");
    journal.add(Event::End);
    assert_eq!(rt; journal.len(), 1);
    let done = Event::Ask {
        pid: Pid(0),
        word: Word::Done,
    };
    assert!(rt; journal.push(done).is_ok());
    assert!(rt; journal.get(0) == Some(&Event::End));
    assert!(rt; journal.get(1) == Some(&done));
    assert!(rt; journal.get(2).is_none());
}

#[test]
fn faults_stand_by_number(rt: HostRuntime) {
    let mut faults = Faults::new(rt.alloc());
    faults.reserve(1).expect(&rt, "memory");
    faults.add((Pid(0), FaultKind::Depth));
    assert_eq!(rt; faults.len(), 1);
    assert!(rt; faults.get(0) == Some(&(Pid(0), FaultKind::Depth)));
    assert!(rt; faults.get(1).is_none());
}

#[test]
fn a_fault_is_put_between_others(rt: HostRuntime) {
    let mut faults = Faults::new(rt.alloc());
    assert!(rt; faults.push((Pid(1), FaultKind::Index)).is_ok());
    faults.reserve(2).expect(&rt, "memory");
    if faults.get(0) == Some(&(Pid(1), FaultKind::Index)) {
        faults.add((Pid(5), FaultKind::Depth));
        faults.add((Pid(3), FaultKind::Cells));
    }
    assert!(rt; faults.get(1) == Some(&(Pid(3), FaultKind::Cells)));
    assert!(rt; faults.get(2) == Some(&(Pid(5), FaultKind::Depth)));
}
