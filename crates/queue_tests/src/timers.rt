ghost use Rattle.std.specs.Prelude.{◌≡◌};

use cc_base::{CallId, Pid};
use cc_timer::{Timers, Who};
use std::rt::HostRuntime;

fn process(number: u32) -> Who {
    Who::Process(Pid(number))
}

fn call(number: u32) -> Who {
    Who::Call(CallId(number))
}

#[test]
fn the_earliest_deadline_is_due_first(rt: HostRuntime) {
    let mut timers = Timers::new(rt.alloc());
    assert_eq!(rt; timers.earliest(), None);
    assert!(rt; timers.reserve(2).is_ok());
    timers.add(5, process(0));
    timers.add(3, call(0));
    assert_eq!(rt; timers.earliest(), Some(3));
    assert_eq!(rt; timers.first_due(2), None);
    assert_eq!(rt; timers.first_due(3), Some(call(0)));
}

#[test]
fn a_process_is_due_before_a_call(rt: HostRuntime) {
    let mut timers = Timers::new(rt.alloc());
    assert!(rt; timers.reserve(2).is_ok());
    timers.add(4, call(1));
    timers.add(4, process(9));
    assert_eq!(rt; timers.first_due(4), Some(process(9)));
    timers.remove(4, process(9));
    assert_eq!(rt; timers.first_due(4), Some(call(1)));
}

#[test]
fn a_deadline_stands_once_and_is_taken_from_anywhere(rt: HostRuntime) {
    let mut timers = Timers::new(rt.alloc());
    assert!(rt; timers.reserve(4).is_ok());
    timers.add(1, call(7));
    timers.add(2, call(6));
    timers.add(3, call(5));
    timers.add(3, call(5));
    timers.remove(2, call(6));
    timers.remove(9, call(9));
    timers.remove(1, call(7));
    assert_eq!(rt; timers.first_due(9), Some(call(5)));
    timers.remove(3, call(5));
    assert_eq!(rt; timers.earliest(), None);
}
