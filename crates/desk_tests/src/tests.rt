use crate::{MemSink, Tray, by_two, count, hand_in, hand_out, in_turn, one_event, spread, step};
use cc_desk::Desk;
use std::test::Fail;

#[test]
fn an_event_is_there_afterwards(rt: HostRuntime) -> Result<(), Fail> {
    let tray = Tray::new(rt.alloc(), MemSink::new(rt.alloc()));
    let Some(tray) = one_event(&rt, rt.alloc(), tray, 7) else {
        panic!(rt; "no memory")
    };
    assert!(rt; tray.len() == 1);
    Ok(())
}

#[test]
fn seats_are_made_and_joined(rt: HostRuntime) -> Result<(), Fail> {
    let tray = Tray::new(rt.alloc(), MemSink::new(rt.alloc()));
    let Ok((desk, mut first)) = Desk::open(rt.alloc(), tray) else {
        panic!(rt; "no memory")
    };
    let mut second = desk.seat(&mut first);
    let third = desk.seat(&mut second);
    desk.join(&mut second, third);
    desk.join(&mut first, second);
    let tray = desk.close(&rt, first);
    assert!(rt; tray.len() == 0);
    Ok(())
}

#[test]
fn two_threads_add_an_event_each(rt: HostRuntime) -> Result<(), Fail> {
    let tray = Tray::new(rt.alloc(), MemSink::new(rt.alloc()));
    let Some(tray) = by_two(&rt, rt.alloc(), tray, 1, 2) else {
        panic!(rt; "no memory")
    };
    assert!(rt; tray.len() == 2);
    Ok(())
}

#[test]
fn eight_workers_add_an_event_each(rt: HostRuntime) -> Result<(), Fail> {
    let tray = Tray::new(rt.alloc(), MemSink::new(rt.alloc()));
    let Ok((desk, seat)) = Desk::open(rt.alloc(), tray) else {
        panic!(rt; "no memory")
    };
    let seat = spread(&rt, &desk, seat, 8);
    let tray = desk.close(&rt, seat);
    assert!(rt; tray.len() == 8);
    Ok(())
}

#[test]
fn two_seats_have_the_turn_in_turn(rt: HostRuntime) -> Result<(), Fail> {
    let tray = Tray::new(rt.alloc(), MemSink::new(rt.alloc()));
    let Ok((desk, mut first)) = Desk::open(rt.alloc(), tray) else {
        panic!(rt; "no memory")
    };
    let mut second = desk.seat(&mut first);
    step(&rt, &desk, &mut first, 1);
    step(&rt, &desk, &mut second, 2);
    step(&rt, &desk, &mut first, 3);
    assert!(rt; count(&rt, &desk, &mut second) == 3);
    Ok(())
}

#[test]
fn what_is_out_is_there_again(rt: HostRuntime) -> Result<(), Fail> {
    let tray = Tray::new(rt.alloc(), MemSink::new(rt.alloc()));
    let Ok((desk, mut first)) = Desk::open(rt.alloc(), tray) else {
        panic!(rt; "no memory")
    };
    if !hand_out(&rt, &desk, &mut first, 3, 4) {
        panic!(rt; "no memory")
    }
    assert!(rt; hand_in(&rt, &desk, &mut first, 3, 4).len() == 0);
    Ok(())
}

#[test]
fn the_value_comes_back(rt: HostRuntime) -> Result<(), Fail> {
    let tray = Tray::new(rt.alloc(), MemSink::new(rt.alloc()));
    let Ok((desk, first)) = Desk::open(rt.alloc(), tray) else {
        panic!(rt; "no memory")
    };
    let tray = in_turn(&rt, desk, first);
    assert!(rt; tray.len() == 0);
    Ok(())
}
