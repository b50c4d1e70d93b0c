//! Straight programs: what their processes ask, and which calls fit.
use crate::trees::{call_of_null, main_of, rendezvous};
use cc_base::{Behave, Cells, Grant, Memory, Pid, Request};
use cc_source::{Early, Grants, Program};
use cc_typed::{DataType, ProgramParts};
use sqlite_items::Items;
use std::alloc::{AllocError, Global};
use std::rt::HostRuntime;
use std::sync::Arc;

/// These cells.
fn cells(alloc: Global, numbers: &[i64]) -> Result<Cells, Memory> {
    let mut cells = Cells::new(alloc);
    for number in numbers {
        cells.push(*number)?;
    }
    Ok(cells)
}

/// What a process of this kind asks after each of these grants, a line each; nothing where the parts are not typed.
fn requests(
    alloc: Global,
    parts: Result<ProgramParts, AllocError>,
    kind: u32,
    next: Vec<Grant>,
) -> Result<String, Memory> {
    let mut text = String::new(alloc);
    let Some(program) = Program::new(alloc, parts?)? else {
        return Ok(text);
    };
    if !program.is_straight() {
        return Ok(text);
    }
    let Some(0) = program.kind_cells(kind) else {
        return Ok(text);
    };
    let mut grants = Grants::new(alloc);
    for grant in next {
        grants.push(grant)?;
        let asked = program.act_plain(alloc, kind, &Cells::new(alloc), &grants)?;
        if writeln!(text, "{asked:?}").is_err() {
            return Err(Memory);
        }
    }
    Ok(text)
}

#[test]
fn main_creates_calls_and_prints(rt: HostRuntime) {
    let alloc = rt.alloc();
    let value = cells(alloc, &[66]).expect(&rt, "memory");
    let next = vec![in alloc;
        Grant::Go,
        Grant::Made(Pid(1)),
        Grant::Value(value),
        Grant::Go,
    ];
    let next = next.expect(&rt, "memory");
    let asked = requests(alloc, rendezvous(alloc), 0, next).expect(&rt, "memory");
    let want = "Create { kind: 1, args: Cells { items: [] } }
Call { target: Pid(1), trans: 0, args: Cells { items: [65] } }
Print { bytes: Bytes { items: [66] } }
Done
";
    assert_eq!(rt; asked.as_str(), want);
}

#[test]
fn the_server_accepts_prints_and_replies(rt: HostRuntime) {
    let alloc = rt.alloc();
    let args = cells(alloc, &[65]).expect(&rt, "memory");
    let took = Grant::Took { alt: 0, args };
    let next = vec![in alloc; Grant::Go, took, Grant::Go, Grant::Go].expect(&rt, "memory");
    let asked = requests(alloc, rendezvous(alloc), 1, next).expect(&rt, "memory");
    let want =
        "Select { alts: Alts { items: [(0, Accept { trans: 0, site: 0, env: Cells { items: [] } })] } }
Print { bytes: Bytes { items: [65] } }
Reply { value: Cells { items: [66] } }
Done
";
    assert_eq!(rt; asked.as_str(), want);
}

#[test]
fn a_call_fits_with_its_number_of_cells(rt: HostRuntime) {
    let alloc = rt.alloc();
    let parts = rendezvous(alloc).expect(&rt, "memory");
    let program = Program::new(alloc, parts).expect(&rt, "memory");
    let program = program.expect(&rt, "typed");
    assert!(rt; program.is_straight());
    let none = Cells::new(alloc);
    let args = cells(alloc, &[65]).expect(&rt, "memory");
    let early = Early::new(program).expect(&rt, "straight");
    assert_eq!(rt; early.fit(0, &none, &args), Some(0));
    assert_eq!(rt; early.fit(1, &none, &args), None);
    assert_eq!(rt; early.fit(0, &args, &args), None);
    assert_eq!(rt; early.fit(0, &none, &none), None);
}

#[test]
fn a_call_of_null_is_a_fault(rt: HostRuntime) {
    let alloc = rt.alloc();
    let next = vec![in alloc; Grant::Go].expect(&rt, "memory");
    let asked = requests(alloc, call_of_null(alloc), 0, next).expect(&rt, "memory");
    assert_eq!(rt; asked.as_str(), "Fault { kind: NullProcess }\n");
}

#[test]
fn the_machine_runs_a_straight_program(rt: HostRuntime) {
    let alloc = rt.alloc();
    let parts = call_of_null(alloc).expect(&rt, "memory");
    let program = Program::new(alloc, parts).expect(&rt, "memory");
    let program = program.expect(&rt, "typed");
    let early = Early::new(program).expect(&rt, "straight");
    let early = Arc::new(alloc, early).expect(&rt, "memory");
    let mut process = Early::start(&early, alloc, 0, Cells::new(alloc)).expect(&rt, "memory");
    let asked = Early::go(&mut process, alloc, Grant::Go).expect(&rt, "memory");
    assert!(rt; matches!(&asked, Request::Fault { .. }));
}

/// The type of `main` counts: a `main` of type `long` is typed, but not straight.
#[test]
fn the_type_of_main_counts(rt: HostRuntime) {
    let alloc = rt.alloc();
    let mut parts = call_of_null(alloc).expect(&rt, "memory");
    let mut main = main_of(alloc, &[], Items::new(alloc)).expect(&rt, "memory");
    main.result = DataType::long();
    assert!(rt; !parts.kinds.is_empty());
    parts.kinds.set(0, main);
    let program = Program::new(alloc, parts).expect(&rt, "memory");
    assert!(rt; !program.expect(&rt, "typed").is_straight());
}
