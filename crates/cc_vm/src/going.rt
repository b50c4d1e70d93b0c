//! How a process goes on after a grant, up to what it asks next.

ghost use Rattle.std.specs.Prelude.{◌≡◌, ◌+◌, ◌-◌, ◌<◌, ◌≤◌, ℕ, List, Some, length, slice_get, IfOk};
ghost use Rattle.cc_base.specs.Grants.{Answers};
ghost use Rattle.cc_base.specs.declared.alternatives.Alt.{Alt};
ghost use Rattle.cc_base.specs.declared.request.Request.{Request};
ghost use Rattle.cc_code.specs.Meaning.{meaning};
ghost use Rattle.cc_code.specs.Operands.{gives, takes};
ghost use Rattle.cc_code.specs.Rules.{IsVerified};
ghost use Rattle.cc_code.specs.declared.instr.Instr.{Instr};
ghost use Rattle.cc_vm.specs.Asking.{Requested};
ghost use Rattle.cc_vm.specs.Going.{Advances, Answered, Awaits, Comes, GoesOn, IsAsking, Pends, TicksAgain};
ghost use Rattle.cc_vm.specs.Granting.{IsFull};
ghost use Rattle.cc_vm.specs.Lists.{IsReady, kept_state, ticked_again};
ghost use Rattle.cc_vm.specs.Offering.{IsOffer};
ghost use Rattle.cc_vm.specs.Running.{Follows, IsLeft, IsRoom};

use crate::asks::request_of;
use crate::lists::Lists;
use crate::offers::{is_offer, open_next};
use crate::pauses::{instr_at, run_on};
use crate::resumes::resume;
use crate::selects::{resume_select, select};
use cc_base::limits::TICKS_GRANTED;
use cc_base::{Alts, FaultKind, Grant, Memory, Request};
use cc_code::{Instr, RawCode};
use std::alloc::Global;

/// What an instruction asks by what stands on the stack.
fn ask_request(
    alloc: Global,
    raw: &RawCode,
    stack: &[i64],
    top: usize,
    instr: Instr,
) -> Result<Request, Memory>
    requires operands { takes raw.now instr ≤ top }
    requires top { top ≤ length stack.now }
    requires asks { IsAsking instr }
    ensures { IfOk result (λ q. Requested raw.now instr stack.now top (Some q)) }
{
    match request_of(alloc, raw, stack, top, instr)? {
        Some(request) => Ok(request),
        None => Ok(Request::Done),
    }
}

/// What is asked by a process that stands before this instruction, which the loop leaves and which opens no alternative.
fn ask(
    alloc: Global,
    raw: &RawCode,
    room: usize,
    lists: &Lists,
    alts: &mut Alts,
    instr: Instr,
) -> Result<Request, Memory>
    requires verified { IsVerified raw.now }
    requires room { IsRoom raw.now room }
    requires ready { IsReady raw.now room lists.now }
    requires there { slice_get raw.now.instrs lists.now.registers.at ≡ Some instr }
    requires left { IsLeft instr lists.now.registers.ticks }
    requires stays { IsOffer instr → ⊥ }
    ensures { IfOk result (Awaits raw.now lists.now alts.new alts.old instr) }
{
    let _ = room;
    match instr {
        Instr::Tick => Ok(Request::Pause),
        Instr::SelWait(_) => Ok(select(alloc, alts)),
        _ => {
            let top = lists.registers.top;
            let request = ask_request(alloc, raw, lists.stack.as_slice(), top, instr)?;
            Ok(request)
        }
    }
}

/// Runs up to what is asked, or past one instruction that opens an alternative.
fn advance_once(
    alloc: Global,
    raw: &RawCode,
    room: usize,
    lists: &mut Lists,
    alts: &mut Alts,
) -> Result<Option<Request>, Memory>
    requires verified { IsVerified raw.now }
    requires room { IsRoom raw.now room }
    requires ready { IsReady raw.now room lists.old }
    ensures { IfOk result (Advances raw.now room lists.old alts.old lists.new alts.new) }
{
    match run_on(raw, room, lists)? {
        Some(kind) => return Ok(Some(Request::Fault { kind })),
        None => {}
    }
    let instr = instr_at(raw, lists.registers.at);
    if !is_offer(instr) {
        let request = ask(alloc, raw, room, lists, alts, instr)?;
        return Ok(Some(request));
    }
    match open_next(alloc, raw, room, lists, alts, instr)? {
        Some(kind) => Ok(Some(Request::Fault { kind })),
        None => Ok(None),
    }
}

/// Runs up to what is asked.
pub(crate) fn advance(
    alloc: Global,
    raw: &RawCode,
    room: usize,
    lists: &mut Lists,
    alts: &mut Alts,
) -> Result<Request, Memory>
    requires verified { IsVerified raw.now }
    requires room { IsRoom raw.now room }
    requires ready { IsReady raw.now room lists.old }
    ensures { IfOk result (Comes raw.now room (λ process fed. Follows raw.now process fed (kept_state lists.old alts.old)) lists.new alts.new) }
{
    'offers: loop {
        match advance_once(alloc, raw, room, lists, alts)? {
            Some(request) => return Ok(request),
            None => {}
        }
    }
}

/// Goes on after the grant that ends a pause: the first of the new ticks is spent.
fn resume_tick(lists: &mut Lists)
    requires { lists.old.registers.at < 65535 }
    ensures { TicksAgain lists.old lists.new }
{
    lists.registers.at += 1;
    lists.registers.ticks = TICKS_GRANTED - 1;
    lists.registers.count = 0;
}

/// Goes on after the grant that answers what the instruction asks; or the fault that comes of it.
fn resume_at(
    alloc: Global,
    raw: &RawCode,
    lists: &mut Lists,
    instr: Instr,
    grant: &Grant,
) -> Result<Option<FaultKind>, Memory>
    requires operands { takes raw.now instr ≤ lists.old.registers.top }
    requires low { lists.old.registers.at < 65535 }
    requires top { lists.old.registers.top ≤ length lists.old.stack.items }
    requires room { lists.old.registers.top - takes raw.now instr + gives raw.now instr ≤ length lists.old.stack.items }
    requires first { lists.old.registers.first ≤ lists.old.registers.end }
    requires end { lists.old.registers.end ≤ length lists.old.cells.items }
    requires full { IsFull raw.now instr grant.now }
    ensures { IfOk result (Answered raw.now instr grant.now lists.old lists.new) }
{
    match instr {
        Instr::Tick => {
            resume_tick(lists);
            Ok(None)
        }
        Instr::SelWait(table) => Ok(resume_select(alloc, raw, lists, table, grant)),
        _ => {
            let fault = resume(alloc, raw, lists, instr, grant)?;
            Ok(fault)
        }
    }
}

/// Goes on after a grant, up to what is asked next.
pub(crate) fn go_on(
    alloc: Global,
    raw: &RawCode,
    room: usize,
    lists: &mut Lists,
    alts: &mut Alts,
    grant: &Grant,
) -> Result<Request, Memory>
    requires verified { IsVerified raw.now }
    requires room { IsRoom raw.now room }
    requires pends { (offers : List (ℕ × Alt)) × (i : Instr) × (q : Request) × Pends raw.now room lists.old alts.old offers i q × Answers (meaning raw.now) q grant.now }
    ensures { IfOk result (λ r. (offers : List (ℕ × Alt)) (i : Instr) (q : Request) → Pends raw.now room lists.old alts.old offers i q
        → Answers (meaning raw.now) q grant.now → GoesOn raw.now room lists.old offers grant.now lists.new alts.new r) }
{
    let instr = instr_at(raw, lists.registers.at);
    match resume_at(alloc, raw, lists, instr, grant)? {
        Some(kind) => Ok(Request::Fault { kind }),
        None => {
            let request = advance(alloc, raw, room, lists, alts)?;
            Ok(request)
        }
    }
}
