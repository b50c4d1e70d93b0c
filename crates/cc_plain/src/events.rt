//! When an event is legal, and what it does.
ghost use Rattle.std.specs.Prelude.{◌≡◌, ◌<◌, ◌∷◌, ◌&&◌, [], None, Some, false, true, if◌then◌else◌, IfOk, MatchOption, nat_lt, not};
ghost use Rattle.cc_rules.specs.Events.{expiry_grant, is_allowed, is_end, is_legal, is_time, next, outcome, request_at, same_word};
ghost use Rattle.cc_rules.specs.Ends.{has_deadline, has_running};
ghost use Rattle.cc_rules.specs.Runs.{bytes_of, event_bytes, turns};
ghost use Rattle.cc_rules.specs.Sound.{Sound};
ghost use Rattle.cc_rules.specs.declared.event.Event.TheVariants as event;

use crate::choice::{accepts, expires, may_withdraw, takes_at_once};
use crate::ends::{has_deadline, is_due, is_stuck, is_unsettled};
use crate::requests::request_of;
use crate::state::PlainState;
use cc_base::{Behave, Bytes, CallId, Grant, Memory, Pid, Request};
use cc_rules::{Event, ProcessStanding, Word};
use std::sync::Arc;

/// What an event leaves: the state, and the bytes that it prints.
#[derive(Drop)]
pub(crate) struct Taken {
    pub(crate) state: PlainState,
    pub(crate) bytes: Bytes,
}

fn is_end(event: &Event) -> bool
    ensures { result ≡ is_end event.now }
{
    matches!(event, Event::End)
}

fn is_time(event: &Event) -> bool
    ensures { result ≡ is_time event.now }
{
    matches!(event, Event::Time { .. })
}

/// How many turns the event is: an Ask and a Time are one.
pub(crate) fn turns_of(event: &Event) -> u32
    ensures { result ≡ turns (event.now ∷ []) }
{
    match event {
        Event::Ask { .. } | Event::Time { .. } => 1,
        _ => 0,
    }
}

fn same_word(first: Word, second: Word) -> bool
    ensures { result ≡ same_word first second }
{
    first == second
}

// What the process asks, where it may ask something of this word.
fn asked<B: Behave>(
    code: &Arc<B>,
    state: &PlainState,
    pid: Pid,
    word: Word,
) -> Result<Option<Request>, Memory>
    requires sound { Sound (B.means code.now.value) state.now }
    ensures { IfOk result (λ o. MatchOption o (is_allowed (B.means code.now.value) state.now (event.Ask pid word) ≡ false) (λ r. (is_allowed (B.means code.now.value) state.now (event.Ask pid word) ≡ true) × (r ≡ request_at (B.means code.now.value) state.now pid))) }
{
    let Some(process) = state.process(pid.0 as usize) else {
        return Ok(None);
    };
    if !process.standing().is_running() {
        return Ok(None);
    }
    let request = request_of(code, state.alloc(), process)?;
    if !same_word(word, Word::of(&request)) {
        return Ok(None);
    }
    Ok(Some(request))
}

// The bytes that the request prints.
fn bytes_of(request: &Request, none: Bytes) -> Result<Bytes, Memory>
    requires { none ≡ [] }
    ensures { IfOk result (λ bytes. bytes ≡ bytes_of request.now) }
{
    match request {
        Request::Print { bytes } => bytes.copy(),
        _ => Ok(none),
    }
}

fn ask<B: Behave>(
    code: &Arc<B>,
    state: &PlainState,
    pid: Pid,
    word: Word,
) -> Result<Option<Taken>, Memory>
    requires sound { Sound (B.means code.now.value) state.now }
    requires few { state.now.drawn < 4294967295 }
    ensures { IfOk result (λ o. MatchOption o (is_allowed (B.means code.now.value) state.now (event.Ask pid word) ≡ false) (λ t. (is_allowed (B.means code.now.value) state.now (event.Ask pid word) ≡ true) × (t.state ≡ outcome (B.means code.now.value) state.now (event.Ask pid word)) × (t.bytes ≡ event_bytes (B.means code.now.value) state.now (event.Ask pid word)))) }
{
    let Some(request) = asked(code, state, pid, word)? else {
        return Ok(None);
    };
    let bytes = bytes_of(&request, Bytes::new(state.alloc()))?;
    let mut next = state.copy()?;
    next.perform(&**code, state, pid, request)?;
    Ok(Some(Taken { state: next, bytes }))
}

fn accept<B: Behave>(
    code: &B,
    state: &PlainState,
    pid: Pid,
    alt: u32,
    number: CallId,
) -> Result<Option<PlainState>, Memory>
    ensures { IfOk result (λ o. MatchOption o (is_allowed (B.means code.now) state.now (event.Accept pid alt number) ≡ false) (λ t. (is_allowed (B.means code.now) state.now (event.Accept pid alt number) ≡ true) × (t ≡ outcome (B.means code.now) state.now (event.Accept pid alt number)))) }
{
    let at = pid.0 as usize;
    let Some(call) = state.call_numbered(number) else {
        return Ok(None);
    };
    if !accepts(code, state, at, alt, call) {
        return Ok(None);
    }
    let mut next = state.copy()?;
    next.accept(at, alt, call)?;
    Ok(Some(next))
}

fn instant<B: Behave>(
    code: &B,
    state: &PlainState,
    pid: Pid,
    alt: u32,
) -> Result<Option<PlainState>, Memory>
    ensures { IfOk result (λ o. MatchOption o (is_allowed (B.means code.now) state.now (event.Instant pid alt) ≡ false) (λ t. (is_allowed (B.means code.now) state.now (event.Instant pid alt) ≡ true) × (t ≡ outcome (B.means code.now) state.now (event.Instant pid alt)))) }
{
    let at = pid.0 as usize;
    if !takes_at_once(code, state, at, alt) {
        return Ok(None);
    }
    let mut next = state.copy()?;
    next.grant_to(at, Grant::Chose { alt })?;
    Ok(Some(next))
}

// What the process is granted as it expires by this alternative, or at a delay.
fn expiry_grant(standing: &ProcessStanding, alt: u32) -> Grant
    ensures { result ≡ expiry_grant alt standing.now }
{
    match standing {
        ProcessStanding::AtDelay { .. } => Grant::Go,
        _ => Grant::Chose { alt },
    }
}

fn expire<B: Behave>(
    code: &B,
    state: &PlainState,
    pid: Pid,
    alt: u32,
) -> Result<Option<PlainState>, Memory>
    ensures { IfOk result (λ o. MatchOption o (is_allowed (B.means code.now) state.now (event.Expire pid alt) ≡ false) (λ t. (is_allowed (B.means code.now) state.now (event.Expire pid alt) ≡ true) × (t ≡ outcome (B.means code.now) state.now (event.Expire pid alt)))) }
{
    let at = pid.0 as usize;
    if !expires(code, state, at, alt) {
        return Ok(None);
    }
    let Some(standing) = state.standing(at) else {
        return Ok(None);
    };
    let mut next = state.copy()?;
    next.grant_to(at, expiry_grant(standing, alt))?;
    Ok(Some(next))
}

fn withdraw<B: Behave>(
    code: &B,
    state: &PlainState,
    number: CallId,
) -> Result<Option<PlainState>, Memory>
    ensures { IfOk result (λ o. MatchOption o (is_allowed (B.means code.now) state.now (event.Withdraw number) ≡ false) (λ t. (is_allowed (B.means code.now) state.now (event.Withdraw number) ≡ true) × (t ≡ outcome (B.means code.now) state.now (event.Withdraw number)))) }
{
    let Some(call) = state.call_numbered(number) else {
        return Ok(None);
    };
    if !may_withdraw(code, state, call) {
        return Ok(None);
    }
    let mut next = state.copy()?;
    next.withdraw(call)?;
    Ok(Some(next))
}

// Whether a Time of this moment is allowed.
fn allows_time<B: Behave>(code: &B, state: &PlainState, moment: u64) -> bool
    ensures { result ≡ is_allowed (B.means code.now) state.now (event.Time moment) }
{
    state.moment() <= moment
        && !is_unsettled(code, state)
        && !state.is_complete()
        && !is_stuck(code, state)
        && allows_time_in(state, moment)
}

// Whether a Time of this moment may come where the state is settled and goes on.
fn allows_time_in(state: &PlainState, moment: u64) -> bool
    ensures { result ≡ (if has_running state.now then nat_lt state.now.moment moment && not state.now.after_time else has_deadline state.now) }
{
    if state.has_running() {
        state.moment() < moment && !state.is_after_time()
    } else {
        has_deadline(state)
    }
}

fn time<B: Behave>(code: &B, state: &PlainState, moment: u64) -> Result<Option<PlainState>, Memory>
    ensures { IfOk result (λ o. MatchOption o (is_allowed (B.means code.now) state.now (event.Time moment) ≡ false) (λ t. (is_allowed (B.means code.now) state.now (event.Time moment) ≡ true) × (t ≡ outcome (B.means code.now) state.now (event.Time moment)))) }
{
    if !allows_time(code, state, moment) {
        return Ok(None);
    }
    let mut next = state.copy()?;
    next.set_moment(moment);
    Ok(Some(next))
}

// The state that prints nothing.
fn silent(state: Option<PlainState>) -> Option<Taken>
    ensures { MatchOption result (state ≡ None) (λ t. (state ≡ Some t.state) × (t.bytes ≡ [])) }
{
    match state {
        None => None,
        Some(state) => {
            let bytes = Bytes::new(state.alloc());
            Some(Taken { state, bytes })
        }
    }
}

// What comes of the event where the collective end is not due.
fn allowed<B: Behave>(
    code: &Arc<B>,
    state: &PlainState,
    event: &Event,
) -> Result<Option<Taken>, Memory>
    requires sound { Sound (B.means code.now.value) state.now }
    requires few { state.now.drawn < 4294967295 }
    ensures { IfOk result (λ o. MatchOption o (is_allowed (B.means code.now.value) state.now event.now ≡ false) (λ t. (is_allowed (B.means code.now.value) state.now event.now ≡ true) × (t.state ≡ outcome (B.means code.now.value) state.now event.now) × (t.bytes ≡ event_bytes (B.means code.now.value) state.now event.now))) }
{
    match event {
        Event::Ask { pid, word } => ask(code, state, *pid, *word),
        Event::Accept { pid, alt, call } => Ok(silent(accept(&**code, state, *pid, *alt, *call)?)),
        Event::Instant { pid, alt } => Ok(silent(instant(&**code, state, *pid, *alt)?)),
        Event::Expire { pid, alt } => Ok(silent(expire(&**code, state, *pid, *alt)?)),
        Event::Withdraw { call } => Ok(silent(withdraw(&**code, state, *call)?)),
        Event::Time { moment } => Ok(silent(time(&**code, state, *moment)?)),
        Event::End => Ok(None),
    }
}

// The collective end, where it is due.
fn ended<B: Behave>(code: &B, state: &PlainState) -> Result<Taken, Memory>
    ensures { IfOk result (λ t. (t.state ≡ outcome (B.means code.now) state.now event.End) × (t.bytes ≡ [])) }
{
    let mut next = state.copy()?;
    next.end_all(code, state)?;
    let bytes = Bytes::new(state.alloc());
    Ok(Taken { state: next, bytes })
}

// What the event leaves, apart from the mark of the last event; none exactly where it is not legal.
fn legal<B: Behave>(
    code: &Arc<B>,
    state: &PlainState,
    event: &Event,
) -> Result<Option<Taken>, Memory>
    requires sound { Sound (B.means code.now.value) state.now }
    requires few { state.now.drawn < 4294967295 }
    ensures { IfOk result (λ o. MatchOption o (is_legal (B.means code.now.value) state.now event.now ≡ false) (λ t. (is_legal (B.means code.now.value) state.now event.now ≡ true) × (t.state ≡ outcome (B.means code.now.value) state.now event.now) × (t.bytes ≡ event_bytes (B.means code.now.value) state.now event.now))) }
{
    if !is_due(&**code, state) {
        return allowed(code, state, event);
    }
    if !is_end(event) {
        return Ok(None);
    }
    let taken = ended(&**code, state)?;
    Ok(Some(taken))
}

/// What the event leaves; none exactly where it is not legal.
pub(crate) fn take<B: Behave>(
    code: &Arc<B>,
    state: &PlainState,
    event: &Event,
) -> Result<Option<Taken>, Memory>
    requires sound { Sound (B.means code.now.value) state.now }
    requires few { state.now.drawn < 4294967295 }
    ensures { IfOk result (λ o. MatchOption o (is_legal (B.means code.now.value) state.now event.now ≡ false) (λ t. (is_legal (B.means code.now.value) state.now event.now ≡ true) × (t.state ≡ next (B.means code.now.value) state.now event.now) × (t.bytes ≡ event_bytes (B.means code.now.value) state.now event.now))) }
{
    let Some(mut taken) = legal(code, state, event)? else {
        return Ok(None);
    };
    taken.state.mark(is_time(event));
    Ok(Some(taken))
}
