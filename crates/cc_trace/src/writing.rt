//! From a journal to its text.

ghost use Rattle.std.specs.Prelude.{◌≡◌, ◌<◌, ◌^◌, ◌∷◌, ◌++◌, map, decimal, IfOk, OnOk};
ghost use Rattle.cc_rules.specs.declared.event.Event.TheVariants.{Ask, Time};
ghost use Rattle.cc_trace.specs.Text.{IsTextOf, IsWithinBounds, line, spaced, word_name};

use cc_base::{Bytes, Memory};
use cc_rules::{Event, Journal, Word};
use itoa::Buffer;
use std::alloc::Global;

/// The name of a request.
fn word_name(word: Word) -> &'static str
    ensures { result.now ≡ word_name word }
{
    match word {
        Word::Pause => "pause",
        Word::Create => "create",
        Word::Call => "call",
        Word::TimedCall => "timedcall",
        Word::Send => "send",
        Word::Select => "select",
        Word::Delay => "delay",
        Word::Reply => "reply",
        Word::Print => "print",
        Word::Get => "get",
        Word::Done => "done",
        Word::Fault => "fault",
    }
}

/// Puts a line of numbers after its name.
fn put_numbers(text: &mut Bytes, name: &str, numbers: &[u64]) -> Result<(), Memory>
    ensures { OnOk result (text.new ≡ text.old ++ name.now ++ spaced (map decimal numbers.now)) }
{
    let mut buffer = Buffer::new();
    text.append(name.as_bytes())?;
    for number in numbers {
        text.push(b' ')?;
        text.append(buffer.format(*number).as_bytes())?;
    }
    text.push(b'\n')
}

/// Puts the line of the asking of a request.
fn put_ask(text: &mut Bytes, pid: u32, word: Word) -> Result<(), Memory>
    ensures within_bounds { pid < 2 ^ 32 }
    ensures line { OnOk result (text.new ≡ text.old ++ line (Ask (record { 0 = pid }) word)) }
{
    text.append(b"ask ")?;
    text.append(Buffer::new().format(pid).as_bytes())?;
    text.push(b' ')?;
    text.append(word_name(word).as_bytes())?;
    text.push(b'\n')
}

/// Puts the line of a moment.
fn put_time(text: &mut Bytes, moment: u64) -> Result<(), Memory>
    ensures within_bounds { moment < 2 ^ 64 }
    ensures line { OnOk result (text.new ≡ text.old ++ line (Time moment)) }
{
    put_numbers(text, "time", &[moment])
}

/// The number of a process, an alternative or a call.
fn small(number: u32) -> u64
    ensures within_bounds { number < 2 ^ 32 }
    ensures value { result ≡ number }
{
    u64::from(number)
}

/// Puts the line of an event.
fn put_event(text: &mut Bytes, event: &Event) -> Result<(), Memory>
    ensures line { OnOk result (text.new ≡ text.old ++ line event.now) }
    ensures within_bounds { IsWithinBounds event.now }
{
    match *event {
        Event::Ask { pid, word } => put_ask(text, pid.0, word),
        Event::Accept { pid, alt, call } => put_numbers(
            text,
            "accept",
            &[small(pid.0), small(alt), small(call.0)],
        ),
        Event::Instant { pid, alt } => { put_numbers(text, "instant", &[small(pid.0), small(alt)]) }
        Event::Expire { pid, alt } => { put_numbers(text, "expire", &[small(pid.0), small(alt)]) }
        Event::Withdraw { call } => put_numbers(text, "withdraw", &[small(call.0)]),
        Event::Time { moment } => put_time(text, moment),
        Event::End => put_numbers(text, "end", &[]),
    }
}

/// The text of a journal.
pub fn write_journal(alloc: Global, journal: &Journal) -> Result<Bytes, Memory>
    ensures text { IfOk result (λ text. IsTextOf text journal.now.items) }
{
    let mut text = Bytes::new(alloc);
    for at in 0..journal.len() {
        if let Some(event) = journal.get(at) {
            put_event(&mut text, event)?;
        }
    }
    Ok(text)
}
