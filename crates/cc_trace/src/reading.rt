//! From a text to its journal.

ghost use Rattle.std.specs.Prelude.{◌≡◌, List, ℕ, IfOk, IfErr, option_map};
ghost use Rattle.cc_rules.specs.declared.event.Event.{Event};
ghost use Rattle.cc_trace.specs.Reading as reading;
ghost use Rattle.cc_trace.specs.Text.{FirstBadLine, IsBadLineOrMemory, IsFirstWhereBad, IsJournalOrMemory, IsTextOf};

use crate::fault::TraceError;
use crate::names::{NAMES, Name, WORDS, row_at};
use crate::numbers::{number_at, small_at};
use cc_base::{CallId, Pid};
use cc_rules::{Event, Journal};
use std::alloc::Global;

/// What is left of `ask P WORD` after its name.
#[tactic(auto, unfolding(crate::specs::Reading::ask_at))]
fn ask_at(text: &[u8]) -> Option<(Event, &[u8])>
    ensures { option_map (λ found. (found.0, found.1.now)) result ≡ reading.ask_at text.now }
{
    let (pid, text) = small_at(b' ', text)?;
    let (word, text) = row_at(&WORDS, text)?;
    Some((
        Event::Ask {
            pid: Pid(pid),
            word,
        },
        text,
    ))
}

/// What is left of `accept P ALT CALL` after its name.
#[tactic(auto, unfolding(crate::specs::Reading::accept_at))]
fn accept_at(text: &[u8]) -> Option<(Event, &[u8])>
    ensures { option_map (λ found. (found.0, found.1.now)) result ≡ reading.accept_at text.now }
{
    let (pid, text) = small_at(b' ', text)?;
    let (alt, text) = small_at(b' ', text)?;
    let (call, text) = small_at(b'\n', text)?;
    Some((
        Event::Accept {
            pid: Pid(pid),
            alt,
            call: CallId(call),
        },
        text,
    ))
}

/// What is left of `instant P ALT` after its name.
#[tactic(auto, unfolding(crate::specs::Reading::instant_at))]
fn instant_at(text: &[u8]) -> Option<(Event, &[u8])>
    ensures { option_map (λ found. (found.0, found.1.now)) result ≡ reading.instant_at text.now }
{
    let (pid, text) = small_at(b' ', text)?;
    let (alt, text) = small_at(b'\n', text)?;
    Some((Event::Instant { pid: Pid(pid), alt }, text))
}

/// What is left of `expire P ALT` after its name.
#[tactic(auto, unfolding(crate::specs::Reading::expire_at))]
fn expire_at(text: &[u8]) -> Option<(Event, &[u8])>
    ensures { option_map (λ found. (found.0, found.1.now)) result ≡ reading.expire_at text.now }
{
    let (pid, text) = small_at(b' ', text)?;
    let (alt, text) = small_at(b'\n', text)?;
    Some((Event::Expire { pid: Pid(pid), alt }, text))
}

/// What is left of `withdraw CALL` after its name.
#[tactic(auto, unfolding(crate::specs::Reading::withdraw_at))]
fn withdraw_at(text: &[u8]) -> Option<(Event, &[u8])>
    ensures { option_map (λ found. (found.0, found.1.now)) result ≡ reading.withdraw_at text.now }
{
    let (call, text) = small_at(b'\n', text)?;
    Some((Event::Withdraw { call: CallId(call) }, text))
}

/// What is left of `time T` after its name.
#[tactic(auto, unfolding(crate::specs::Reading::time_at))]
fn time_at(text: &[u8]) -> Option<(Event, &[u8])>
    ensures { option_map (λ found. (found.0, found.1.now)) result ≡ reading.time_at text.now }
{
    let (moment, text) = number_at(u64::MAX, b'\n', text)?;
    Some((Event::Time { moment }, text))
}

/// The event whose line stands at the front of the text, and the text after it.
#[tactic(auto, unfolding(crate::specs::Reading::event_at))]
fn event_at(text: &[u8]) -> Option<(Event, &[u8])>
    ensures { option_map (λ found. (found.0, found.1.now)) result ≡ reading.event_at text.now }
{
    let (name, text) = row_at(&NAMES, text)?;
    match name {
        Name::Ask => ask_at(text),
        Name::Accept => accept_at(text),
        Name::Instant => instant_at(text),
        Name::Expire => expire_at(text),
        Name::Withdraw => withdraw_at(text),
        Name::Time => time_at(text),
        Name::End => Some((Event::End, text)),
    }
}

/// The journal of a text, or the number of its first line, from 1, that is no event's.
pub fn read_journal(alloc: Global, text: &[u8]) -> Result<Journal, TraceError>
    // What is read is the journal of the text.
    ensures journal { IfOk result (λ journal. IsTextOf text.now journal.items) }
    // The text of each journal is read as that journal.
    ensures each_journal { (events : List Event) → IsTextOf text.now events → IsJournalOrMemory events result }
    // A line that is found bad is the first that is.
    ensures bad_line { IfErr result (λ error. IsFirstWhereBad text.now error) }
    // The first bad line is found.
    ensures each_bad_line { (n : ℕ) → FirstBadLine text.now n → IsBadLineOrMemory n result }
{
    let mut journal = Journal::new(alloc);
    let mut rest = text;
    while !rest.is_empty() {
        let Some((event, after)) = event_at(rest) else {
            return Err(TraceError::BadLine(journal.len() as u64 + 1));
        };
        journal.push(event)?;
        rest = after;
    }
    Ok(journal)
}
