//! The least deadline that stands.
ghost use Rattle.std.specs.Prelude.{◌≡◌};
ghost use Rattle.std.specs.List.{filter_map};
ghost use Rattle.cc_plain.specs.Earliest.{earliest, lesser};
ghost use Rattle.cc_rules.specs.Choice.{alternative_deadline, call_deadline};
ghost use Rattle.cc_rules.specs.Standing.{deadlines, deadlines_of, process_deadlines};

use crate::process::PlainProcess;
use crate::state::PlainState;
use crate::timing::{alternative_deadline, call_deadline};
use cc_base::Alts;
use cc_rules::{ProcessStanding, TransactionCall};

// The lesser of two, where both are there.
fn lesser(first: Option<u64>, second: Option<u64>) -> Option<u64>
    ensures { result ≡ lesser first second }
{
    match (first, second) {
        (None, other) => other,
        (Some(moment), None) => Some(moment),
        (Some(moment), Some(other)) => Some(moment.min(other)),
    }
}

fn of_alternatives(asked: u64, alts: &Alts) -> Option<u64>
    ensures { result ≡ earliest (filter_map (λ a. alternative_deadline asked a.1) alts.now) }
{
    let mut least = None;
    for at in 0..alts.len() {
        let Some(item) = alts.get(at) else {
            return least;
        };
        least = lesser(least, alternative_deadline(asked, &item.1));
    }
    least
}

fn of_standing(standing: &ProcessStanding) -> Option<u64>
    ensures { result ≡ earliest (deadlines_of standing.now) }
{
    match standing {
        ProcessStanding::AtSelect { alts, asked } => of_alternatives(*asked, alts),
        ProcessStanding::AtDelay { deadline } => Some(*deadline),
        _ => None,
    }
}

fn of_processes(processes: &[PlainProcess]) -> Option<u64>
    ensures { result ≡ earliest (process_deadlines processes.now) }
{
    let mut least = None;
    for process in processes {
        least = lesser(least, of_standing(process.standing()));
    }
    least
}

fn of_calls(pending: &[TransactionCall]) -> Option<u64>
    ensures { result ≡ earliest (filter_map (λ call. call_deadline call.waiting) pending.now) }
{
    let mut least = None;
    for call in pending {
        least = lesser(least, call_deadline(call.waiting));
    }
    least
}

/// The least deadline that stands; none exactly where none stands.
pub(crate) fn earliest(state: &PlainState) -> Option<u64>
    ensures { result ≡ earliest (deadlines state.now) }
{
    lesser(of_processes(state.processes()), of_calls(state.pending()))
}
