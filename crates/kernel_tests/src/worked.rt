//! Small programs with the runs that they have, held against the definitions.
ghost use Rattle.std.specs.Prelude.{◌≡◌, [], ◌∷◌};
ghost use Rattle.cc_base.specs.declared.names.FaultKind.TheVariants.{CalleeGone};
ghost use Rattle.cc_rules.specs.Runs.{state_after};
ghost use Rattle.cc_rules.specs.State.{process_at};
ghost use Rattle.cc_rules.specs.Stops.{EndsWell};
ghost use Rattle.kernel_tests.specs.Worked.AcceptedInTime as accepted_in_time;
ghost use Rattle.kernel_tests.specs.Worked.CalleeEnded as callee_ended;
ghost use Rattle.kernel_tests.specs.Worked.CallsItself as calls_itself;
ghost use Rattle.kernel_tests.specs.Worked.EndIsDue as end_is_due;
ghost use Rattle.kernel_tests.specs.Worked.Immediate as immediate;
ghost use Rattle.kernel_tests.specs.Worked.LateCall as late_call;
ghost use Rattle.kernel_tests.specs.Worked.LeastRank as least_rank;
ghost use Rattle.kernel_tests.specs.Worked.Nested as nested;
ghost use Rattle.kernel_tests.specs.Worked.NoFit as no_fit;
ghost use Rattle.kernel_tests.specs.Worked.Script.{EndsFaulted, EndsStuck, IsRefused, IsWorked, accepts, asks, at_once, withdraws};
ghost use Rattle.cc_rules.specs.declared.event.Event.TheVariants.{End, Time};
ghost use Rattle.cc_rules.specs.declared.event.Word.TheVariants as word;
ghost use Rattle.cc_rules.specs.declared.process.ProcessStanding.TheVariants.{Faulted};

/// Of the calls that may be taken, one of the least `by` is, and the earliest of those.
pub fn the_least_rank_is_taken_the_earliest_on_a_tie()
    ensures run { IsWorked least_rank.program least_rank.journal (98 ∷ 99 ∷ 97 ∷ []) }
    ensures ends { EndsWell least_rank.program [] least_rank.journal }
    ensures no_later { IsRefused least_rank.program least_rank.opening (accepts 1 0 2) }
    ensures no_greater { IsRefused least_rank.program least_rank.opening (accepts 1 0 0) }
{}

/// A call that fits no alternative is not taken, and does not hold up the collective end.
pub fn a_call_that_does_not_fit_does_not_hold_up_the_end()
    ensures run { IsWorked no_fit.program no_fit.journal [] }
    ensures ends { EndsWell no_fit.program [] no_fit.journal }
    ensures not_taken { IsRefused no_fit.program no_fit.waiting (accepts 1 0 0) }
{}

/// A call whose deadline has come, and that no process can take, is withdrawn; the caller goes on and may call again.
pub fn a_late_call_is_withdrawn()
    ensures run { IsWorked late_call.program late_call.journal (55 ∷ 49 ∷ []) }
    ensures ends { EndsWell late_call.program [] late_call.journal }
    ensures once { IsRefused late_call.program late_call.after_withdrawal (withdraws 0) }
    ensures not_taken { IsRefused late_call.program late_call.offered (accepts 1 0 0) }
    ensures not_untimed { IsRefused late_call.program late_call.offered (withdraws 2) }
{}

/// A call that was accepted before its deadline is not withdrawn after it; while it can be accepted, no time passes.
pub fn a_call_that_was_accepted_is_not_withdrawn()
    ensures run { IsWorked accepted_in_time.program accepted_in_time.journal (57 ∷ []) }
    ensures ends { EndsWell accepted_in_time.program [] accepted_in_time.journal }
    ensures not_withdrawn { IsRefused accepted_in_time.program accepted_in_time.past_deadline (withdraws 0) }
    ensures no_time { IsRefused accepted_in_time.program accepted_in_time.offered (Time 5) }
{}

/// While a call can be taken, an immediate alternative is not.
pub fn an_immediate_alternative_waits_for_no_call()
    ensures run { IsWorked immediate.open_program immediate.open_journal (97 ∷ []) }
    ensures ends { EndsWell immediate.open_program [] immediate.open_journal }
    ensures not_at_once { IsRefused immediate.open_program immediate.offered (at_once 1 1) }
{}

/// Where no open alternative takes the call, the immediate one is taken.
pub fn an_immediate_alternative_is_taken_where_no_call_is()
    ensures run { IsWorked immediate.closed_program immediate.closed_journal (105 ∷ []) }
    ensures ends { EndsWell immediate.closed_program [] immediate.closed_journal }
    ensures not_taken { IsRefused immediate.closed_program immediate.offered (accepts 1 0 0) }
{}

/// The collective end does not wait for a deadline, but for every process that is running.
pub fn a_deadline_does_not_hold_up_the_end()
    ensures run { IsWorked end_is_due.program end_is_due.journal [] }
    ensures ends { EndsWell end_is_due.program [] end_is_due.journal }
    ensures not_before { IsRefused end_is_due.program end_is_due.still_running End }
    ensures no_time { IsRefused end_is_due.program end_is_due.due (Time 1000) }
{}

/// Who calls itself is stuck.
pub fn a_process_that_calls_itself_is_stuck()
    ensures run { IsWorked calls_itself.program calls_itself.journal [] }
    ensures ends { EndsStuck calls_itself.program calls_itself.journal }
    ensures no_time { IsRefused calls_itself.program calls_itself.journal (Time 1) }
{}

/// A call of a process that has ended makes the caller go on at once, here to its fault.
pub fn a_call_of_a_process_that_ended_is_a_fault()
    ensures run { IsWorked callee_ended.caller callee_ended.call_journal [] }
    ensures ends { EndsFaulted callee_ended.caller callee_ended.call_journal }
    ensures fault { (process_at (state_after callee_ended.caller [] callee_ended.call_journal).processes 0).standing ≡ Faulted CalleeGone }
    ensures no_number { (state_after callee_ended.caller [] callee_ended.call_journal).drawn ≡ 0 }
    ensures not_done { IsRefused callee_ended.caller callee_ended.told (asks 0 word.Done) }
{}

/// An asynchronous call of a process that has ended comes to nothing.
pub fn a_send_to_a_process_that_ended_is_no_fault()
    ensures run { IsWorked callee_ended.sender callee_ended.send_journal [] }
    ensures ends { EndsWell callee_ended.sender [] callee_ended.send_journal }
{}

/// Who serves a call within a call answers the inner one first.
pub fn the_innermost_call_is_answered()
    ensures run { IsWorked nested.program nested.journal (116 ∷ 49 ∷ 117 ∷ 50 ∷ []) }
    ensures ends { EndsWell nested.program [] nested.journal }
    ensures not_the_outer { IsRefused nested.program nested.answered_once (asks 0 word.Print) }
{}
