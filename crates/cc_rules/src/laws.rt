ghost use Rattle.std.specs.Prelude.{◌≡◌, ◌≢◌, ◌+◌, ◌<◌, ◌≤◌, ◌++◌, ℕ, true, false, List, [], ◌∷◌, length, count_by};
ghost use Rattle.std.specs.List.{AllPass};
ghost use Rattle.cc_base.specs.Meaning.{Meaning};
ghost use Rattle.cc_base.specs.declared.names.CallId.{CallId};
ghost use Rattle.cc_base.specs.declared.names.Pid.{Pid};
ghost use Rattle.cc_rules.specs.Accepted.{IsChosenCall};
ghost use Rattle.cc_rules.specs.Alike.{AreAlike};
ghost use Rattle.cc_rules.specs.Ends.{is_complete, is_due, is_stuck, is_unsettled};
ghost use Rattle.cc_rules.specs.Events.{is_legal, next, request_at};
ghost use Rattle.cc_base.specs.Requests.{HasSites, WellFormed};
ghost use Rattle.cc_rules.specs.Runs.{after, IsRun, IsRunFrom, IsSettled, IsSettledFrom, IsSettledRun, is_settling, printed, printed_from, state_after, takes_call, turns};
ghost use Rattle.cc_rules.specs.Sound.{Sound};
ghost use Rattle.cc_rules.specs.Standing.{standing_of};
ghost use Rattle.cc_rules.specs.State.{State, first_state, is_running, process_at};
ghost use Rattle.cc_rules.specs.declared.event.Event.{Event};
ghost use Rattle.cc_rules.specs.declared.event.Event.TheVariants.{Ask, Accept, End};
ghost use Rattle.cc_rules.specs.declared.event.Word.{Word};

/// A run goes on from where it stands: what holds of two lists of events in a row holds of both together.
pub fn runs_go_on()
    ensures after { (m : Meaning) (s : State) (first more : List Event) → after m s (first ++ more) ≡ after m (after m s first) more }
    ensures legal { (m : Meaning) (s : State) (first more : List Event) → IsRunFrom m s first → IsRunFrom m (after m s first) more → IsRunFrom m s (first ++ more) }
    ensures settled { (m : Meaning) (s : State) (first more : List Event) → IsSettledFrom m s first → IsSettledFrom m (after m s first) more → IsSettledFrom m s (first ++ more) }
    ensures printed { (m : Meaning) (s : State) (first more : List Event) → printed_from m s (first ++ more) ≡ printed_from m s first ++ printed_from m (after m s first) more }
    ensures turns { (first more : List Event) → turns (first ++ more) ≡ turns first + turns more }
{}

/// Events by which the machine settles are no turns and print nothing, and leave who is running as it is; and where the last
/// state is settled, so is the run over them.
pub fn settling_is_quiet()
    ensures turns { (events : List Event) → AllPass is_settling events → turns events ≡ 0 }
    ensures printed { (m : Meaning) (s : State) (events : List Event) → AllPass is_settling events → printed_from m s events ≡ [] }
    ensures running { (m : Meaning) (s : State) (events : List Event) (p : Pid) → AllPass is_settling events → IsRunFrom m s events → is_running (process_at s.processes p.0).standing ≡ true → process_at (after m s events).processes p.0 ≡ process_at s.processes p.0 }
    ensures settled { (m : Meaning) (s : State) (events : List Event) → AllPass is_settling events → IsSettled m (after m s events) → IsSettledFrom m s events }
{}

/// No event but its own request changes a process that is running. A process that was made stays, and no event changes its
/// kind or its arguments.
pub fn running_stays()
    ensures stays { (m : Meaning) (s : State) (e : Event) (p : Pid) → is_legal m s e ≡ true → ((w : Word) → e ≢ Ask p w) → is_running (process_at s.processes p.0).standing ≡ true → process_at (next m s e).processes p.0 ≡ process_at s.processes p.0 }
    ensures made { (m : Meaning) (s : State) (e : Event) (p : ℕ) → is_legal m s e ≡ true → p < length s.processes → p < length (next m s e).processes }
    ensures kind { (m : Meaning) (s : State) (e : Event) (p : ℕ) → is_legal m s e ≡ true → p < length s.processes → (process_at (next m s e).processes p).kind ≡ (process_at s.processes p).kind }
    ensures args { (m : Meaning) (s : State) (e : Event) (p : ℕ) → is_legal m s e ≡ true → p < length s.processes → (process_at (next m s e).processes p).args ≡ (process_at s.processes p).args }
{}

/// Each state of a run of a well-formed program is sound: the first is, and each legal event keeps it so.
pub fn sound_runs()
    ensures first { (m : Meaning) (input : List ℕ) → WellFormed m → Sound m (first_state input) }
    ensures event { (m : Meaning) (s : State) (e : Event) → WellFormed m → Sound m s → is_legal m s e ≡ true → Sound m (next m s e) }
    ensures run { (m : Meaning) (input : List ℕ) (events : List Event) → WellFormed m → IsRun m input events → Sound m (state_after m input events) }
{}

/// A state is settled where the test says so; and where it says that a sound state isn't, an event by which it settles is
/// legal.
pub fn settles_by_test()
    ensures settled { (m : Meaning) (s : State) → is_unsettled m s ≡ false → IsSettled m s }
    ensures unsettled { (m : Meaning) (s : State) → Sound m s → is_unsettled m s ≡ true → (e : Event) × (is_settling e ≡ true) × (is_legal m s e ≡ true) }
{}

/// A call that is accepted was chosen: the alternative is one of those that the process asked for, and of the calls that
/// fit it this one has the least rank, and is the earliest of those.
pub fn accepts_are_chosen()
    ensures chosen { (m : Meaning) (input : List ℕ) (before more : List Event) (p : Pid) (i : ℕ) (c : CallId) → WellFormed m → IsRun m input (before ++ Accept p i c ∷ more) → IsChosenCall m (state_after m input before) p i c }
{}

/// No call is accepted twice or withdrawn twice, and none is both accepted and withdrawn.
pub fn calls_are_taken_once()
    ensures once { (m : Meaning) (input : List ℕ) (events : List Event) (n : ℕ) → IsRun m input events → count_by (takes_call n) events ≤ 1 }
{}

/// End stands only where the collective end is due, and last; and where it is due, no other event stands.
pub fn the_end_is_last()
    ensures due { (m : Meaning) (input : List ℕ) (before more : List Event) → IsRun m input (before ++ End ∷ more) → is_due m (state_after m input before) ≡ true }
    ensures last { (m : Meaning) (input : List ℕ) (before more : List Event) → IsRun m input (before ++ End ∷ more) → more ≡ [] }
    ensures alone { (m : Meaning) (input : List ℕ) (before : List Event) (e : Event) (more : List Event) → IsRun m input (before ++ e ∷ more) → is_due m (state_after m input before) ≡ true → e ≡ End }
{}

/// No event is legal in a sound state where every process is over, nor in a stuck one, and the collective end makes a state
/// complete.
pub fn complete_and_stuck_are_final()
    ensures complete { (m : Meaning) (s : State) (e : Event) → Sound m s → is_complete s ≡ true → is_legal m s e ≡ false }
    ensures stuck { (m : Meaning) (s : State) (e : Event) → is_stuck m s ≡ true → is_legal m s e ≡ false }
    ensures ended { (m : Meaning) (s : State) → is_due m s ≡ true → is_complete (next m s End) ≡ true }
{}

/// A run of a well-formed program is a run of every program that is alike, with the same states and the same bytes.
pub fn alike_programs_run_alike()
    ensures legal { (m n : Meaning) (input : List ℕ) (events : List Event) → WellFormed m → AreAlike m n → IsRun m input events → IsRun n input events }
    ensures state { (m n : Meaning) (input : List ℕ) (events : List Event) → WellFormed m → AreAlike m n → IsRun m input events → state_after n input events ≡ state_after m input events }
    ensures bytes { (m n : Meaning) (input : List ℕ) (events : List Event) → WellFormed m → AreAlike m n → IsRun m input events → printed n input events ≡ printed m input events }
    ensures settled { (m n : Meaning) (input : List ℕ) (events : List Event) → WellFormed m → AreAlike m n → IsRun m input events → IsSettledRun m input events → IsSettledRun n input events }
{}

/// Programs that are alike are so both ways. One that is alike to a well-formed program is well formed, and has accept sites
/// where that one has.
pub fn alike_programs_are_so_both_ways()
    ensures back { (m n : Meaning) → AreAlike m n → AreAlike n m }
    ensures well_formed { (m n : Meaning) → AreAlike m n → WellFormed m → WellFormed n }
    ensures sites { (m n : Meaning) (sites : ℕ) → AreAlike m n → HasSites m sites → HasSites n sites }
{}

/// A state is complete, due, stuck or unsettled for a program exactly where it is for an alike one. A run stands as it does for the other, and each process in its last state asks the same.
pub fn alike_programs_stand_alike()
    ensures complete { (m n : Meaning) (input : List ℕ) (events : List Event) → WellFormed m → AreAlike m n → IsRun m input events → is_complete (state_after n input events) ≡ is_complete (state_after m input events) }
    ensures due { (m n : Meaning) (s : State) → AreAlike m n → is_due n s ≡ is_due m s }
    ensures stuck { (m n : Meaning) (s : State) → AreAlike m n → is_stuck n s ≡ is_stuck m s }
    ensures unsettled { (m n : Meaning) (s : State) → AreAlike m n → is_unsettled n s ≡ is_unsettled m s }
    ensures standing { (m n : Meaning) (input : List ℕ) (events : List Event) (allowed : ℕ) → WellFormed m → AreAlike m n → IsRun m input events → standing_of n input events allowed ≡ standing_of m input events allowed }
    ensures request { (m n : Meaning) (input : List ℕ) (events : List Event) (p : Pid) → WellFormed m → AreAlike m n → IsRun m input events → p.0 < length (state_after m input events).processes → request_at n (state_after n input events) p ≡ request_at m (state_after m input events) p }
{}
