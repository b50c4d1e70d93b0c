//! The code of small programs, held against the definitions.
ghost use Rattle.std.specs.Prelude.{◌≡◌, pos, negsuc, [], ◌∷◌, ◌++◌, Some, None};
ghost use Rattle.cc_base.specs.declared.alternatives.Alt.TheVariants.{Accept, Terminate};
ghost use Rattle.cc_base.specs.declared.names.FaultKind.TheVariants.{CalleeGone, Cells, Depth, NoAlternative};
ghost use Rattle.cc_base.specs.declared.request.Grant.TheVariants.{Go, Late, Gone, Took, Value};
ghost use Rattle.cc_base.specs.declared.request.Request.TheVariants.{Create, Done, Fault, Print, Reply, Select, TimedCall};
ghost use Rattle.cc_code.specs.Meaning.{act, fit};
ghost use Rattle.cc_code.specs.Examples.AtTheBound as bound;
ghost use Rattle.cc_code.specs.Examples.CallsItself as calls_itself;
ghost use Rattle.cc_code.specs.Examples.Hello as hello;
ghost use Rattle.cc_code.specs.Examples.Ranked as ranked;
ghost use Rattle.cc_code.specs.Examples.TimedCall as timed_call;
ghost use Rattle.cc_code.specs.Steps.{Asks, Goes, Stops, step};

/// Two bytes are printed, one after the other.
fn bytes_are_printed_in_order()
    ensures first { act hello.code 0 [] (Go ∷ []) ≡ Print (72 ∷ []) }
    ensures second { act hello.code 0 [] (Go ∷ Go ∷ []) ≡ Print (105 ∷ []) }
    ensures end { act hello.code 0 [] (Go ∷ Go ∷ Go ∷ []) ≡ Done }
{}

/// A timed call gives its value in time, and else what stands for it.
fn a_timed_call_is_late_or_in_time()
    ensures creates { act timed_call.code 0 [] (Go ∷ []) ≡ Create 1 [] }
    ensures calls { act timed_call.code 0 [] timed_call.until_called ≡ TimedCall (record { 0 = 1 }) 0 [] (pos 0) }
    ensures in_time { act timed_call.code 0 [] (timed_call.until_called ++ Value (pos 1 ∷ []) ∷ []) ≡ Print (49 ∷ []) }
    ensures late { act timed_call.code 0 [] (timed_call.until_called ++ Late ∷ []) ≡ Print (55 ∷ []) }
    ensures gone { act timed_call.code 0 [] (timed_call.until_called ++ Gone ∷ []) ≡ Fault CalleeGone }
    ensures accepts { act timed_call.code 1 [] (Go ∷ []) ≡ Select ((0, Accept 0 0 []) ∷ []) }
    ensures replies { act timed_call.code 1 [] (Go ∷ Took 0 [] ∷ []) ≡ Reply (pos 1 ∷ []) }
    ensures ends { act timed_call.code 1 [] (Go ∷ Took 0 [] ∷ Go ∷ []) ≡ Done }
{}

/// A call fits where its clauses say so, and a fault in them says no.
fn calls_are_ranked_by_their_clauses()
    ensures fits { fit ranked.code 0 [] (pos 5 ∷ []) ≡ Some (negsuc 4) }
    ensures none { fit ranked.code 0 [] (pos 11 ∷ []) ≡ None }
    ensures faults { fit ranked.code 0 [] (pos 0 ∷ []) ≡ None }
    ensures other_cells { fit ranked.code 0 [] [] ≡ None }
    ensures no_site { fit ranked.code 1 [] (pos 5 ∷ []) ≡ None }
    ensures opens { act ranked.code 1 [] (Go ∷ []) ≡ Select ((0, Accept 0 0 []) ∷ (1, Terminate) ∷ []) }
{}

/// A function that calls itself comes back from each call.
fn a_function_comes_back()
    ensures prints { act calls_itself.code 0 [] (Go ∷ []) ≡ Print (65 ∷ []) }
    ensures ends { act calls_itself.code 0 [] (Go ∷ Go ∷ []) ≡ Done }
{}

/// At the bound an instruction that stops does so as ever, and one that goes on without a tick or a grant is a fault.
fn the_bound_is_for_what_goes_on()
    ensures ends { step bound.code (bound.at 0) ≡ Stops (Asks Done) }
    ensures selects { step bound.code (bound.at 1) ≡ Stops (Asks (Fault NoAlternative)) }
    ensures lacks_cells { step bound.code (bound.at 2) ≡ Stops (Asks (Fault Cells)) }
    ensures jumps { step bound.code (bound.at 3) ≡ Stops (Asks (Fault Depth)) }
    ensures calls { step bound.code (bound.at 4) ≡ Stops (Asks (Fault Depth)) }
    ensures ticks { step bound.code (bound.at 5) ≡ Goes bound.after_tick }
    ensures one_before { step bound.code (bound.before 3 131071) ≡ Goes bound.after_jump }
{}
