ghost use Rattle.std.specs.List.{Contains};
ghost use Rattle.std.specs.Prelude.{◌≡◌, ℕ, ℤ, List, Some, length, slice_get};
ghost use Rattle.cc_base.specs.Grants.{IsProper};
ghost use Rattle.cc_base.specs.Outcome.{Left};
ghost use Rattle.cc_base.specs.declared.request.Grant.{Grant};
ghost use Rattle.cc_code.specs.Control.{fragments};
ghost use Rattle.cc_code.specs.Meaning.{begins, meaning, nothing_left, process};
ghost use Rattle.cc_code.specs.Rules.{IsVerified};
ghost use Rattle.cc_code.specs.Standing.{AreAnsweredInFull, Ends, Fragment, Kind, NeverStrays, NextIsAnsweredInFull, Runs, Spends, Stands, StandsAfter};
ghost use Rattle.cc_code.specs.Steps.{State, and_on, goes_on, run, step};
ghost use Rattle.cc_code.specs.declared.code.Part.{Part};
ghost use Rattle.cc_code.specs.declared.code.RawCode.{RawCode};
ghost use Rattle.cc_code.specs.declared.instr.Instr.{Instr};

/// What comes of code is what comes of its next instruction, and then of what goes on from there. So the number of
/// instructions that bounds a run in the definition is no part of the meaning.
pub fn code_goes_on()
    ensures step { (k : RawCode) (s : State) → goes_on k s ≡ and_on (goes_on k) (step k s) }
{}

/// Verified code never lacks an instruction or an operand: a kind or a fragment begins with an instruction and an empty stack, and
/// each instruction finds what it takes and leads to another, where the values with which calls are answered have their cells. So
/// a process whose grants are proper asks a request, and a fragment comes to its value or to a fault.
pub fn verified_code_never_strays()
    ensures kinds { (k : RawCode) (n : ℕ) (p : Part) (cells : List ℤ) (left : Left) → IsVerified k → slice_get k.kinds n ≡ Some p
        → Stands k Kind (begins p.entry cells left) }
    ensures fragments { (k : RawCode) (a : ℕ) (cells : List ℤ) (left : Left) → IsVerified k → Contains (fragments k.sites) a
        → Stands k Fragment (begins a cells left) }
    ensures steps { (k : RawCode) (r : Runs) (s : State) → IsVerified k → Stands k r s → NextIsAnsweredInFull k s → StandsAfter k r (step k s) }
    ensures runs { (k : RawCode) (r : Runs) (n : ℕ) (s : State) → IsVerified k → Stands k r s → AreAnsweredInFull k n s → NeverStrays (run k n s) }
    ensures asks { (k : RawCode) (n : ℕ) (p : Part) (args : List ℤ) (grants : List Grant) → IsVerified k → slice_get k.kinds n ≡ Some p
        → length args ≡ p.args → IsProper (meaning k) n args grants → Ends Kind (process k (slice_get k.kinds n) args grants) }
    ensures clauses { (k : RawCode) (a : ℕ) (cells : List ℤ) → IsVerified k → Contains (fragments k.sites) a
        → Ends Fragment (goes_on k (begins a cells nothing_left)) }
{}

/// Each instruction that goes on takes one tick, or one grant and so 1,000 ticks anew, or counts: at most 131,072 come since the last
/// tick or grant.
pub fn slices_end()
    ensures spends { (k : RawCode) (s : State) (i : Instr) → slice_get k.instrs s.address ≡ Some i → Spends i s (step k s) }
{}
