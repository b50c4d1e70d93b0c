ghost use Rattle.std.specs.Prelude.{◌≡◌, ℕ, List, Option, true, false};
ghost use Rattle.cc_base.specs.Outcome.{Left};
ghost use Rattle.cc_source.specs.Examples.{WorkedPrograms};
ghost use Rattle.cc_source.specs.Known.{IsOf, Ones, Safe};
ghost use Rattle.cc_source.specs.Meaning.{Caller, Scope, eval};
ghost use Rattle.cc_source.specs.Straight.{is_straight};
ghost use Rattle.cc_typed.specs.Parts.{Parts};
ghost use Rattle.cc_typed.specs.Typed.{is_typed};
ghost use Rattle.cc_typed.specs.Types.{type_of};
ghost use Rattle.cc_typed.specs.declared.tree.Expression.{Expression};
ghost use Rattle.cc_typed.specs.declared.types.DataType.{DataType};

/// A typed straight expression gives a value of its type, or asks what the machine can perform. Its variables have one cell
/// each, and keep it.
pub fn straight_expressions_give_values_of_their_types()
    ensures value { (p : Parts) (call : Caller) (ts : List DataType) (kind : Option ℕ) (result replies : Option DataType) (e : Expression) (scope : Scope) (left : Left) → is_straight e ≡ true → is_typed (record { parts = p; variables = ts; kind = kind; result = result; replies = replies; may_break = false; may_continue = false }) e ≡ true → Ones scope → Safe p (IsOf p (type_of e)) (eval p call e scope left) }
{}

/// What small programs ask, taken by hand from the rules of the language, is what their meaning says: the order in which operands,
/// guards and arguments are evaluated, conversions, faults, timed calls, loops and their ticks, clauses of an accept.
pub fn worked_programs_ask_as_the_language_says()
    ensures asks { WorkedPrograms }
{}
