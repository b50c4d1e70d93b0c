//! What is found of a text without a fault is typed.

ghost use Rattle.std.specs.Prelude.{◌≡◌, ◌≤◌, ℕ, length, true};
ghost use Rattle.cc_typed.specs.Accepts.{sites_in};
ghost use Rattle.cc_typed.specs.Clauses.{is_pure};
ghost use Rattle.cc_typed.specs.Typed.{Surroundings, is_typed_program, is_typed_statement};
ghost use Rattle.cc_faults.proofs.Holds.{Holds};
ghost use Rattle.cc_faults.specs.Depths.{depth_of};
ghost use Rattle.cc_faults.specs.Expressions.{expression};
ghost use Rattle.cc_faults.specs.Made.{value_of};
ghost use Rattle.cc_faults.specs.Programs.{program};
ghost use Rattle.cc_faults.specs.Scopes.{Scope, Text};
ghost use Rattle.cc_faults.specs.Statements.{after, judged};
ghost use Rattle.cc_sound.specs.Fits.{Ends, Inside, IsFront, ScopeFits, Stands, TextFits};
ghost use Rattle.cc_sound.specs.Formed.{is_formed, is_formed_statement, is_formed_text};
ghost use Rattle.cc_sound.specs.Typing.{IsFound, IsSound, MeansTyped};

use cc_faults::{Around, Phrase, Plain, Statement};

/// An expression without a fault is typed, where the names lead to what is there.
pub fn expressions_are_typed(around: Around, phrase: &Phrase)
    ensures typed { (t : Text) (s : Scope) (a : Surroundings) → TextFits t a.parts → ScopeFits t s a.parts → IsFront s.variables a.variables
        → is_formed (length t.formats) phrase.now ≡ true
        → Holds (IsFound a) (expression t s around phrase.now) }
{
    let _ = around;
    let _ = phrase;
}

/// An expression without a fault in a clause of an accept is pure, and no deeper than it is written.
pub fn clauses_are_pure(around: Around, phrase: &Phrase)
    ensures pure { (t : Text) (s : Scope) (depth : ℕ) → around.pure ≡ true → depth_of phrase.now ≤ depth
        → Holds (λ v. is_pure depth (value_of v) ≡ true) (expression t s around phrase.now) }
{
    let _ = around;
    let _ = phrase;
}

/// A statement without a fault is typed, and so are its accepts, of which it has each once.
pub fn statements_are_typed(around: Around, statement: &Statement)
    ensures typed { (t : Text) (s : Scope) (a : Surroundings) → Stands t around a → Inside t a.parts s → Ends a (after t around s statement.now)
        → is_formed_statement (length t.formats) statement.now ≡ true
        → Holds
        (λ x. IsSound a.parts s (after t around s statement.now) (is_typed_statement a x) (sites_in x))
        (judged t around s statement.now) }
{
    let _ = around;
    let _ = statement;
}

/// What is found of a text is typed, as `Program::of` wants it; a text without a fault means a program, which is typed.
pub fn programs_are_typed(tree: &Plain)
    ensures typed { is_formed_text tree.now ≡ true → Holds (λ p. is_typed_program p ≡ true) (program tree.now) }
    ensures means { is_formed_text tree.now ≡ true → MeansTyped (program tree.now) }
{
    let _ = tree;
}
