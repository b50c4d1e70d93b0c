//! Laws of the text of journals.

ghost use Rattle.std.specs.Prelude.{◌≡◌, ◌≢◌, ◌⊎◌, ℕ, List, [], ◌∷◌, ◌++◌};
ghost use Rattle.std.specs.List.{AllByRecursion};
ghost use Rattle.cc_rules.specs.declared.event.Event.{Event};
ghost use Rattle.cc_trace.specs.Text.{FirstBadLine, IsTextOf, IsWithinBounds, journal_text, line};

/// Different journals have different texts.
pub fn different_texts()
    ensures different { (a b : List Event) → AllByRecursion IsWithinBounds a → AllByRecursion IsWithinBounds b → journal_text a ≡ journal_text b → a ≡ b }
{}

/// The only newline of an event's line is its last byte, so events are lines.
pub fn lines_end_at_newlines()
    ensures newline { (event : Event) → IsWithinBounds event → (front : List ℕ) × (line event ≡ front ++ 10 ∷ []) × AllByRecursion (λ b. b ≢ 10) front }
{}

/// A text has one first bad line at most, and none where it is the text of a journal.
pub fn one_bad_line()
    ensures one { (text : List ℕ) (m n : ℕ) → FirstBadLine text m → FirstBadLine text n → m ≡ n }
    ensures none { (text : List ℕ) (events : List Event) (n : ℕ) → IsTextOf text events → ¬ FirstBadLine text n }
{}

/// Each text is that of a journal or has a first bad line.
pub fn each_text_is_read()
    ensures read { (text : List ℕ) → ((events : List Event) × IsTextOf text events) ⊎ ((n : ℕ) × FirstBadLine text n) }
{}
