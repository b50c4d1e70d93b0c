//! Laws of the definitions of tokens.

ghost use Rattle.std.specs.Prelude.{◌≡◌, ◌≤◌, ℕ, List, length};
ghost use Rattle.cc_base.specs.declared.names.Place.{Place};
ghost use Rattle.cc_lex.specs.Spells.{Ending, FirstFault, Reads, Spells, longest_text, start};
ghost use Rattle.cc_lex.specs.TokenList.{TokenList};
ghost use Rattle.cc_lex.specs.declared.fault.LexKind.{LexKind};
ghost use Rattle.cc_lex.specs.declared.token.Token.{Token};

/// Two token lists that spell one text are one list.
pub fn one_spelling()
    ensures same { (text : List ℕ) (a b : TokenList) → Spells text a → Spells text b → a ≡ b }
{}

/// A text has one first fault at most, and none where tokens spell it and it is not too long.
pub fn one_fault()
    ensures one { (text : List ℕ) (p q : Place) (k l : LexKind) → FirstFault text p k → FirstFault text q l → (p ≡ q) × (k ≡ l) }
    ensures none { (text : List ℕ) (list : TokenList) (place : Place) (kind : LexKind) →
        length text ≤ longest_text → Spells text list → ¬ FirstFault text place kind }
{}

/// Each text is read up to its end or up to a fault.
pub fn each_text_is_read()
    ensures read { (text : List ℕ) → (tokens : List Token) × (end : Place) × (ending : Ending) × Reads start text tokens end ending }
{}
