ghost use Rattle.std.specs.Prelude.{◌≡◌, [], ◌∷◌, ◌++◌, length, MatchOption, OnOk, OnErr, None, Some, slice_get};
ghost use Rattle.cc_lex.specs.Spells.{start};

use crate::token::Token;
use cc_base::{Memory, Place};
use std::alloc::Global;
use std::marker::Model;

/// The place of a text's first byte.
pub const START: Place = Place { line: 1, column: 1 };

/// The tokens of a text in order, with the place of the text's end.
#[derive(Debug, Drop)]
pub struct Tokens {
    items: Vec<Token>,
    end: Place,
}

impl Model for Tokens {
    ghost use Rattle.cc_lex.specs.TokenList.{TokenList};

    ghost Value = { TokenList };

    ghost view = { λ t. record { tokens = t.items.items; end = t.end } };
}

impl Tokens {
    /// No token, with the end at the start.
    pub fn new(alloc: Global) -> Tokens
        ensures tokens { result.tokens ≡ [] }
        ensures end { result.end ≡ start }
    {
        Tokens {
            items: Vec::new(alloc),
            end: START,
        }
    }

    /// How many tokens there are.
    pub fn len(&self) -> usize
        ensures len { result ≡ length self.now.tokens }
    {
        self.items.len()
    }

    /// Puts a token at the end. After an error the list is as before.
    pub fn push(&mut self, token: Token) -> Result<(), Memory>
        ensures ok { OnOk result (self.new ≡ record self.old { tokens = self.old.tokens ++ token ∷ [] }) }
        ensures err { OnErr result (self.new ≡ self.old) }
    {
        // Tokens are many: a quarter more at a time leaves less unused than twice as many would.
        if self.items.len() == self.items.capacity() {
            self.items.reserve_exact(self.items.len() / 4 + 16)?;
        }
        self.items.push(token)?;
        Ok(())
    }

    /// The token at this index, from 0; none exactly past the end.
    pub fn get(&self, at: usize) -> Option<&Token>
        ensures token { MatchOption result (slice_get self.now.tokens at ≡ None) (λ t. slice_get self.now.tokens at ≡ Some t.now) }
    {
        self.items.get(at)
    }

    /// All of them, in the order written.
    pub fn as_slice(&self) -> &[Token]
        ensures tokens { result.now ≡ self.now.tokens }
    {
        self.items.as_slice()
    }

    /// The place of the text's end.
    pub fn end(&self) -> Place
        ensures end { result ≡ self.now.end }
    {
        self.end
    }

    /// Sets the place of the text's end.
    pub fn set_end(&mut self, end: Place)
        ensures end { self.new ≡ record self.old { end = end } }
    {
        self.end = end;
    }
}
