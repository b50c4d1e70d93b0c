//! Cuts a text of the language into tokens, each with the place at which it begins.
//!
//! [`lex`] answers [`Tokens`], or the first fault of the text with its place. A text is made of pieces: white space,
//! comments and tokens, each the longest that can stand at its place. `specs/Pieces.antt` says what each piece is, by
//! the whole of its bytes, and counts a fault as a piece too: it stands where no longer piece does. `specs/Spells.antt`
//! says from that which tokens spell a text and which fault is its first, and `lex` is proved to answer exactly these.
//! `specs/Reading.antt` is the way in which the code finds the piece at the front of a text.
//!
//! A name keeps its bytes, a number its value and type, a character and a string the bytes that they stand for, with
//! escapes resolved. Comments are dropped.
//!
//! # Input safety
//!
//! Any bytes may be given. A text of more than 1,048,576 bytes is refused before it is read. A number of any length is
//! read in time that grows with its length, and is a fault where it is above 9,223,372,036,854,775,807. The time grows
//! with the length of the text, and nothing recurses.
#![tactic(auto)]

mod bytes;
mod fault;
mod laws;
mod lexing;
mod marks;
mod name;
mod numbers;
mod piece;
mod quotes;
mod token;
mod tokens;
mod words;

pub use fault::{LexError, LexKind};
pub use laws::{each_text_is_read, one_fault, one_spelling};
pub use lexing::lex;
pub use name::Name;
pub use token::{Mark, Size, Token, What, Word};
pub use tokens::Tokens;
