use cc_base::Place;
use thiserror::Error;

/// Why a list of tokens was not parsed. Tokens count from 0.
#[derive(Debug, Drop, Error)]
pub enum ParseError {
    /// The tokens before this one begin a text, and with it they begin none. Behind the last token: they begin a text and
    /// are none.
    #[error("syntax at token {at}")]
    Syntax { at: usize, place: Place },
    /// The first token of a phrase that is nested too deep.
    #[error("nested too deep")]
    TooDeep { place: Place },
    /// Memory was wanting.
    #[error("out of memory")]
    Memory,
}
