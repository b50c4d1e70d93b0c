//! Tests of cc_lex, cc_grammar and cc_parse.
#![tactic(auto)]

#[cfg(test)]
mod examples;
#[cfg(test)]
mod large;
#[cfg(test)]
mod texts;
#[cfg(test)]
mod tokens;
