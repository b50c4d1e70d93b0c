//! The instructions of compiled programs, what code means, and code that was verified.
//!
//! [`RawCode`] is code of which nothing is known, and [`Code`] is code that [`verify`] found to break no rule. docs/CODE.md has the
//! instructions and the rules as a reference page. Their definitions stand in `specs/`:
//!
//! - What code means: `Operands` says how many cells each instruction takes and gives, `Works` what it does, `Steps` what a process
//!   does step by step, and `Meaning` what a program of this code is to the machine. `Examples` has small programs.
//! - When code is verified: `Control` says where control goes and what each entry reaches, `Rules` what each rule demands.
//! - What holds of verified code between two instructions: `Standing`.
//! - The lines of a listing: `Listing`.
//!
//! `Reach`, `Waiting`, `Checked` and `Judged` say what the passes of `verify` keep while they work. No public contract names them, so
//! a reader of the contracts can leave them out.
#![tactic(auto)]

mod code;
mod examples;
mod facts;
mod formats;
mod instr;
mod laws;
mod lines;
mod offers;
mod operands;
mod parts;
mod reach;
mod rule;
mod rules;
mod tables;
mod unnamed;
mod verified;
mod waits;

pub use code::{EnvironmentPart, Part, RawCode, Site, TableEntry};
pub use instr::Instr;
pub use laws::{code_goes_on, slices_end, verified_code_never_strays};
pub use lines::listing;
pub use rule::{Rule, VerifyError};
pub use verified::{Code, verify};
