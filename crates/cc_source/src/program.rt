ghost use Rattle.std.specs.Prelude.{◌≡◌, ◌↔◌, true, IfOk, IfSome, IsSome};
ghost use Rattle.cc_typed.specs.Checked.{parts_of};
ghost use Rattle.cc_typed.specs.Typed.{is_typed_program};

use cc_base::{Bytes, Memory};
use cc_typed::{Function, Kind, ProgramParts, Site, Structure, Transaction, typed_program};
use sqlite_items::Items;
use std::alloc::Global;
use std::marker::Model;

/// A typed program. Each number in it names a thing that is there, its phrases have the types that they want, and `main`
/// is kind 0, without parameters. Transactions, functions and accept sites are numbered over the whole text as written.
#[derive(Drop)]
pub struct Program {
    /// In the order of declaration: each names earlier ones only.
    pub structures: Items<Structure>,
    pub kinds: Items<Kind>,
    pub functions: Items<Function>,
    pub transactions: Items<Transaction>,
    pub sites: Items<Site>,
    pub formats: Items<Bytes>,
}

impl Model for Program {
    ghost use Rattle.std.specs.Prelude.{◌≡◌, true};
    ghost use Rattle.cc_typed.specs.Parts.{Parts};
    ghost use Rattle.cc_typed.specs.Typed.{is_typed_program};
    ghost use Rattle.std.specs.Coded.{codes};
    ghost use Rattle.cc_typed.specs.contracts.tree.Expression as expression;
    ghost use Rattle.cc_typed.specs.contracts.tree.Statement as statement;

    ghost Value = { Parts };

    ghost coded = { Prim.hlevel (codes, expression.the_row.coded, statement.the_row.coded) };

    ghost view = { λ p. record { structures = p.structures; kinds = p.kinds; functions = p.functions; transactions = p.transactions; sites = p.sites; formats = p.formats } };

    ghost invariant = { λ p. is_typed_program (record { structures = p.structures; kinds = p.kinds; functions = p.functions; transactions = p.transactions; sites = p.sites; formats = p.formats }) ≡ true };
}

impl Program {
    /// The program of these parts, where they are typed.
    pub fn new(alloc: Global, parts: ProgramParts) -> Result<Option<Program>, Memory>
        ensures some { IfOk result (λ program. IsSome program ↔ (is_typed_program (parts_of parts) ≡ true)) }
        ensures value { IfOk result (λ program. IfSome program (λ p. p ≡ parts_of parts)) }
    {
        if typed_program(alloc, &parts)? {
            Ok(Some(Program::of(parts)))
        } else {
            Ok(None)
        }
    }

    /// The program of parts that are known to be typed.
    pub fn of(parts: ProgramParts) -> Program
        requires typed { is_typed_program (parts_of parts) ≡ true }
        ensures parts { result ≡ parts_of parts }
    {
        Program {
            structures: parts.structures,
            kinds: parts.kinds,
            functions: parts.functions,
            transactions: parts.transactions,
            sites: parts.sites,
            formats: parts.formats,
        }
    }
}
