ghost use Rattle.std.specs.Prelude.{◌≡◌, ◌↔◌, true, IfSome, IsSome};
ghost use Rattle.cc_source.specs.Straight.{is_straight_program};

use crate::grants::Grants;
use crate::program::Program;
use cc_base::{Behave, Cells, Grant, Memory, Request, Shape};
use std::alloc::Global;
use std::marker::Model;
use std::sync::Arc;

/// A straight program: its types are `int` and process types (and `void` for transactions); its expressions are numbers,
/// variables, parentheses, `create`, synchronous calls, `putchar` and `=` to a variable; its statements are `;`, expression
/// statements, declarations without a value, blocks, accepts without clauses, and `treturn`; it has no function but `main`.
#[derive(Drop)]
pub struct Early(pub Program);

impl Model for Early {
    ghost use Rattle.std.specs.Prelude.{◌≡◌, true};
    ghost use Rattle.std.specs.Coded.{codes};
    ghost use Rattle.cc_source.specs.Early.{is_early};
    ghost use Rattle.cc_typed.specs.Parts.{Parts};
    ghost use Rattle.cc_typed.specs.contracts.tree.Expression as expression;
    ghost use Rattle.cc_typed.specs.contracts.tree.Statement as statement;

    ghost Value = { Parts };

    ghost coded = { Prim.hlevel (codes, expression.the_row.coded, statement.the_row.coded) };

    ghost view = { λ e. e.0 };

    ghost invariant = { λ e. is_early e.0 ≡ true };
}

impl Early {
    /// The program, where it is straight.
    #[tactic(auto, using(crate::specs::Lawful::early))]
    pub fn new(program: Program) -> Option<Early>
        ensures some { IsSome result ↔ (is_straight_program program ≡ true) }
        ensures value { IfSome result (λ e. e ≡ program) }
    {
        if program.is_straight() {
            Some(Early(program))
        } else {
            None
        }
    }
}

/// A process of a straight program, with what it was granted so far.
#[derive(Drop)]
pub struct EarlyProcess {
    program: Arc<Early>,
    kind: u32,
    args: Cells,
    grants: Grants,
}

impl Behave for Early {
    type Proc = EarlyProcess;

    ghost use Rattle.std.specs.Prelude.{◌≡◌, length};
    ghost use Rattle.cc_base.specs.Grants.{HasKind};
    ghost use Rattle.cc_source.specs.Early.{early_meaning, early_sites};
    ghost use Rattle.cc_source.specs.Lawful.{early_form, early_has_sites};

    ghost means = { early_meaning };

    ghost sites = { early_sites };

    ghost at = { λ p process kind args grants. (process.program.value ≡ p) × (process.kind ≡ kind) × (process.args ≡ args) × (process.grants ≡ grants) × HasKind (early_meaning p) kind (length args) };

    ghost well_formed = { early_form };

    ghost has_sites = { early_has_sites };

    fn start(
        this: &Arc<Early>,
        alloc: Global,
        kind: u32,
        args: Cells,
    ) -> Result<EarlyProcess, Memory> {
        let program = Arc::try_clone(this)?;
        Ok(EarlyProcess {
            program,
            kind,
            args,
            grants: Grants::new(alloc),
        })
    }

    #[tactic(auto, using(crate::specs::Lawful::early))]
    fn go(this: &mut EarlyProcess, alloc: Global, grant: Grant) -> Result<Request, Memory> {
        this.grants.push(grant)?;
        let early: &Early = &this.program;
        early
            .0
            .act_plain(alloc, this.kind, &this.args, &this.grants)
    }

    #[tactic(auto, using(crate::specs::Lawful::early))]
    fn fit(&self, site: u32, env: &Cells, args: &Cells) -> Option<i64> {
        self.0.fit_plain(site, env, args)
    }

    #[tactic(auto, using(crate::specs::Lawful::early))]
    fn shape(&self, trans: u32) -> Shape {
        self.0.shape(trans)
    }
}
