ghost use Rattle.std.specs.Prelude.{◌≡◌};

use cc_base::{Behave, Cells, Grant, Memory, Request, Shape};
use std::alloc::Global;
use std::sync::Arc;

/// A program of which nothing runs: its accept site 0 takes every call, and site 1 ranks a call by its first cell.
#[derive(Drop)]
pub struct ByFirst;

/// A process of it.
#[derive(Drop)]
pub struct Idle;

impl Behave for ByFirst {
    type Proc = Idle;

    ghost use Rattle.queue_tests.specs.ByFirst.{by_first, by_first_well_formed, by_first_has_sites};

    ghost means = { λ p. by_first };

    ghost sites = { λ p. 2 };

    ghost at = { λ p process kind args grants. Unit {0} };

    ghost well_formed = { λ p. by_first_well_formed };

    ghost has_sites = { λ p. by_first_has_sites };

    fn start(
        _this: &Arc<ByFirst>,
        _alloc: Global,
        _kind: u32,
        _args: Cells,
    ) -> Result<Idle, Memory> {
        Ok(Idle)
    }

    fn go(_this: &mut Idle, _alloc: Global, _grant: Grant) -> Result<Request, Memory> {
        Ok(Request::Done)
    }

    fn fit(&self, site: u32, _env: &Cells, args: &Cells) -> Option<i64> {
        if site == 0 {
            return Some(0);
        }
        if site == 1 {
            return args.get(0);
        }
        None
    }

    fn shape(&self, _trans: u32) -> Shape {
        Shape {
            is_async: true,
            args: 2,
            value: 0,
        }
    }
}
