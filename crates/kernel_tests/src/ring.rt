//! A ring of processes of which each calls the next again and again, for measurements and a test.
ghost use Rattle.std.specs.Prelude.{◌≡◌, ◌∷◌, [], IfOk, pos};
ghost use Rattle.kernel_tests.specs.Ring.{asked_at, asked_in, first_stage, next_in_ring, next_phase, next_stage, rank_at};
ghost use Rattle.cc_base.specs.declared.alternatives.Alt.TheVariants.{Accept};

use cc_base::{Alt, Alts, Behave, Bytes, Cells, Grant, Memory, Pid, Request, Shape};
use cc_pool::{Driven, drive};
use cc_world::MemSink;
use std::alloc::Global;
use std::sync::Arc;

/// What a process of the ring asks next, once it has made those that it makes.
#[derive(Clone, Copy, Debug, Drop, PartialEq, Eq)]
pub enum Phase {
    /// It calls the next process.
    Call,
    /// It waits for a call.
    Wait,
    /// It answers the call.
    Answer,
}

/// How many processes it has made, and what it asks next.
#[derive(Clone, Copy, Debug, Drop)]
pub struct Stage {
    pub made: u32,
    pub phase: Phase,
}

/// A ring of so many processes besides the first, which makes them.
#[derive(Drop)]
pub struct Ring {
    pub others: u32,
}

/// A process of the ring.
#[derive(Drop)]
pub struct Member {
    ring: Arc<Ring>,
    kind: u32,
    stage: Stage,
}

fn next_phase(phase: Phase) -> Phase
    ensures { result ≡ next_phase phase }
{
    match phase {
        Phase::Call => Phase::Wait,
        Phase::Wait => Phase::Answer,
        Phase::Answer => Phase::Call,
    }
}

fn first_stage(others: u32, kind: u32) -> Stage
    ensures { result ≡ first_stage others kind }
{
    if kind == 0 {
        return Stage {
            made: 0,
            phase: Phase::Call,
        };
    }
    Stage {
        made: others,
        phase: Phase::Wait,
    }
}

fn next_stage(others: u32, stage: Stage) -> Stage
    ensures { result ≡ next_stage others stage }
{
    if stage.made < others {
        return Stage {
            made: stage.made + 1,
            phase: stage.phase,
        };
    }
    Stage {
        made: stage.made,
        phase: next_phase(stage.phase),
    }
}

fn next_in_ring(others: u32, kind: u32) -> u32
    ensures { result ≡ next_in_ring others kind }
{
    if kind < others {
        return kind + 1;
    }
    0
}

fn one_cell(alloc: Global) -> Result<Cells, Memory>
    ensures { IfOk result (λ cells. cells ≡ pos 65 ∷ []) }
{
    let mut cells = Cells::new(alloc);
    cells.push(65)?;
    Ok(cells)
}

fn one_alternative(alloc: Global) -> Result<Alts, Memory>
    ensures { IfOk result (λ alts. alts ≡ (0, Accept 0 0 []) ∷ []) }
{
    let mut alts = Alts::new(alloc);
    let accept = Alt::Accept {
        trans: 0,
        site: 0,
        env: Cells::new(alloc),
    };
    alts.push((0, accept))?;
    Ok(alts)
}

fn asked_in(alloc: Global, others: u32, kind: u32, phase: Phase) -> Result<Request, Memory>
    ensures { IfOk result (λ r. r ≡ asked_in others kind phase) }
{
    match phase {
        Phase::Call => Ok(Request::Call {
            target: Pid(next_in_ring(others, kind)),
            trans: 0,
            args: one_cell(alloc)?,
        }),
        Phase::Wait => Ok(Request::Select {
            alts: one_alternative(alloc)?,
        }),
        Phase::Answer => Ok(Request::Reply {
            value: one_cell(alloc)?,
        }),
    }
}

fn asked_at(alloc: Global, others: u32, kind: u32, stage: Stage) -> Result<Request, Memory>
    ensures { IfOk result (λ r. r ≡ asked_at others kind stage) }
{
    if stage.made < others {
        return Ok(Request::Create {
            kind: stage.made + 1,
            args: Cells::new(alloc),
        });
    }
    asked_in(alloc, others, kind, stage.phase)
}

impl Behave for Ring {
    type Proc = Member;

    ghost use Rattle.std.specs.Prelude.{◌≡◌, length};
    ghost use Rattle.kernel_tests.specs.Ring.{ring, stage_after};
    ghost use Rattle.kernel_tests.specs.lemmas.Ring.{ring_has_sites, ring_well_formed};

    ghost means = { λ r. ring r.others };

    ghost sites = { λ r. 1 };

    ghost at = { λ r p kind args grants. (p.ring.value ≡ r) × (p.kind ≡ kind) × (p.stage ≡ stage_after r.others kind (length grants)) };

    ghost well_formed = { λ r. ring_well_formed r.others };

    ghost has_sites = { λ r. ring_has_sites r.others };

    fn start(this: &Arc<Ring>, _alloc: Global, kind: u32, _args: Cells) -> Result<Member, Memory> {
        let ring = Arc::try_clone(this)?;
        let stage = first_stage(this.others, kind);
        Ok(Member { ring, kind, stage })
    }

    fn go(this: &mut Member, alloc: Global, _grant: Grant) -> Result<Request, Memory> {
        let others = this.ring.others;
        let request = asked_at(alloc, others, this.kind, this.stage)?;
        this.stage = next_stage(others, this.stage);
        Ok(request)
    }

    fn fit(&self, site: u32, _env: &Cells, _args: &Cells) -> Option<i64> {
        match site {
            0 => Some(0),
            _ => None,
        }
    }

    fn shape(&self, _trans: u32) -> Shape {
        Shape {
            is_async: false,
            args: 1,
            value: 1,
        }
    }
}

/// The run of a ring of so many processes besides the first, of so many turns.
pub fn run_ring(alloc: Global, others: u32, turns: u32) -> Result<Driven<MemSink>, Memory> {
    let code = Arc::new(alloc, Ring { others })?;
    let out = MemSink::new(alloc, 1, Cells::new(alloc));
    Ok(drive(alloc, &code, Bytes::new(alloc), turns, out))
}
