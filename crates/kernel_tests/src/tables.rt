//! A program that follows a table, whatever it is granted.
ghost use Rattle.std.specs.Prelude.{◌≡◌, Bool, [], ◌∷◌, IfOk, slice_get};
ghost use Rattle.kernel_tests.specs.Tables.{accept_of, alternatives_of, request_of, steps_of, trans_of};

use cc_base::{Alt, Alts, Behave, Bytes, Cells, FaultKind, Grant, Memory, Pid, Request, Shape};
use cc_rules::Word;
use std::alloc::Global;
use std::sync::Arc;

/// What is asked: the word, the process that is called, the byte that is printed or which alternatives are open, whether the second kind of process or
/// transaction is meant, and the cell that is sent or answered.
pub type Step = (Word, u8, bool, i64);

/// The steps of `main`, and of the first and the second kind of other processes, whatever they are granted.
#[derive(Drop)]
pub struct Script {
    pub main: Vec<Step>,
    pub first: Vec<Step>,
    pub second: Vec<Step>,
}

/// A process that follows its steps.
#[derive(Drop)]
pub struct Actor {
    script: Arc<Script>,
    kind: u32,
    asked: usize,
}

impl Script {
    fn steps(&self, kind: u32) -> &[Step]
        ensures { result.now ≡ steps_of self.now.main.items self.now.first.items self.now.second.items kind }
    {
        if kind == 0 {
            return self.main.as_slice();
        }
        if kind == 1 {
            return self.first.as_slice();
        }
        self.second.as_slice()
    }

    /// The step of this index; none past the last.
    pub(crate) fn step(&self, kind: u32, at: usize) -> Option<Step>
        ensures { result ≡ slice_get (steps_of self.now.main.items self.now.first.items self.now.second.items kind) at }
    {
        self.steps(kind).get(at).copied()
    }
}

impl Behave for Script {
    type Proc = Actor;

    ghost use Rattle.std.specs.Prelude.{◌≡◌, min, length};
    ghost use Rattle.kernel_tests.specs.lemmas.Tables.{scripted_has_sites, scripted_well_formed};
    ghost use Rattle.kernel_tests.specs.Tables.{scripted, steps_of};

    ghost means = { λ s. scripted s.main.items s.first.items s.second.items };

    ghost sites = { λ s. 2 };

    ghost at = { λ s a kind args grants. (a.script.value ≡ s) × (a.kind ≡ kind) × (a.asked ≡ min (length grants) (length (steps_of s.main.items s.first.items s.second.items kind))) };

    ghost well_formed = { λ s. scripted_well_formed s.main.items s.first.items s.second.items };

    ghost has_sites = { λ s. scripted_has_sites s.main.items s.first.items s.second.items };

    fn start(this: &Arc<Script>, _alloc: Global, kind: u32, _args: Cells) -> Result<Actor, Memory> {
        let script = Arc::try_clone(this)?;
        Ok(Actor {
            script,
            kind,
            asked: 0,
        })
    }

    fn go(this: &mut Actor, alloc: Global, _grant: Grant) -> Result<Request, Memory> {
        let Some(step) = this.script.step(this.kind, this.asked) else {
            return Ok(Request::Done);
        };
        let request = request(alloc, step)?;
        this.asked += 1;
        Ok(request)
    }

    fn fit(&self, site: u32, _env: &Cells, args: &Cells) -> Option<i64> {
        match site {
            0 => Some(0),
            1 => args.get(0),
            _ => None,
        }
    }

    fn shape(&self, _trans: u32) -> Shape {
        Shape {
            is_async: false,
            args: 1,
            value: 1,
        }
    }
}

pub(crate) fn one_cell(alloc: Global, cell: i64) -> Result<Cells, Memory>
    ensures { IfOk result (λ cells. cells ≡ cell ∷ []) }
{
    let mut cells = Cells::new(alloc);
    cells.push(cell)?;
    Ok(cells)
}

pub(crate) fn accept(alloc: Global, trans: u32) -> Alt
    ensures { result ≡ accept_of trans }
{
    Alt::Accept {
        trans,
        site: trans,
        env: Cells::new(alloc),
    }
}

// A select of two alternatives.
pub(crate) fn two(alloc: Global, first: Alt, second: Alt) -> Result<Alts, Memory>
    ensures { IfOk result (λ alts. alts ≡ (0, first) ∷ (1, second) ∷ []) }
{
    let mut alts = Alts::new(alloc);
    alts.push((0, first))?;
    alts.push((1, second))?;
    Ok(alts)
}

// The alternatives of a select.
fn alternatives(alloc: Global, number: u8, trans: u32) -> Result<Alts, Memory>
    ensures { (second : Bool) → trans ≡ trans_of second → IfOk result (λ alts. alts ≡ alternatives_of number second) }
{
    match number {
        0 => {
            let mut alts = Alts::new(alloc);
            alts.push((0, accept(alloc, trans)))?;
            Ok(alts)
        }
        1 => two(alloc, accept(alloc, trans), Alt::Now),
        2 => two(alloc, accept(alloc, trans), Alt::Terminate),
        _ => two(alloc, accept(alloc, 0), accept(alloc, 1)),
    }
}

/// The request of a step.
pub(crate) fn request(alloc: Global, step: Step) -> Result<Request, Memory>
    ensures { IfOk result (λ r. r ≡ request_of step.0 step.1 step.2 step.3) }
{
    let (word, number, second, cell) = step;
    let trans = if second { 1 } else { 0 };
    match word {
        Word::Pause => Ok(Request::Pause),
        Word::Create => Ok(Request::Create {
            kind: if second { 2 } else { 1 },
            args: Cells::new(alloc),
        }),
        Word::Call => Ok(Request::Call {
            target: Pid(number as u32),
            trans,
            args: one_cell(alloc, cell)?,
        }),
        Word::Send => Ok(Request::Send {
            target: Pid(number as u32),
            trans,
            args: one_cell(alloc, cell)?,
        }),
        Word::Select => Ok(Request::Select {
            alts: alternatives(alloc, number, trans)?,
        }),
        Word::Reply => Ok(Request::Reply {
            value: one_cell(alloc, cell)?,
        }),
        Word::Print => Ok(Request::Print {
            bytes: Bytes::from_slice(alloc, &[number])?,
        }),
        Word::Get => Ok(Request::Get),
        Word::Fault => Ok(Request::Fault {
            kind: FaultKind::CalleeGone,
        }),
        _ => Ok(Request::Done),
    }
}
