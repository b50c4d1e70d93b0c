//! Code as a program, and its processes.

ghost use Rattle.std.specs.Prelude.{◌≡◌, ◌<◌, ℕ, ℤ, List, [], ◌∷◌, ◌++◌, Some, length, slice_get, IfOk};
ghost use Rattle.cc_base.specs.Grants.{HasKind, IsNext};
ghost use Rattle.cc_base.specs.declared.request.Grant.{Grant};
ghost use Rattle.cc_code.specs.Meaning.{act, meaning, process};
ghost use Rattle.cc_code.specs.Rules.{IsVerified};
ghost use Rattle.cc_code.specs.declared.code.Part.{Part};
ghost use Rattle.cc_vm.specs.Running.{IsRoom};
ghost use Rattle.cc_vm.specs.Processes.{Begins, StandsAt};
ghost use Rattle.cc_vm.specs.declared.phase.Phase.TheVariants.{Waits};

use crate::asks::shape_at;
use crate::going::{advance, go_on};
use crate::lists::Lists;
use crate::phase::Phase;
use crate::ranks::fit;
use crate::registers::Registers;
use crate::room::room_for;
use crate::starts::start;
use cc_base::limits::MOST_CELLS;
use cc_base::{Alts, Behave, Cells, FaultKind, Grant, Memory, Request, Shape};
use cc_code::{Code, Part, RawCode};
use std::alloc::Global;
use std::marker::Model;
use std::sync::Arc;

/// Code as a program: it means to the machine what the code means.
#[derive(Drop)]
pub struct Image(pub Code);

impl Model for Image {
    ghost use Rattle.cc_code.specs.declared.code.RawCode.{RawCode};

    ghost Value = { RawCode };

    ghost view = { λ i. i.0 };
}

/// What is kept of a process.
#[derive(Drop)]
struct State {
    image: Arc<Image>,
    /// How many cells the operands of a part have at most.
    room: usize,
    phase: Phase,
    lists: Lists,
    /// The alternatives that are open.
    alts: Alts,
}

/// A process of code.
#[derive(Drop)]
pub struct Vm {
    state: Box<State>,
}

/// The part of the kind of this number.
fn kind_at(raw: &RawCode, kind: u32) -> Part
    requires { kind < length raw.now.kinds }
    ensures { slice_get raw.now.kinds kind ≡ Some result }
{
    raw.kinds.as_slice()[kind as usize]
}

/// Lists with nothing in them.
fn no_lists(alloc: Global) -> Lists {
    Lists {
        stack: Vec::new(alloc),
        cells: Vec::new(alloc),
        frames: Vec::new(alloc),
        registers: Registers {
            at: 0,
            bottom: 0,
            top: 0,
            first: 0,
            end: 0,
            calls: 0,
            ticks: 0,
            count: 0,
        },
    }
}

/// How a process of a kind begins with these arguments.
fn begin(
    alloc: Global,
    raw: &RawCode,
    room: usize,
    kind: u32,
    args: &Cells,
) -> Result<(Phase, Lists), Memory>
    requires verified { IsVerified raw.now }
    requires kind { HasKind (meaning raw.now) kind (length args.now) }
    ensures { IfOk result (λ b. Begins raw.now room b.1 [] b.0 (process raw.now (slice_get raw.now.kinds kind) args.now)) }
{
    let part = kind_at(raw, kind);
    if part.cells > u64::from(MOST_CELLS) {
        return Ok((Phase::Faulty(FaultKind::Cells), no_lists(alloc)));
    }
    if u64::from(part.args) > part.cells {
        return Ok((Phase::Faulty(FaultKind::Index), no_lists(alloc)));
    }
    let lists = start(alloc, part, args, room)?;
    Ok((Phase::Begins, lists))
}

/// What the process asks after one more grant.
fn go_from(
    alloc: Global,
    raw: &RawCode,
    room: usize,
    phase: Phase,
    lists: &mut Lists,
    alts: &mut Alts,
    grant: &Grant,
) -> Result<Request, Memory>
    requires verified { IsVerified raw.now }
    requires room { IsRoom raw.now room }
    requires at { (kind : ℕ) × (args : List ℤ) × (grants : List Grant)
        × StandsAt raw.now room lists.old alts.old phase (process raw.now (slice_get raw.now.kinds kind) args) grants
        × IsNext (meaning raw.now) kind args grants grant.now }
    ensures { IfOk result (λ r. (kind : ℕ) (args : List ℤ) (grants : List Grant)
        → StandsAt raw.now room lists.old alts.old phase (process raw.now (slice_get raw.now.kinds kind) args) grants
        → IsNext (meaning raw.now) kind args grants grant.now
        → (r ≡ act raw.now kind args (grants ++ grant.now ∷ []))
        × StandsAt raw.now room lists.new alts.new Waits (process raw.now (slice_get raw.now.kinds kind) args) (grants ++ grant.now ∷ [])) }
{
    match phase {
        Phase::Begins => {
            let request = advance(alloc, raw, room, lists, alts)?;
            Ok(request)
        }
        Phase::Faulty(kind) => Ok(Request::Fault { kind }),
        Phase::Waits => {
            let request = go_on(alloc, raw, room, lists, alts, grant)?;
            Ok(request)
        }
    }
}

impl Behave for Image {
    type Proc = Vm;

    ghost use Rattle.std.specs.Prelude.{◌≡◌};
    ghost use Rattle.cc_vm.specs.Images.{image_meaning, image_sites};
    ghost use Rattle.cc_vm.specs.Lawful.{image_form, image_has_sites};
    ghost use Rattle.cc_vm.specs.Processes.{IsAt};

    ghost means = { image_meaning };

    ghost sites = { image_sites };

    ghost at = { λ k p kind args grants. (p.state.value.image.value ≡ k) × IsAt k p.state.value.room p.state.value.lists p.state.value.alts p.state.value.phase kind args grants };

    ghost well_formed = { image_form };

    ghost has_sites = { image_has_sites };

    fn start(this: &Arc<Image>, alloc: Global, kind: u32, args: Cells) -> Result<Vm, Memory> {
        let image = Arc::try_clone(this)?;
        let raw = this.0.raw();
        let room = room_for(raw);
        let (phase, lists) = begin(alloc, raw, room, kind, &args)?;
        let state = State {
            image,
            room,
            phase,
            lists,
            alts: Alts::new(alloc),
        };
        Ok(Vm {
            state: Box::new(alloc, state)?,
        })
    }

    fn go(this: &mut Vm, alloc: Global, grant: Grant) -> Result<Request, Memory> {
        let state = &mut *this.state;
        let raw = state.image.0.raw();
        let request = go_from(
            alloc,
            raw,
            state.room,
            state.phase,
            &mut state.lists,
            &mut state.alts,
            &grant,
        )?;
        state.phase = Phase::Waits;
        Ok(request)
    }

    fn fit(&self, site: u32, env: &Cells, args: &Cells) -> Option<i64> {
        fit(&self.0, site, env, args)
    }

    fn shape(&self, trans: u32) -> Shape {
        shape_at(self.0.raw(), trans)
    }
}
