ghost use Rattle.std.specs.Prelude.{◌≡◌, ◌+◌, ◌++◌, ◌<◌, ◌≤◌, true, drop, take, length, slice_get, IfOk, MatchOption, OnOk, Some};
ghost use Rattle.cc_base.specs.Grants.{HasKind};
ghost use Rattle.cc_base.specs.Outcome.{asked_by};
ghost use Rattle.cc_base.specs.declared.request.Request.TheVariants.{Done};
ghost use Rattle.cc_source.specs.Gives.{blanks, fitted_each};
ghost use Rattle.cc_source.specs.Programs.{act, body, fit, meaning, parameter_cells, shape_of, site_rank};
ghost use Rattle.cc_source.specs.Straight.{is_straight_program, is_straight_site};
ghost use Rattle.cc_typed.specs.Missing.{parameters_at};
ghost use Rattle.cc_typed.specs.Table.{cells_in, cells_in_all, is_table, layouts_of};
ghost use Rattle.cc_typed.specs.Typed.{is_typed_program};

use crate::cells::{after, fitted, items_from, zeros};
use crate::evaluator::Evaluator;
use crate::grants::Grants;
use crate::program::Program;
use crate::run::{Run, Unfinished};
use cc_base::limits::{MOST_CALLS, MOST_CELLS, MOST_PARAMETER_CELLS, TICKS_GRANTED};
use cc_base::{Cells, FaultKind, Grant, Memory, Request, Shape};
use cc_typed::{DataType, Kind, Site, Structure, Transaction, cells_in};
use sqlite_items::Items;
use std::alloc::Global;

/// The sum of cells, where it is at most this.
fn sum_within(before: u32, cells: u64, most: u32) -> Option<u32>
    ensures sum { MatchOption result (most < before + cells) (λ sum. (sum ≡ before + cells) × sum ≤ most) }
{
    match u64::from(before).checked_add(cells) {
        Some(sum) => if sum <= u64::from(most) {
            Some(sum as u32)
        } else {
            None
        },
        None => None,
    }
}

/// How many cells the values of these types have together, where those are at most so many.
#[tactic(auto, using(cc_typed::proofs::InLists::sums))]
fn cells_within(structures: &[Structure], types: &[DataType], most: u32) -> Option<u32>
    ensures sum { MatchOption result (most < cells_in_all structures.now types.now) (λ sum. (sum ≡ cells_in_all structures.now types.now) × sum ≤ most) }
{
    let mut sum = 0;
    for t in types {
        match sum_within(sum, cells_in(structures, *t), most) {
            Some(more) => sum = more,
            None => return None,
        }
    }
    Some(sum)
}

/// The types of the parameters of a kind.
#[tactic(auto, using(cc_typed::specs::Sequences::cuts))]
fn parameters(kind: &Kind) -> &[DataType]
    ensures types { result.now ≡ take kind.now.parameters kind.now.variables }
{
    let types = kind.variables.as_slice();
    &types[..(kind.parameters as usize).min(types.len())]
}

/// The types of the variables of a kind after its parameters.
#[tactic(auto, using(cc_typed::specs::Sequences::cuts))]
fn others(kind: &Kind) -> &[DataType]
    ensures types { result.now ≡ drop kind.now.parameters kind.now.variables }
{
    let types = kind.variables.as_slice();
    &types[(kind.parameters as usize).min(types.len())..]
}

/// The cells of values of these types, which stand in these in order.
#[tactic(auto, using(crate::proofs::Cuts::starts, crate::proofs::Shapes::tables))]
fn split(
    alloc: Global,
    structures: &[Structure],
    types: &[DataType],
    cells: &[i64],
) -> Result<Items<Items<i64>>, Memory>
    requires table { is_table structures.now ≡ true }
    ensures cells { IfOk result (λ all. all ≡ fitted_each (layouts_of structures.now types.now) cells.now) }
{
    let mut all = Items::new(alloc);
    let mut rest = cells;
    for t in types {
        let count = cells_in(structures, *t);
        all.push(fitted(alloc, rest, count)?)?;
        rest = after(rest, count);
    }
    Ok(all)
}

/// Puts the cells of zeros of these types at the end.
#[tactic(auto, using(crate::proofs::Cuts::starts, crate::proofs::Shapes::tables))]
fn put_zeros(
    alloc: Global,
    structures: &[Structure],
    all: &mut Items<Items<i64>>,
    types: &[DataType],
) -> Result<(), Memory>
    requires table { is_table structures.now ≡ true }
    ensures cells { OnOk result (all.new ≡ all.old ++ blanks (layouts_of structures.now types.now)) }
{
    for t in types {
        all.push(zeros(alloc, cells_in(structures, *t))?)?;
    }
    Ok(())
}

/// The cells of each variable of a kind as a process begins: its arguments, and then zeros.
fn scope_at_start(
    alloc: Global,
    program: &Program,
    kind: &Kind,
    args: &Cells,
) -> Result<Items<Items<i64>>, Memory>
    requires table { is_table program.now.structures ≡ true }
    ensures cells { IfOk result (λ all. all ≡ fitted_each (layouts_of program.now.structures (take kind.now.parameters kind.now.variables)) args.now ++ blanks (layouts_of program.now.structures (drop kind.now.parameters kind.now.variables))) }
{
    let args = items_from(alloc, args)?;
    let mut all = split(
        alloc,
        program.structures.as_slice(),
        parameters(kind),
        args.as_slice(),
    )?;
    put_zeros(alloc, program.structures.as_slice(), &mut all, others(kind))?;
    Ok(all)
}

/// The grants after the first.
fn after_first(grants: &[Grant]) -> &[Grant]
    ensures rest { result.now ≡ drop 1 grants.now }
{
    match grants {
        [] => grants,
        [_, rest @ ..] => rest,
    }
}

/// What a process of this kind asks, where its variables are not too many.
#[tactic(auto, using(crate::proofs::Shapes::bodies, crate::proofs::Cuts::starts, crate::specs::Projections::straight_parts))]
fn run_kind(
    alloc: Global,
    program: &Program,
    number: u32,
    kind: &Kind,
    args: &Cells,
    grants: &Grants,
) -> Result<Request, Memory>
    requires typed { is_typed_program program.now ≡ true }
    requires straight { is_straight_program program.now ≡ true }
    requires kind { slice_get program.now.kinds number ≡ Some kind.now }
    ensures asks { IfOk result (λ r. r ≡ asked_by Done (body program.now (Some kind.now) args.now grants.now)) }
{
    let structures = program.structures.as_slice();
    let Some(cells) = cells_within(structures, kind.variables.as_slice(), MOST_CELLS) else {
        return Ok(Request::Fault {
            kind: FaultKind::Cells,
        });
    };
    let mut run = Run {
        scope: scope_at_start(alloc, program, kind, args)?,
        grants: after_first(grants.as_slice()),
        ticks: TICKS_GRANTED,
    };
    let evaluator = Evaluator {
        alloc,
        program,
        variables: kind.variables.as_slice(),
        kind: Some(number),
        result: Some(kind.result),
        replies: None,
        calls: MOST_CALLS,
        cells: cells as usize,
    };
    match evaluator.statements(&mut run, kind.body.as_slice()) {
        Ok(_ending) => Ok(Request::Done),
        Err(Unfinished::Asked(request)) => Ok(request),
        Err(Unfinished::Memory) => Err(Memory),
    }
}

impl Program {
    /// What a process of this kind with these arguments asks after exactly these grants.
    #[tactic(auto, using(crate::specs::Projections::straight_parts), unfolding(crate::specs::Programs::act))]
    pub fn act_plain(
        &self,
        alloc: Global,
        kind: u32,
        args: &Cells,
        grants: &Grants,
    ) -> Result<Request, Memory>
        requires straight { is_straight_program self.now ≡ true }
        requires kind { HasKind (meaning self.now) kind (length args.now) }
        ensures asks { IfOk result (λ r. r ≡ act self.now kind args.now grants.now) }
    {
        match self.kinds.get(kind as usize) {
            Some(found) => run_kind(alloc, self, kind, found, args, grants),
            None => unreachable!(),
        }
    }

    /// How many cells the parameters of a kind have, where it exists.
    #[tactic(auto, using(crate::proofs::Shapes::kinds))]
    pub fn kind_cells(&self, kind: u32) -> Option<usize>
        requires straight { is_straight_program self.now ≡ true }
        ensures cells { result ≡ slice_get (meaning self.now).kinds kind }
    {
        match self.kinds.get(kind as usize) {
            Some(found) => Some(parameter_cells(self, kind, found) as usize),
            None => None,
        }
    }

    /// What a transaction takes and gives.
    #[tactic(auto, using(crate::proofs::Shapes::shaping))]
    pub(crate) fn shape(&self, trans: u32) -> Shape
        requires straight { is_straight_program self.now ≡ true }
        requires there { trans < length (meaning self.now).shapes }
        ensures shape { slice_get (meaning self.now).shapes trans ≡ Some result }
    {
        match self.transactions.get(trans as usize) {
            Some(transaction) => shape_of(self, transaction),
            None => unreachable!(),
        }
    }

    /// The rank of a call with these arguments at an accept site in this environment; none where it does not fit.
    #[tactic(auto, using(crate::specs::Projections::straight_parts, crate::proofs::Fits::fitting))]
    pub fn fit_plain(&self, site: u32, env: &Cells, args: &Cells) -> Option<i64>
        requires straight { is_straight_program self.now ≡ true }
        ensures rank { result ≡ fit self.now site env.now args.now }
    {
        match self.sites.get(site as usize) {
            None => None,
            Some(found) => fit_site(self, found, env, args),
        }
    }
}

/// How many cells the parameters of a kind have.
#[tactic(auto, using(crate::proofs::Shapes::kinds))]
fn parameter_cells(program: &Program, number: u32, kind: &Kind) -> u32
    requires typed { is_typed_program program.now ≡ true }
    requires kind { slice_get program.now.kinds number ≡ Some kind.now }
    ensures cells { result ≡ parameter_cells program.now kind.now }
{
    let _ = number;
    match cells_within(
        program.structures.as_slice(),
        parameters(kind),
        MOST_PARAMETER_CELLS,
    ) {
        Some(cells) => cells,
        None => unreachable!(),
    }
}

/// What a transaction takes and gives.
#[tactic(auto, using(crate::proofs::Shapes::shaping))]
fn shape_of(program: &Program, transaction: &Transaction) -> Shape
    requires table { is_table program.now.structures ≡ true }
    requires few { cells_in_all program.now.structures transaction.now.parameters ≤ 256 }
    requires value { cells_in program.now.structures transaction.now.value ≤ 1 }
    ensures shape { result ≡ shape_of program.now transaction.now }
{
    let structures = program.structures.as_slice();
    let value = cells_in(structures, transaction.value) as u32;
    match cells_within(
        structures,
        transaction.parameters.as_slice(),
        MOST_PARAMETER_CELLS,
    ) {
        Some(args) => Shape {
            is_async: transaction.is_async,
            args,
            value,
        },
        None => unreachable!(),
    }
}

/// The types of the parameters of a site's transaction.
fn parameters_of<'p>(program: &'p Program, site: &Site) -> &'p [DataType]
    ensures types { result.now ≡ parameters_at (slice_get program.now.transactions site.now.transaction) }
{
    match program.transactions.get(site.transaction as usize) {
        Some(transaction) => transaction.parameters.as_slice(),
        None => &[],
    }
}

/// The rank at an accept without clauses.
#[tactic(auto, using(crate::proofs::Shapes::shaping, crate::proofs::Fits::fitting))]
fn fit_site(program: &Program, site: &Site, env: &Cells, args: &Cells) -> Option<i64>
    requires typed { is_typed_program program.now ≡ true }
    requires site { is_straight_site site.now ≡ true }
    ensures rank { result ≡ site_rank program.now (Some site.now) env.now args.now }
{
    let structures = program.structures.as_slice();
    match cells_within(
        structures,
        parameters_of(program, site),
        MOST_PARAMETER_CELLS,
    ) {
        Some(cells) => if args.len() == cells as usize && env.len() == 0 {
            Some(0)
        } else {
            None
        },
        None => unreachable!(),
    }
}
