ghost use Rattle.std.specs.List.{list_all};
ghost use Rattle.std.specs.Prelude.{◌≡◌, ◌++◌, OnOk, IfOk, replicate, false};
ghost use Rattle.cc_typed.specs.Accepts.{are_each_once, sites_in, sites_of_body, sites_of_choice, sites_of_kinds, sites_of_list};

use crate::tree::{Alternative, Choice, Kind, Statement};
use sqlite_items::Items;
use std::alloc::{AllocError, Global};

/// Notes the sites of the accepts in a statement, in the order of the text.
#[cycle(noted_sites)]
#[tactic(auto, using(crate::proofs::Sites::noted_sites))]
fn note_sites(sites: &mut Items<u32>, s: &Statement) -> Result<(), AllocError>
    ensures { OnOk result (sites.new ≡ sites.old ++ sites_in s.now) }
{
    match s {
        Statement::Block { entries } => note_all(sites, entries.as_slice()),
        Statement::If { body, .. } => note_sites(sites, body.get()),
        Statement::IfElse { yes, no, .. } => {
            note_sites(sites, yes.get())?;
            note_sites(sites, no.get())
        }
        Statement::While { body, .. } => note_sites(sites, body.get()),
        Statement::DoWhile { body, .. } => note_sites(sites, body.get()),
        Statement::For { body, .. } => note_sites(sites, body.get()),
        Statement::Accept { part } => {
            sites.push(part.site)?;
            note_all(sites, part.block.as_slice())
        }
        Statement::Select { alternatives } => note_alternatives(sites, alternatives.as_slice()),
        Statement::Empty
        | Statement::Evaluate { .. }
        | Statement::Declare { .. }
        | Statement::Initialize { .. }
        | Statement::Break
        | Statement::Continue
        | Statement::Return { .. }
        | Statement::Finish { .. }
        | Statement::TransactionReturn { .. }
        | Statement::Delay { .. } => Ok(()),
    }
}

#[cycle(noted_sites)]
#[tactic(auto, using(crate::proofs::Sites::noted_sites))]
fn note_all(sites: &mut Items<u32>, all: &[Statement]) -> Result<(), AllocError>
    ensures { OnOk result (sites.new ≡ sites.old ++ sites_of_body all.now) }
{
    for s in all {
        note_sites(sites, s)?;
    }
    Ok(())
}

#[cycle(noted_sites)]
#[tactic(auto, using(crate::proofs::Sites::noted_sites))]
fn note_choice(sites: &mut Items<u32>, choice: &Choice) -> Result<(), AllocError>
    ensures { OnOk result (sites.new ≡ sites.old ++ sites_of_choice choice.now) }
{
    match choice {
        Choice::Accept { part } => {
            sites.push(part.site)?;
            note_all(sites, part.block.as_slice())
        }
        Choice::Delay { .. } => Ok(()),
        Choice::Immediate => Ok(()),
        Choice::Terminate => Ok(()),
    }
}

#[cycle(noted_sites)]
#[tactic(auto, using(crate::proofs::Sites::noted_sites))]
fn note_alternatives(sites: &mut Items<u32>, all: &[Alternative]) -> Result<(), AllocError>
    ensures { OnOk result (sites.new ≡ sites.old ++ sites_of_list all.now) }
{
    for a in all {
        note_choice(sites, &a.choice)?;
        note_all(sites, a.entries.as_slice())?;
    }
    Ok(())
}

/// The sites of the accepts in the bodies.
#[tactic(auto, using(crate::proofs::Sites::noted_sites))]
fn sites_of_kinds(alloc: Global, kinds: &[Kind]) -> Result<Items<u32>, AllocError>
    ensures { IfOk result (λ sites. sites ≡ sites_of_kinds kinds.now) }
{
    let mut sites = Items::new(alloc);
    for kind in kinds {
        note_all(&mut sites, kind.body.as_slice())?;
    }
    Ok(sites)
}

/// A list of this length with nothing seen.
#[tactic(auto, using(crate::proofs::Sites::unseen))]
fn unseen(alloc: Global, count: usize) -> Result<Items<bool>, AllocError>
    ensures { IfOk result (λ seen. seen ≡ replicate count false) }
{
    let mut seen = Items::new(alloc);
    for at in 0..count {
        let _ = at;
        seen.push(false)?;
    }
    Ok(seen)
}

/// Whether each number below this one is among them, and once.
#[tactic(auto, using(crate::proofs::Sites::once))]
fn each_once(alloc: Global, count: usize, numbers: &[u32]) -> Result<bool, AllocError>
    ensures { IfOk result (λ b. b ≡ are_each_once count numbers.now) }
{
    let mut seen = unseen(alloc, count)?;
    for number in numbers {
        let at = *number as usize;
        if at < seen.len() {
            if seen.as_slice()[at] {
                return Ok(false);
            }
            seen.set(at, true);
        }
    }
    Ok(all_seen(seen.as_slice()))
}

fn all_seen(seen: &[bool]) -> bool
    ensures { result ≡ list_all (λ b. b) seen.now }
{
    for s in seen {
        if !*s {
            return false;
        }
    }
    true
}

/// Whether each number of a site stands in one accept of the bodies.
pub(crate) fn single_accepts(
    alloc: Global,
    count: usize,
    kinds: &[Kind],
) -> Result<bool, AllocError>
    ensures { IfOk result (λ b. b ≡ are_each_once count (sites_of_kinds kinds.now)) }
{
    let sites = sites_of_kinds(alloc, kinds)?;
    each_once(alloc, count, sites.as_slice())
}
