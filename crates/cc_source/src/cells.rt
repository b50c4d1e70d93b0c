//! Cells of values.
ghost use Rattle.std.specs.Prelude.{◌≡◌, ◌++◌, ◌∷◌, [], drop, get_or, pos, replicate, IfOk, OnOk};
ghost use Rattle.cc_source.specs.Gives.{fitted};

use cc_base::{Cells, Memory};
use sqlite_items::Items;
use std::alloc::Global;

/// The cell at this index; 0 stands for one that is missing.
#[tactic(auto, using(crate::proofs::Cuts::cells_of_lists))]
fn cell_at(cells: &[i64], at: usize) -> i64
    ensures cell { result ≡ get_or cells.now at (pos 0) }
{
    match cells.get(at) {
        Some(cell) => *cell,
        None => 0,
    }
}

/// The number that a value's first cell is; 0 stands for one that is missing.
pub(crate) fn number_of(cells: &[i64]) -> i64
    ensures number { result ≡ get_or cells.now 0 (pos 0) }
{
    cell_at(cells, 0)
}

/// The cells of a number.
pub(crate) fn one_cell(alloc: Global, number: i64) -> Result<Items<i64>, Memory>
    ensures cells { IfOk result (λ cs. cs ≡ number ∷ []) }
{
    Ok(Items::from_slice(alloc, &[number])?)
}

/// So many zeros.
#[tactic(auto, using(crate::proofs::Cuts::cells_of_lists))]
pub(crate) fn zeros(alloc: Global, count: u64) -> Result<Items<i64>, Memory>
    ensures cells { IfOk result (λ cs. cs ≡ replicate count (pos 0)) }
{
    let mut all = Items::new(alloc);
    for at in 0..count {
        let _ = at;
        all.push(0)?;
    }
    Ok(all)
}

/// The cells, cut to so many or filled with 0.
#[tactic(auto, using(crate::proofs::Cuts::cells_of_lists))]
pub(crate) fn fitted(alloc: Global, cells: &[i64], count: u64) -> Result<Items<i64>, Memory>
    ensures cells { IfOk result (λ cs. cs ≡ fitted count cells.now) }
{
    let mut all = Items::new(alloc);
    for at in 0..count as usize {
        all.push(cell_at(cells, at))?;
    }
    Ok(all)
}

/// The cells after so many.
#[tactic(auto, using(crate::proofs::Cuts::cells_of_lists))]
pub(crate) fn after(cells: &[i64], count: u64) -> &[i64]
    ensures rest { result.now ≡ drop count cells.now }
{
    &cells[(count as usize).min(cells.len())..]
}

/// Puts cells at the end.
pub(crate) fn append(all: &mut Cells, more: &[i64]) -> Result<(), Memory>
    ensures cells { OnOk result (all.new ≡ all.old ++ more.now) }
{
    for cell in more {
        all.push(*cell)?;
    }
    Ok(())
}

/// The cells of a list.
#[tactic(auto, using(crate::proofs::Cuts::cells_of_lists))]
pub(crate) fn items_from(alloc: Global, cells: &Cells) -> Result<Items<i64>, Memory>
    ensures cells { IfOk result (λ cs. cs ≡ cells.now) }
{
    let mut all = Items::new(alloc);
    for at in 0..cells.len() {
        all.push(cells.get(at).unwrap_or(0))?;
    }
    Ok(all)
}
