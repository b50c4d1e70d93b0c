//! The cells of types in order.

ghost use Rattle.std.specs.Prelude.{◌≡◌, ◌+◌, ◌≤◌, Some, None, nat_le, if◌then◌else◌, IfOk};
ghost use Rattle.cc_base.specs.Limits.{most_type_cells};
ghost use Rattle.cc_faults.specs.Declarations.{laid_out};
ghost use Rattle.cc_typed.specs.Table.{cells_in_all};

use cc_base::Memory;
use cc_base::limits::MOST_TYPE_CELLS;
use cc_typed::{DataType, Field, Structure, cells_in};
use sqlite_items::Items;
use std::alloc::Global;

/// A sum of cells, where it is at most this.
fn sum_within(before: u32, cells: u64, most: u32) -> Option<u32>
    ensures { result ≡ (if nat_le (before + cells) most then Some (before + cells) else None) }
{
    match u64::from(before).checked_add(cells) {
        Some(sum) => if sum <= u64::from(most) {
            Some(sum as u32)
        } else {
            None
        },
        None => None,
    }
}

/// Whether types have at most so many cells.
#[tactic(auto, using(crate::proofs::Cells::sums))]
pub(crate) fn are_within(structures: &[Structure], types: &[DataType], most: u32) -> bool
    ensures { result ≡ nat_le (cells_in_all structures.now types.now) most }
{
    let mut sum = 0;
    for t in types {
        match sum_within(sum, cells_in(structures, *t), most) {
            Some(more) => sum = more,
            None => return false,
        }
    }
    true
}

/// A structure with fields of these types, unless it is large.
#[tactic(auto, using(crate::proofs::Cells::sums))]
pub(crate) fn laid(
    alloc: Global,
    structures: &[Structure],
    types: &[DataType],
) -> Result<Option<Structure>, Memory>
    ensures { IfOk result (λ r. r ≡ (if nat_le (cells_in_all structures.now types.now) most_type_cells then Some (record { fields = laid_out structures.now 0 types.now; cells = cells_in_all structures.now types.now }) else None)) }
{
    let mut fields = Items::new(alloc);
    let mut sum = 0;
    for t in types {
        fields.push(Field {
            data_type: *t,
            offset: sum,
        })?;
        match sum_within(sum, cells_in(structures, *t), MOST_TYPE_CELLS) {
            Some(more) => sum = more,
            None => return Ok(None),
        }
    }
    Ok(Some(Structure { fields, cells: sum }))
}
