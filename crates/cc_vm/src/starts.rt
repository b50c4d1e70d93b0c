//! The lists of a process that begins.

ghost use Rattle.std.specs.Prelude.{◌≡◌, ◌<◌, ◌≤◌, Some, length, slice_get, IfOk};
ghost use Rattle.cc_code.specs.Steps.{cells_at_start};
ghost use Rattle.cc_vm.specs.Lists.{StartsWith, first_registers};

use crate::lists::Lists;
use crate::registers::Registers;
use cc_base::Cells;
use cc_base::limits::TICKS_GRANTED;
use cc_code::Part;
use std::alloc::{AllocError, Global};

/// The cell at a place of a list.
fn cell_of(cells: &Cells, at: usize) -> i64
    requires { at < length cells.now }
    ensures { slice_get cells.now at ≡ Some result }
{
    match cells.get(at) {
        Some(cell) => cell,
        None => 0,
    }
}

/// The cells of a list.
fn copy_cells(alloc: Global, cells: &Cells) -> Result<Vec<i64>, AllocError>
    ensures { IfOk result (λ copy. copy.items ≡ cells.now) }
{
    let mut copy = Vec::new(alloc);
    for at in 0..cells.len() {
        copy.push(cell_of(cells, at))?;
    }
    Ok(copy)
}

/// The arguments of a part and then zeros, as many cells together as it has.
fn first_cells(alloc: Global, part: Part, args: &Cells) -> Result<Vec<i64>, AllocError>
    requires args { length args.now ≡ part.args }
    requires among { part.args ≤ part.cells }
    ensures { IfOk result (λ cells. cells.items ≡ cells_at_start part args.now) }
{
    let mut cells = copy_cells(alloc, args)?;
    cells.resize(part.cells as usize, 0)?;
    Ok(cells)
}

/// Where the registers stand as a part begins.
fn first_registers(part: Part) -> Registers
    ensures { result ≡ first_registers part }
{
    Registers {
        at: part.entry as usize,
        bottom: 0,
        top: 0,
        first: 0,
        end: part.cells as usize,
        calls: 0,
        ticks: TICKS_GRANTED,
        count: 0,
    }
}

/// The lists of a part that begins with these arguments, with room for so many operands.
pub(crate) fn start(
    alloc: Global,
    part: Part,
    args: &Cells,
    room: usize,
) -> Result<Lists, AllocError>
    requires args { length args.now ≡ part.args }
    requires among { part.args ≤ part.cells }
    ensures { IfOk result (StartsWith part args.now room) }
{
    let cells = first_cells(alloc, part, args)?;
    let stack = vec![in alloc; 0i64; room]?;
    Ok(Lists {
        stack,
        cells,
        frames: Vec::new(alloc),
        registers: first_registers(part),
    })
}
