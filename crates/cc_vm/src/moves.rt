//! Cells that are copied or cleared within lists. A single cell, which is the usual case, is copied by itself.

ghost use Rattle.std.specs.Prelude.{◌≡◌, ◌+◌, ◌≤◌, pos, drop, length, replicate, take};
ghost use Rattle.cc_code.specs.Works.{with_cells};

/// Copies so many cells from a place of one list to a place of another.
#[inline(always)]
pub(crate) fn put_cells(target: &mut [i64], to: usize, source: &[i64], from: usize, cells: usize)
    requires target { to + cells ≤ length target.old }
    requires source { from + cells ≤ length source.now }
    ensures { target.new ≡ with_cells to (take cells (drop from source.now)) target.old }
{
    if cells == 1 {
        target[to] = source[from];
    } else {
        target[to..to + cells].copy_from_slice(&source[from..from + cells]);
    }
}

/// Copies so many cells from a place of a list to another place of it.
#[inline(always)]
pub(crate) fn move_cells(list: &mut [i64], from: usize, to: usize, cells: usize)
    requires from { from + cells ≤ length list.old }
    requires to { to + cells ≤ length list.old }
    ensures { list.new ≡ with_cells to (take cells (drop from list.old)) list.old }
{
    if cells == 1 {
        list[to] = list[from];
    } else {
        list.copy_within(from..from + cells, to);
    }
}

/// Makes so many cells of a list 0.
#[inline(always)]
pub(crate) fn clear_cells(list: &mut [i64], from: usize, cells: usize)
    requires { from + cells ≤ length list.old }
    ensures { list.new ≡ with_cells from (replicate cells (pos 0)) list.old }
{
    if cells == 1 {
        list[from] = 0;
    } else {
        list[from..from + cells].fill(0);
    }
}
