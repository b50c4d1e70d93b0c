//! Lists by the numbers of names.

ghost use Rattle.std.specs.Prelude.{◌≡◌, slice_set};
ghost use Rattle.cc_declared.specs.Undone.{undone};
ghost use Rattle.cc_faults.specs.Scopes.{entry_at, is_here, is_there};

use cc_faults::{Identifier, Named};
use sqlite_items::Items;

/// A name, and what it meant before it was declared in a scope.
#[derive(Clone, Copy, Debug, Drop, PartialEq, Eq)]
pub struct Hidden {
    pub name: u32,
    pub meant: Option<Named>,
}

/// The entry of a name.
pub(crate) fn entry<T: Copy>(entries: &[Option<T>], x: Identifier) -> Option<T>
    ensures { result ≡ entry_at entries.now x }
{
    match entries.get(x.name as usize) {
        None => None,
        Some(entry) => *entry,
    }
}

/// Whether a name is declared in this very scope.
pub(crate) fn is_here(scope: u32, meant: Option<Named>) -> bool
    ensures { result ≡ is_here scope meant }
{
    match meant {
        None => false,
        Some(named) => named.scope == scope,
    }
}

/// Whether a name has an entry.
pub(crate) fn is_there<T: Drop>(entry: Option<T>) -> bool
    ensures { result ≡ is_there entry }
{
    entry.is_some()
}

/// Sets the entry of a name that has a number below their count.
#[tactic(auto, using(crate::proofs::Laws::past))]
pub(crate) fn put_at<T: Drop>(entries: &mut Items<T>, name: u32, entry: T)
    ensures { entries.new ≡ slice_set entries.old name entry }
{
    if (name as usize) < entries.len() {
        entries.set(name as usize, entry);
    }
}

/// Puts back what was hidden, the last first.
#[tactic(auto, using(crate::proofs::Laws::past))]
pub(crate) fn put_back(names: &mut Items<Option<Named>>, hidden: Items<Hidden>)
    ensures { names.new ≡ undone hidden names.old }
{
    let mut left = hidden;
    while let Some(h) = left.pop() {
        put_at(names, h.name, h.meant);
    }
}
