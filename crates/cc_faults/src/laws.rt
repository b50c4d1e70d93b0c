//! What the definition of a text's faults says of itself.

ghost use Rattle.std.specs.Prelude.{◌≡◌, None};
ghost use Rattle.cc_faults.specs.Faults.{noted};
ghost use Rattle.cc_faults.specs.Judged.{faults};
ghost use Rattle.cc_faults.specs.Programs.{program};
ghost use Rattle.cc_faults.specs.Sorted.{first, sorted, IsInOrder, MeansOrFails};

use crate::plain::Plain;

/// The first of the faults as they are noted one by one is the first of the list.
#[tactic(auto, using(crate::proofs::Sorted::verdicts))]
pub fn first_of_the_list(tree: &Plain)
    ensures first { first (sorted (faults (program tree.now))) ≡ noted None (faults (program tree.now)) }
{
    let _ = tree;
}

/// The list of a text's faults is in order, by place and then by number, with each fault that was found once and no other.
#[tactic(auto, using(crate::proofs::Order::swaps))]
pub fn list_in_order(tree: &Plain)
    ensures order { IsInOrder (faults (program tree.now)) }
{
    let _ = tree;
}

/// A text means a program and its list is empty, or it means none and its list has a first fault.
pub fn program_or_fault(tree: &Plain)
    ensures answer { MeansOrFails (program tree.now) }
{
    let _ = tree;
}
