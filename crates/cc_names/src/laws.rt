//! What the numbers of names and the plain tree say of themselves.

ghost use Rattle.std.specs.Prelude.{◌≡◌, None};
ghost use Rattle.cc_faults.specs.Faults.{noted};
ghost use Rattle.cc_faults.specs.Judged.{faults};
ghost use Rattle.cc_faults.specs.Programs.{program};
ghost use Rattle.cc_faults.specs.Sorted.{first, sorted};
ghost use Rattle.cc_names.specs.Laws.{MainIsFirst, NumbersTellNames};
ghost use Rattle.cc_names.specs.Plains.{plain};

use cc_grammar::Tree;

/// Names that are mentioned have one number exactly where their bytes are the same, and `main` has the number 0.
pub fn numbers_tell_names()
    ensures names { NumbersTellNames }
    ensures main { MainIsFirst }
{}

/// The first of a text's faults as they are noted one by one is the first of its list.
pub fn first_fault_of_a_text(tree: &Tree)
    ensures first { first (sorted (faults (program (plain tree.now)))) ≡ noted None (faults (program (plain tree.now))) }
{
    let _ = tree;
}
