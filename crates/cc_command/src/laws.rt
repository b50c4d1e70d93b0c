//! Laws of what texts mean.

ghost use Rattle.std.specs.Prelude.{◌≡◌, ℕ, List};
ghost use Rattle.cc_base.specs.declared.names.Place.{Place};
ghost use Rattle.cc_typed.specs.Parts.{Parts};
ghost use Rattle.cc_command.specs.Texts.{HasFault, MeansProgram};
ghost use Rattle.cc_command.specs.declared.text_fault.TextFaultKind.{TextFaultKind};

/// A text means one program at most.
pub fn one_program()
    ensures same { (text : List ℕ) (first second : Parts) → MeansProgram text first → MeansProgram text second → first ≡ second }
{}

/// A text has one first fault at most.
pub fn one_fault()
    ensures same { (text : List ℕ) (p q : Place) (k l : TextFaultKind) → HasFault text p k → HasFault text q l → (p ≡ q) × (k ≡ l) }
{}

/// A text that means a program has no fault.
pub fn no_faulty_program()
    ensures none { (text : List ℕ) (program : Parts) (place : Place) (kind : TextFaultKind) → MeansProgram text program → ¬ HasFault text place kind }
{}
