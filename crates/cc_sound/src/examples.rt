//! Small texts, held against the definitions.
ghost use Rattle.std.specs.Prelude.{◌≡◌, true, false, [], ◌∷◌};
ghost use Rattle.cc_typed.specs.Accepts.{sites_of_kinds};
ghost use Rattle.cc_typed.specs.Typed.{is_typed_program};
ghost use Rattle.cc_faults.specs.Judged.{Good};
ghost use Rattle.cc_faults.specs.Programs.{program};
ghost use Rattle.cc_sound.specs.Examples.{no_field, two_bodies, two_kinds, without_field};
ghost use Rattle.cc_sound.specs.Formed.{is_formed_text};
ghost use Rattle.cc_sound.specs.Sizes.{things_of};

/// A text whose bodies stand in another order than their specifications means a typed program, with each site in one accept.
fn bodies_in_another_order()
    ensures things { things_of two_bodies ≡ 15 }
    ensures formed { is_formed_text two_bodies ≡ true }
    ensures means { program two_bodies ≡ Good two_kinds }
    ensures sites { sites_of_kinds two_kinds.kinds ≡ 1 ∷ 0 ∷ [] }
    ensures typed { is_typed_program two_kinds ≡ true }
{}

/// What is found of a tree that no text has need not be typed: here a structure without a field.
fn a_structure_without_a_field()
    ensures not_formed { is_formed_text no_field ≡ false }
    ensures means { program no_field ≡ Good without_field }
    ensures not_typed { is_typed_program without_field ≡ false }
{}
