//! The definition of offsets at an example.

ghost use Rattle.std.specs.Prelude.{◌≡◌, [], ◌∷◌, Some, None};
ghost use Rattle.binary_decoder.specs.Offsets.{code_of, bodies_in, instruction_offset};
ghost use Rattle.binary_decoder.specs.OffsetsExample.{example};

/// The definition of offsets at an example: a module of two bodies, which have three instructions each.
pub fn example_has_these_offsets()
    ensures all { bodies_in (code_of example) ≡ (26 ∷ 29 ∷ 30 ∷ []) ∷ (33 ∷ 36 ∷ 38 ∷ []) ∷ [] }
    ensures one { instruction_offset example 1 1 ≡ Some 36 }
    ensures past_end { instruction_offset example 0 3 ≡ None }
    ensures no_body { instruction_offset example 2 0 ≡ None }
{}
