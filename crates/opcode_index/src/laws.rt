//! Tables, as contracts of functions that do nothing.

ghost use Rattle.std.specs.Prelude.{◌≡◌, ◌+◌, ◌++◌, map, length, replicate};
ghost use Rattle.wasm_values.specs.declared.profile.Profile.TheVariants.{One, Two};
ghost use Rattle.wasm_spec.specs.InstrGrammar.{NotPlain, shape};
ghost use Rattle.opcode_index.specs.OpcodeIndex.{added_index, index, left_bytes, other_bytes};

/// In profile 1 each opcode stands for the instruction that the standard's index names, and no other byte for a plain one.
/// Source: Core Specification 1.0, appendix A.5.
pub fn opcodes_are_those_of_the_index()
    ensures rows { map (λ r. shape One r.opcode) index ≡ map (λ r. r.shape) index }
    ensures others { map (λ b. shape One b) other_bytes ≡ replicate (length other_bytes) NotPlain }
    ensures all { length index + length other_bytes ≡ 256 }
{}

/// In profile 2 six bytes more stand for something: five for the extensions by the sign, and one is a prefix.
/// Source: Core Specification 2.0, appendix A.7.
pub fn profile_2_has_six_bytes_more()
    ensures rows { map (λ r. shape Two r.opcode) (index ++ added_index) ≡ map (λ r. r.shape) (index ++ added_index) }
    ensures others { map (λ b. shape Two b) left_bytes ≡ replicate (length left_bytes) NotPlain }
    ensures all { length index + length added_index + length left_bytes ≡ 256 }
{}
