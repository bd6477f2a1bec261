//! Laws of the binary format.

ghost use Rattle.std.specs.Prelude.{◌≡◌, ℕ, false, List};
ghost use Rattle.wasm_values.specs.declared.profile.Profile.{Profile};
ghost use Rattle.wasm_values.specs.declared.profile.Profile.TheVariants.{One, Two};
ghost use Rattle.wasm_types.specs.Tree.{ModuleTree};
ghost use Rattle.wasm_spec.specs.Bulk.{HasFewMarks, uses_bulk};
ghost use Rattle.wasm_spec.specs.Grammar.{Spells};
ghost use Rattle.wasm_spec.specs.Validity.{IsSupported};

/// In a profile bytes spell at most one module. Source: Core Specification 1.0, section 5.5.15.
pub fn bytes_spell_at_most_one_module()
    ensures { (profile : Profile) (bytes : List ℕ) (m n : ModuleTree) → Spells profile bytes m → Spells profile bytes n → m ≡ n }
{}

/// No module that bytes spell in profile 1 copies or fills a part of its memory.
pub fn modules_of_profile_1_copy_and_fill_nothing()
    ensures { (bytes : List ℕ) (m : ModuleTree) → Spells One bytes m → uses_bulk m ≡ false }
{}

/// So the instructions of a module that is run in profile 1 mark few blocks.
pub fn modules_of_profile_1_have_few_marks()
    ensures { (bytes : List ℕ) (m : ModuleTree) → Spells One bytes m → IsSupported One m → HasFewMarks m }
{}

/// Bytes that spell a module in profile 1 spell the same one in profile 2.
pub fn modules_of_profile_1_are_those_of_profile_2()
    ensures { (bytes : List ℕ) (m : ModuleTree) → Spells One bytes m → Spells Two bytes m }
{}
