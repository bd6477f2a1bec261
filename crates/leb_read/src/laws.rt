//! Laws of the numbers that are read, as contracts of functions that do nothing.

ghost use Rattle.std.specs.Prelude.{ℕ, ℤ};
ghost use Rattle.wasm_spec.specs.Numbers.{TakesUnsigned, TakesSigned, IsUnambiguous};

/// No front of bytes that spells an unsigned number begins another that does, so bytes begin with at most one.
pub fn unsigned_numbers_are_unambiguous()
    ensures { (n : ℕ) → IsUnambiguous (TakesUnsigned n) }
{}

/// No front of bytes that spells a signed number begins another that does, so bytes begin with at most one.
pub fn signed_numbers_are_unambiguous()
    ensures { (n : ℕ) → IsUnambiguous (TakesSigned n) }
{}
