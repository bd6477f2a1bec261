//! Laws of the operators' definitions in the standard's own words, as contracts of functions that do nothing.
//!
//! `binary_digits` lists the digits from the lowest on, so what the standard moves to the left goes towards the list's
//! end. Source: WebAssembly Core Specification 1.0, section 4.3.2.

ghost use Rattle.std.specs.Prelude.{◌≡◌, ◌↔◌, ℕ, ◌-◌, ◌/◌, ◌%◌, ◌^◌, ◌<◌, ◌≤◌, ◌++◌, take, drop, replicate, ℤ, pos, ◌+ℤ◌, ◌*ℤ◌, ◌≤ℤ◌, int_div, unsigned_abs};
ghost use Rattle.wasm_types.specs.declared.instr.Width.{Width};
ghost use Rattle.wasm_types.specs.declared.instr.PackSize.{PackSize};
ghost use Rattle.wasm_values.specs.declared.outcome.TrapKind.TheVariants as trap;
ghost use Rattle.wasm_spec.specs.Operators.{binary_digits, bit_width, div_s, pack_bits, rem_s, rotl, rotr, shl, shr_s, shr_u, signed, wrap};
ghost use Rattle.wasm_numeric.specs.Operators.{extend_low};

/// A rotation by k places: the k digits that leave at one end come in at the other, in their order.
pub fn rotations_move_the_digits()
    ensures left { (w : Width) (a b : ℕ) → a < 2 ^ bit_width w
        → (let n = bit_width w in let k = b % n in let digits = binary_digits n a in
        binary_digits n (rotl n a b) ≡ drop (n - k) digits ++ take (n - k) digits) }
    ensures right { (w : Width) (a b : ℕ) → a < 2 ^ bit_width w
        → (let n = bit_width w in let k = b % n in let digits = binary_digits n a in
        binary_digits n (rotr n a b) ≡ drop k digits ++ take k digits) }
{}

/// A shift by k places: k digits leave at one end, and k zeros come in at the other, or k copies of the highest digit
/// where the sign is kept.
pub fn shifts_move_the_digits()
    ensures left { (w : Width) (a b : ℕ) → a < 2 ^ bit_width w
        → (let n = bit_width w in let k = b % n in let digits = binary_digits n a in
        binary_digits n (shl n a b) ≡ replicate k 0 ++ take (n - k) digits) }
    ensures unsigned_right { (w : Width) (a b : ℕ) → a < 2 ^ bit_width w
        → (let n = bit_width w in let k = b % n in let digits = binary_digits n a in
        binary_digits n (shr_u n a b) ≡ drop k digits ++ replicate k 0) }
    ensures signed_right { (w : Width) (a b : ℕ) → a < 2 ^ bit_width w
        → (let n = bit_width w in let k = b % n in let digits = binary_digits n a in
        binary_digits n (shr_s n a b) ≡ drop k digits ++ replicate k (a / 2 ^ (n - 1))) }
{}

/// A signed quotient is towards zero: what it leaves is smaller than the divisor, and is 0 or has the dividend's sign.
pub fn signed_division_leaves_the_remainder()
    ensures whole { (w : Width) (a b q r : ℕ) → a < 2 ^ bit_width w → b < 2 ^ bit_width w
        → div_s (bit_width w) a b ≡ Ok q → rem_s (bit_width w) a b ≡ Ok r
        → (let n = bit_width w in ((signed n q *ℤ signed n b) +ℤ signed n r) ≡ signed n a) }
    ensures smaller { (w : Width) (a b r : ℕ) → a < 2 ^ bit_width w → b < 2 ^ bit_width w → rem_s (bit_width w) a b ≡ Ok r
        → (let n = bit_width w in unsigned_abs (signed n r) < unsigned_abs (signed n b)) }
    ensures sign { (w : Width) (a b r : ℕ) → a < 2 ^ bit_width w → rem_s (bit_width w) a b ≡ Ok r
        → (let n = bit_width w in (pos 0 ≤ℤ signed n a → pos 0 ≤ℤ signed n r) × (signed n a ≤ℤ pos 0 → signed n r ≤ℤ pos 0)) }
{}

/// A signed division overflows just where the quotient is 2^(N - 1), which no signed number of N bits is.
pub fn signed_division_overflows_at_one_quotient()
    ensures { (w : Width) (a b : ℕ) → a < 2 ^ bit_width w → b < 2 ^ bit_width w → 0 < b
        → (let n = bit_width w in (div_s n a b ≡ Err trap.Overflow) ↔ (int_div (signed n a) (signed n b) ≡ pos (2 ^ (n - 1)))) }
{}

/// An extension by the sign of the lowest digits: they stay, and all above them are copies of the highest of them; the value
/// is the signed number that they are.
pub fn sign_extensions_copy_a_digit()
    ensures digits { (w : Width) (p : PackSize) (a : ℕ) → pack_bits p ≤ bit_width w
        → (let n = bit_width w in let m = pack_bits p in let digits = binary_digits n a in
        binary_digits n (extend_low m n a) ≡ take m digits ++ replicate (n - m) (wrap m a / 2 ^ (m - 1))) }
    ensures value { (w : Width) (p : PackSize) (a : ℕ) → pack_bits p ≤ bit_width w
        → (let n = bit_width w in let m = pack_bits p in signed n (extend_low m n a) ≡ signed m (wrap m a)) }
{}
