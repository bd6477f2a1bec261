//! The operators on integers of 32 bits.
//!
//! An `i32` of the standard is a `u32`; a signed operator reads it as a number in two's complement.
//! Source: WebAssembly Core Specification 1.0, section 4.3.2.

ghost use Rattle.std.specs.Prelude.{◌≡◌, bit_and, bit_or, bit_xor};
ghost use Rattle.wasm_types.specs.declared.instr.CompareOp.TheVariants as compare_op;
ghost use Rattle.wasm_spec.specs.Operators.{compare, div_s, eqz, rem_s, rotl, rotr, shl, shr_s, shr_u};
ghost use Rattle.wasm_numeric.specs.Operators.{add, clz, ctz, div_u, mul, popcnt, rem_u, sub};

use wasm_values::TrapKind;

/// How many of the digits at the upper end are 0: all of them where the number is 0. Standard: `iclz`.
#[tactic(auto, using(crate::proofs::StdOperators::clz_in_std))]
pub fn i32_clz(a: u32) -> u32
    ensures { result ≡ clz 32 a }
{
    a.leading_zeros()
}

/// How many of the digits at the lower end are 0: all of them where the number is 0. Standard: `ictz`.
#[tactic(auto, using(crate::proofs::StdOperators::ctz_in_std))]
pub fn i32_ctz(a: u32) -> u32
    ensures { result ≡ ctz 32 a }
{
    a.trailing_zeros()
}

/// How many of the digits are 1. Standard: `ipopcnt`.
#[tactic(auto, using(crate::proofs::StdOperators::popcnt_in_std))]
pub fn i32_popcnt(a: u32) -> u32
    ensures { result ≡ popcnt 32 a }
{
    a.count_ones()
}

/// The sum modulo 2^32. Standard: `iadd`.
pub fn i32_add(a: u32, b: u32) -> u32
    ensures { result ≡ add 32 a b }
{
    a.wrapping_add(b)
}

/// The difference modulo 2^32. Standard: `isub`.
pub fn i32_sub(a: u32, b: u32) -> u32
    ensures { result ≡ sub 32 a b }
{
    a.wrapping_sub(b)
}

/// The product modulo 2^32. Standard: `imul`.
pub fn i32_mul(a: u32, b: u32) -> u32
    ensures { result ≡ mul 32 a b }
{
    a.wrapping_mul(b)
}

/// The quotient of the signed values, towards zero. Standard: `idiv_s`.
///
/// `Divide` for the divisor 0, `Overflow` for the least signed number by -1.
pub fn i32_div_s(a: u32, b: u32) -> Result<u32, TrapKind>
    ensures { result ≡ div_s 32 a b }
{
    if b == 0 {
        return Err(TrapKind::Divide);
    }
    match a.cast_signed().checked_div(b.cast_signed()) {
        Some(quotient) => Ok(quotient.cast_unsigned()),
        None => Err(TrapKind::Overflow),
    }
}

/// The quotient, towards zero. Standard: `idiv_u`.
///
/// `Divide` for the divisor 0.
pub fn i32_div_u(a: u32, b: u32) -> Result<u32, TrapKind>
    ensures { result ≡ div_u a b }
{
    if b == 0 {
        Err(TrapKind::Divide)
    } else {
        Ok(a / b)
    }
}

/// What the signed quotient leaves, with the dividend's sign: 0 for the least signed number by -1.
/// Standard: `irem_s`.
///
/// `Divide` for the divisor 0.
pub fn i32_rem_s(a: u32, b: u32) -> Result<u32, TrapKind>
    ensures { result ≡ rem_s 32 a b }
{
    if b == 0 {
        return Err(TrapKind::Divide);
    }
    match a.cast_signed().checked_rem(b.cast_signed()) {
        Some(remainder) => Ok(remainder.cast_unsigned()),
        None => Ok(0),
    }
}

/// The remainder. Standard: `irem_u`.
///
/// `Divide` for the divisor 0.
pub fn i32_rem_u(a: u32, b: u32) -> Result<u32, TrapKind>
    ensures { result ≡ rem_u a b }
{
    if b == 0 {
        Err(TrapKind::Divide)
    } else {
        Ok(a % b)
    }
}

/// Digit by digit, 1 where both are. Standard: `iand`.
pub fn i32_and(a: u32, b: u32) -> u32
    ensures { result ≡ bit_and a b }
{
    a & b
}

/// Digit by digit, 1 where one of them is or both are. Standard: `ior`.
pub fn i32_or(a: u32, b: u32) -> u32
    ensures { result ≡ bit_or a b }
{
    a | b
}

/// Digit by digit, 1 where just one of them is. Standard: `ixor`.
pub fn i32_xor(a: u32, b: u32) -> u32
    ensures { result ≡ bit_xor a b }
{
    a ^ b
}

/// The digits moved up by the count modulo 32; zeros come in. Standard: `ishl`.
pub fn i32_shl(a: u32, b: u32) -> u32
    ensures { result ≡ shl 32 a b }
{
    a << (b % 32)
}

/// The digits moved down by the count modulo 32; copies of the sign come in. Standard: `ishr_s`.
pub fn i32_shr_s(a: u32, b: u32) -> u32
    ensures { result ≡ shr_s 32 a b }
{
    (a.cast_signed() >> (b % 32)).cast_unsigned()
}

/// The digits moved down by the count modulo 32; zeros come in. Standard: `ishr_u`.
pub fn i32_shr_u(a: u32, b: u32) -> u32
    ensures { result ≡ shr_u 32 a b }
{
    a >> (b % 32)
}

/// The digits moved up; those that leave at the upper end come in at the lower. Standard: `irotl`.
pub fn i32_rotl(a: u32, b: u32) -> u32
    ensures { result ≡ rotl 32 a b }
{
    a.rotate_left(b)
}

/// The digits moved down; those that leave at the lower end come in at the upper. Standard: `irotr`.
pub fn i32_rotr(a: u32, b: u32) -> u32
    ensures { result ≡ rotr 32 a b }
{
    a.rotate_right(b)
}

/// 1 if the number is 0, and else 0. Standard: `ieqz`.
pub fn i32_eqz(a: u32) -> u32
    ensures { result ≡ eqz a }
{
    u32::from(a == 0)
}

/// 1 if the numbers are equal, and else 0. Standard: `ieq`.
pub fn i32_eq(a: u32, b: u32) -> u32
    ensures { result ≡ compare 32 compare_op.Eq a b }
{
    u32::from(a == b)
}

/// 1 if the numbers differ, and else 0. Standard: `ine`.
pub fn i32_ne(a: u32, b: u32) -> u32
    ensures { result ≡ compare 32 compare_op.Ne a b }
{
    u32::from(a != b)
}

/// 1 if the first is less, as signed numbers, and else 0. Standard: `ilt_s`.
pub fn i32_lt_s(a: u32, b: u32) -> u32
    ensures { result ≡ compare 32 compare_op.LtS a b }
{
    u32::from(a.cast_signed() < b.cast_signed())
}

/// 1 if the first is less, and else 0. Standard: `ilt_u`.
pub fn i32_lt_u(a: u32, b: u32) -> u32
    ensures { result ≡ compare 32 compare_op.LtU a b }
{
    u32::from(a < b)
}

/// 1 if the first is greater, as signed numbers, and else 0. Standard: `igt_s`.
pub fn i32_gt_s(a: u32, b: u32) -> u32
    ensures { result ≡ compare 32 compare_op.GtS a b }
{
    u32::from(a.cast_signed() > b.cast_signed())
}

/// 1 if the first is greater, and else 0. Standard: `igt_u`.
pub fn i32_gt_u(a: u32, b: u32) -> u32
    ensures { result ≡ compare 32 compare_op.GtU a b }
{
    u32::from(a > b)
}

/// 1 if the first is less or equal, as signed numbers, and else 0. Standard: `ile_s`.
pub fn i32_le_s(a: u32, b: u32) -> u32
    ensures { result ≡ compare 32 compare_op.LeS a b }
{
    u32::from(a.cast_signed() <= b.cast_signed())
}

/// 1 if the first is less or equal, and else 0. Standard: `ile_u`.
pub fn i32_le_u(a: u32, b: u32) -> u32
    ensures { result ≡ compare 32 compare_op.LeU a b }
{
    u32::from(a <= b)
}

/// 1 if the first is greater or equal, as signed numbers, and else 0. Standard: `ige_s`.
pub fn i32_ge_s(a: u32, b: u32) -> u32
    ensures { result ≡ compare 32 compare_op.GeS a b }
{
    u32::from(a.cast_signed() >= b.cast_signed())
}

/// 1 if the first is greater or equal, and else 0. Standard: `ige_u`.
pub fn i32_ge_u(a: u32, b: u32) -> u32
    ensures { result ≡ compare 32 compare_op.GeU a b }
{
    u32::from(a >= b)
}
