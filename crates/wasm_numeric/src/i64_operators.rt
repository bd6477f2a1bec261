//! The operators on integers of 64 bits.
//!
//! An `i64` of the standard is a `u64`; a signed operator reads it as a number in two's complement.
//! Source: WebAssembly Core Specification 1.0, section 4.3.2.

ghost use Rattle.std.specs.Prelude.{◌≡◌, bit_and, bit_or, bit_xor};
ghost use Rattle.wasm_types.specs.declared.instr.CompareOp.TheVariants as compare_op;
ghost use Rattle.wasm_spec.specs.Operators.{compare, div_s, eqz, rem_s, rotl, rotr, shl, shr_s, shr_u};
ghost use Rattle.wasm_numeric.specs.Operators.{add, clz, ctz, div_u, mul, popcnt, rem_u, sub};

use wasm_values::TrapKind;

/// How many of the digits at the upper end are 0: all of them where the number is 0. Standard: `iclz`.
#[tactic(auto, using(crate::proofs::StdOperators::clz_in_std))]
pub fn i64_clz(a: u64) -> u64
    ensures { result ≡ clz 64 a }
{
    u64::from(a.leading_zeros())
}

/// How many of the digits at the lower end are 0: all of them where the number is 0. Standard: `ictz`.
#[tactic(auto, using(crate::proofs::StdOperators::ctz_in_std))]
pub fn i64_ctz(a: u64) -> u64
    ensures { result ≡ ctz 64 a }
{
    u64::from(a.trailing_zeros())
}

/// How many of the digits are 1. Standard: `ipopcnt`.
#[tactic(auto, using(crate::proofs::StdOperators::popcnt_in_std))]
pub fn i64_popcnt(a: u64) -> u64
    ensures { result ≡ popcnt 64 a }
{
    u64::from(a.count_ones())
}

/// The sum modulo 2^64. Standard: `iadd`.
pub fn i64_add(a: u64, b: u64) -> u64
    ensures { result ≡ add 64 a b }
{
    a.wrapping_add(b)
}

/// The difference modulo 2^64. Standard: `isub`.
pub fn i64_sub(a: u64, b: u64) -> u64
    ensures { result ≡ sub 64 a b }
{
    a.wrapping_sub(b)
}

/// The product modulo 2^64. Standard: `imul`.
pub fn i64_mul(a: u64, b: u64) -> u64
    ensures { result ≡ mul 64 a b }
{
    a.wrapping_mul(b)
}

/// The quotient of the signed values, towards zero. Standard: `idiv_s`.
///
/// `Divide` for the divisor 0, `Overflow` for the least signed number by -1.
pub fn i64_div_s(a: u64, b: u64) -> Result<u64, TrapKind>
    ensures { result ≡ div_s 64 a b }
{
    if b == 0 {
        return Err(TrapKind::Divide);
    }
    match a.cast_signed().checked_div(b.cast_signed()) {
        Some(quotient) => Ok(quotient.cast_unsigned()),
        None => Err(TrapKind::Overflow),
    }
}

/// The quotient, towards zero. Standard: `idiv_u`.
///
/// `Divide` for the divisor 0.
pub fn i64_div_u(a: u64, b: u64) -> Result<u64, TrapKind>
    ensures { result ≡ div_u a b }
{
    if b == 0 {
        Err(TrapKind::Divide)
    } else {
        Ok(a / b)
    }
}

/// What the signed quotient leaves, with the dividend's sign: 0 for the least signed number by -1.
/// Standard: `irem_s`.
///
/// `Divide` for the divisor 0.
pub fn i64_rem_s(a: u64, b: u64) -> Result<u64, TrapKind>
    ensures { result ≡ rem_s 64 a b }
{
    if b == 0 {
        return Err(TrapKind::Divide);
    }
    match a.cast_signed().checked_rem(b.cast_signed()) {
        Some(remainder) => Ok(remainder.cast_unsigned()),
        None => Ok(0),
    }
}

/// The remainder. Standard: `irem_u`.
///
/// `Divide` for the divisor 0.
pub fn i64_rem_u(a: u64, b: u64) -> Result<u64, TrapKind>
    ensures { result ≡ rem_u a b }
{
    if b == 0 {
        Err(TrapKind::Divide)
    } else {
        Ok(a % b)
    }
}

/// Digit by digit, 1 where both are. Standard: `iand`.
pub fn i64_and(a: u64, b: u64) -> u64
    ensures { result ≡ bit_and a b }
{
    a & b
}

/// Digit by digit, 1 where one of them is or both are. Standard: `ior`.
pub fn i64_or(a: u64, b: u64) -> u64
    ensures { result ≡ bit_or a b }
{
    a | b
}

/// Digit by digit, 1 where just one of them is. Standard: `ixor`.
pub fn i64_xor(a: u64, b: u64) -> u64
    ensures { result ≡ bit_xor a b }
{
    a ^ b
}

/// The digits moved up by the count modulo 64; zeros come in. Standard: `ishl`.
pub fn i64_shl(a: u64, b: u64) -> u64
    ensures { result ≡ shl 64 a b }
{
    a << ((b % 64) as u32)
}

/// The digits moved down by the count modulo 64; copies of the sign come in. Standard: `ishr_s`.
pub fn i64_shr_s(a: u64, b: u64) -> u64
    ensures { result ≡ shr_s 64 a b }
{
    (a.cast_signed() >> ((b % 64) as u32)).cast_unsigned()
}

/// The digits moved down by the count modulo 64; zeros come in. Standard: `ishr_u`.
pub fn i64_shr_u(a: u64, b: u64) -> u64
    ensures { result ≡ shr_u 64 a b }
{
    a >> ((b % 64) as u32)
}

/// The digits moved up; those that leave at the upper end come in at the lower. Standard: `irotl`.
pub fn i64_rotl(a: u64, b: u64) -> u64
    ensures { result ≡ rotl 64 a b }
{
    a.rotate_left((b % 64) as u32)
}

/// The digits moved down; those that leave at the lower end come in at the upper. Standard: `irotr`.
pub fn i64_rotr(a: u64, b: u64) -> u64
    ensures { result ≡ rotr 64 a b }
{
    a.rotate_right((b % 64) as u32)
}

/// 1 if the number is 0, and else 0. Standard: `ieqz`.
pub fn i64_eqz(a: u64) -> u32
    ensures { result ≡ eqz a }
{
    u32::from(a == 0)
}

/// 1 if the numbers are equal, and else 0. Standard: `ieq`.
pub fn i64_eq(a: u64, b: u64) -> u32
    ensures { result ≡ compare 64 compare_op.Eq a b }
{
    u32::from(a == b)
}

/// 1 if the numbers differ, and else 0. Standard: `ine`.
pub fn i64_ne(a: u64, b: u64) -> u32
    ensures { result ≡ compare 64 compare_op.Ne a b }
{
    u32::from(a != b)
}

/// 1 if the first is less, as signed numbers, and else 0. Standard: `ilt_s`.
pub fn i64_lt_s(a: u64, b: u64) -> u32
    ensures { result ≡ compare 64 compare_op.LtS a b }
{
    u32::from(a.cast_signed() < b.cast_signed())
}

/// 1 if the first is less, and else 0. Standard: `ilt_u`.
pub fn i64_lt_u(a: u64, b: u64) -> u32
    ensures { result ≡ compare 64 compare_op.LtU a b }
{
    u32::from(a < b)
}

/// 1 if the first is greater, as signed numbers, and else 0. Standard: `igt_s`.
pub fn i64_gt_s(a: u64, b: u64) -> u32
    ensures { result ≡ compare 64 compare_op.GtS a b }
{
    u32::from(a.cast_signed() > b.cast_signed())
}

/// 1 if the first is greater, and else 0. Standard: `igt_u`.
pub fn i64_gt_u(a: u64, b: u64) -> u32
    ensures { result ≡ compare 64 compare_op.GtU a b }
{
    u32::from(a > b)
}

/// 1 if the first is less or equal, as signed numbers, and else 0. Standard: `ile_s`.
pub fn i64_le_s(a: u64, b: u64) -> u32
    ensures { result ≡ compare 64 compare_op.LeS a b }
{
    u32::from(a.cast_signed() <= b.cast_signed())
}

/// 1 if the first is less or equal, and else 0. Standard: `ile_u`.
pub fn i64_le_u(a: u64, b: u64) -> u32
    ensures { result ≡ compare 64 compare_op.LeU a b }
{
    u32::from(a <= b)
}

/// 1 if the first is greater or equal, as signed numbers, and else 0. Standard: `ige_s`.
pub fn i64_ge_s(a: u64, b: u64) -> u32
    ensures { result ≡ compare 64 compare_op.GeS a b }
{
    u32::from(a.cast_signed() >= b.cast_signed())
}

/// 1 if the first is greater or equal, and else 0. Standard: `ige_u`.
pub fn i64_ge_u(a: u64, b: u64) -> u32
    ensures { result ≡ compare 64 compare_op.GeU a b }
{
    u32::from(a >= b)
}
