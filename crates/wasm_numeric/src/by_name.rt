//! The operators by name, as an instruction gives it.
//!
//! Source: WebAssembly Core Specification 1.0, section 4.3.2.

ghost use Rattle.std.specs.Prelude.{◌≡◌};
ghost use Rattle.wasm_spec.specs.Operators.{binary, compare, unary};

use crate::conversions::{
    i32_extend8_s, i32_extend16_s, i64_extend8_s, i64_extend16_s, i64_extend32_s,
};
use crate::i32_operators::{
    i32_add, i32_and, i32_clz, i32_ctz, i32_div_s, i32_div_u, i32_eq, i32_ge_s, i32_ge_u, i32_gt_s,
    i32_gt_u, i32_le_s, i32_le_u, i32_lt_s, i32_lt_u, i32_mul, i32_ne, i32_or, i32_popcnt,
    i32_rem_s, i32_rem_u, i32_rotl, i32_rotr, i32_shl, i32_shr_s, i32_shr_u, i32_sub, i32_xor,
};
use crate::i64_operators::{
    i64_add, i64_and, i64_clz, i64_ctz, i64_div_s, i64_div_u, i64_eq, i64_ge_s, i64_ge_u, i64_gt_s,
    i64_gt_u, i64_le_s, i64_le_u, i64_lt_s, i64_lt_u, i64_mul, i64_ne, i64_or, i64_popcnt,
    i64_rem_s, i64_rem_u, i64_rotl, i64_rotr, i64_shl, i64_shr_s, i64_shr_u, i64_sub, i64_xor,
};
use wasm_types::{BinaryOp, CompareOp, PackSize, UnaryOp};
use wasm_values::TrapKind;

/// The value of an operator of one operand of 32 bits.
pub fn unary32(op: UnaryOp, a: u32) -> u32
    ensures { result ≡ unary 32 op a }
{
    match op {
        UnaryOp::Clz => i32_clz(a),
        UnaryOp::Ctz => i32_ctz(a),
        UnaryOp::Popcnt => i32_popcnt(a),
        UnaryOp::ExtendS(PackSize::Pack8) => i32_extend8_s(a),
        UnaryOp::ExtendS(PackSize::Pack16) => i32_extend16_s(a),
        UnaryOp::ExtendS(PackSize::Pack32) => a,
    }
}

/// The value of an operator of two operands of 32 bits, or why it traps.
pub fn binary32(op: BinaryOp, a: u32, b: u32) -> Result<u32, TrapKind>
    ensures { result ≡ binary 32 op a b }
{
    match op {
        BinaryOp::Add => Ok(i32_add(a, b)),
        BinaryOp::Sub => Ok(i32_sub(a, b)),
        BinaryOp::Mul => Ok(i32_mul(a, b)),
        BinaryOp::DivS => i32_div_s(a, b),
        BinaryOp::DivU => i32_div_u(a, b),
        BinaryOp::RemS => i32_rem_s(a, b),
        BinaryOp::RemU => i32_rem_u(a, b),
        BinaryOp::And => Ok(i32_and(a, b)),
        BinaryOp::Or => Ok(i32_or(a, b)),
        BinaryOp::Xor => Ok(i32_xor(a, b)),
        BinaryOp::Shl => Ok(i32_shl(a, b)),
        BinaryOp::ShrS => Ok(i32_shr_s(a, b)),
        BinaryOp::ShrU => Ok(i32_shr_u(a, b)),
        BinaryOp::Rotl => Ok(i32_rotl(a, b)),
        BinaryOp::Rotr => Ok(i32_rotr(a, b)),
    }
}

/// The value of a comparison of two numbers of 32 bits: 1 if it holds, and else 0.
pub fn compare32(op: CompareOp, a: u32, b: u32) -> u32
    ensures { result ≡ compare 32 op a b }
{
    match op {
        CompareOp::Eq => i32_eq(a, b),
        CompareOp::Ne => i32_ne(a, b),
        CompareOp::LtS => i32_lt_s(a, b),
        CompareOp::LtU => i32_lt_u(a, b),
        CompareOp::GtS => i32_gt_s(a, b),
        CompareOp::GtU => i32_gt_u(a, b),
        CompareOp::LeS => i32_le_s(a, b),
        CompareOp::LeU => i32_le_u(a, b),
        CompareOp::GeS => i32_ge_s(a, b),
        CompareOp::GeU => i32_ge_u(a, b),
    }
}

/// The value of an operator of one operand of 64 bits.
pub fn unary64(op: UnaryOp, a: u64) -> u64
    ensures { result ≡ unary 64 op a }
{
    match op {
        UnaryOp::Clz => i64_clz(a),
        UnaryOp::Ctz => i64_ctz(a),
        UnaryOp::Popcnt => i64_popcnt(a),
        UnaryOp::ExtendS(PackSize::Pack8) => i64_extend8_s(a),
        UnaryOp::ExtendS(PackSize::Pack16) => i64_extend16_s(a),
        UnaryOp::ExtendS(PackSize::Pack32) => i64_extend32_s(a),
    }
}

/// The value of an operator of two operands of 64 bits, or why it traps.
pub fn binary64(op: BinaryOp, a: u64, b: u64) -> Result<u64, TrapKind>
    ensures { result ≡ binary 64 op a b }
{
    match op {
        BinaryOp::Add => Ok(i64_add(a, b)),
        BinaryOp::Sub => Ok(i64_sub(a, b)),
        BinaryOp::Mul => Ok(i64_mul(a, b)),
        BinaryOp::DivS => i64_div_s(a, b),
        BinaryOp::DivU => i64_div_u(a, b),
        BinaryOp::RemS => i64_rem_s(a, b),
        BinaryOp::RemU => i64_rem_u(a, b),
        BinaryOp::And => Ok(i64_and(a, b)),
        BinaryOp::Or => Ok(i64_or(a, b)),
        BinaryOp::Xor => Ok(i64_xor(a, b)),
        BinaryOp::Shl => Ok(i64_shl(a, b)),
        BinaryOp::ShrS => Ok(i64_shr_s(a, b)),
        BinaryOp::ShrU => Ok(i64_shr_u(a, b)),
        BinaryOp::Rotl => Ok(i64_rotl(a, b)),
        BinaryOp::Rotr => Ok(i64_rotr(a, b)),
    }
}

/// The value of a comparison of two numbers of 64 bits: 1 if it holds, and else 0.
pub fn compare64(op: CompareOp, a: u64, b: u64) -> u32
    ensures { result ≡ compare 64 op a b }
{
    match op {
        CompareOp::Eq => i64_eq(a, b),
        CompareOp::Ne => i64_ne(a, b),
        CompareOp::LtS => i64_lt_s(a, b),
        CompareOp::LtU => i64_lt_u(a, b),
        CompareOp::GtS => i64_gt_s(a, b),
        CompareOp::GtU => i64_gt_u(a, b),
        CompareOp::LeS => i64_le_s(a, b),
        CompareOp::LeU => i64_le_u(a, b),
        CompareOp::GeS => i64_ge_s(a, b),
        CompareOp::GeU => i64_ge_u(a, b),
    }
}
