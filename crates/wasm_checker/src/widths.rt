//! The types and widths of integers.

ghost use Rattle.std.specs.Prelude.{◌≡◌, ℕ, ◌≤◌, ◌^◌, Option, nat_le};
ghost use Rattle.wasm_types.specs.SameTypes as same_types;
ghost use Rattle.wasm_spec.specs.Typing as typing;
ghost use Rattle.std.specs.Int.{byte_len};
ghost use Rattle.wasm_spec.specs.Operators.{int_width, pack_width};
ghost use Rattle.wasm_spec.specs.Typing.{result_types};

use crate::checker::agrees;
use wasm_types::{PackSize, ValType, Width};
use wasm_values::Val;

/// The type of an integer of this width.
pub(crate) fn integer_type(width: Width) -> ValType
    ensures { result ≡ typing.integer_type width }
{
    match width {
        Width::W32 => ValType::I32,
        Width::W64 => ValType::I64,
    }
}

/// The type of a value.
pub fn type_of(value: Val) -> ValType
    ensures { result ≡ typing.type_of value }
{
    match value {
        Val::I32(_) => ValType::I32,
        Val::I64(_) => ValType::I64,
    }
}

/// How many bytes an integer of this width has.
pub(crate) fn byte_width(width: Width) -> u32
    ensures value { result ≡ byte_len (int_width width) }
    ensures bound { result ≤ 8 }
{
    match width {
        Width::W32 => 4,
        Width::W64 => 8,
    }
}

/// How many bytes a narrow access moves.
pub(crate) fn packed_width(size: PackSize) -> u32
    ensures value { result ≡ byte_len (pack_width size) }
    ensures bound { result ≤ 8 }
{
    match size {
        PackSize::Pack8 => 1,
        PackSize::Pack16 => 2,
        PackSize::Pack32 => 4,
    }
}

/// Whether 2 to the power of an alignment's exponent is at most an access width.
pub(crate) fn is_aligned(align: u32, bytes: u32) -> bool
    requires { bytes ≤ 8 }
    ensures { result ≡ nat_le (2 ^ align) bytes }
{
    if align < 4 {
        1u32 << align <= bytes
    } else {
        false
    }
}

/// Whether two labels need the same.
pub(crate) fn same_results(t: Option<ValType>, u: Option<ValType>) -> bool
    ensures { result ≡ same_types.all_same (result_types t) (result_types u) }
{
    match (t, u) {
        (None, None) => true,
        (Some(t), Some(u)) => agrees(t, Some(u)),
        _ => false,
    }
}
