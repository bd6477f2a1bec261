//! The types that stand in code.

ghost use Rattle.std.specs.Prelude.{◌≡◌, IsErrOf, MatchOption};
ghost use Rattle.wasm_types.specs.declared.types.ValType.{ValType as ValTypeTree};
ghost use Rattle.wasm_spec.specs.TypeGrammar.{value_type_byte, TakesBlockType};
ghost use Rattle.instr_decode.specs.Decoding.{Reads};

use crate::fault::DecodeFault;
use leb_read::Cursor;
use wasm_types::ValType;

/// The value type of a byte, if there is one. Source: Core Specification 1.0, section 5.3.1.
pub fn value_type(byte: u8) -> Option<ValType>
    ensures { MatchOption result ((t : ValTypeTree) → value_type_byte t ≡ byte → ⊥) (λ t. value_type_byte t ≡ byte) }
{
    match byte {
        0x7F => Some(ValType::I32),
        0x7E => Some(ValType::I64),
        0x7D => Some(ValType::F32),
        0x7C => Some(ValType::F64),
        _ => None,
    }
}

// The type of a block. Source: section 5.3.2.
pub(crate) fn read_block_type(cursor: &mut Cursor) -> Result<Option<ValType>, DecodeFault>
    ensures read { Reads TakesBlockType cursor.old cursor.new result }
    ensures wanted { IsErrOf result DecodeFault.NoMemory → ⊥ }
{
    let byte = cursor.u8()?;
    if byte == 0x40 {
        return Ok(None);
    }
    match value_type(byte) {
        Some(value) => Ok(Some(value)),
        None => Err(DecodeFault::Malformed),
    }
}
