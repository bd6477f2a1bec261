//! The tokens that code is made of.

ghost use Rattle.std.specs.Prelude.{◌<◌, IfOk, IsErrOf};
ghost use Rattle.leb_read.specs.Reading.{rest};
ghost use Rattle.instr_decode.specs.Decoding.{Reads};
ghost use Rattle.instr_decode.specs.Wants.{WantsToken};
ghost use Rattle.instr_decode.specs.Tokens.{TakesToken, TakesIndexAndZero};

use crate::fault::DecodeFault;
use crate::instr::read_instr;
use crate::types::read_block_type;
use leb_read::Cursor;
use std::alloc::Global;
use wasm_types::{Op, ValType};
use wasm_values::Profile;

// What opens a sequence inside another.
#[derive(Clone, Copy)]
pub(crate) enum BlockKind {
    Block,
    Loop,
    If,
}

// A token of code. A leaf is a plain instruction or a call.
#[derive(Drop)]
pub(crate) enum Token {
    Leaf(Op),
    Open(BlockKind, Option<ValType>),
    Else,
    End,
}

// The operands of a `call_indirect`, a type and a zero byte.
fn call_indirect(cursor: &mut Cursor) -> Result<u32, DecodeFault>
    ensures read { Reads TakesIndexAndZero cursor.old cursor.new result }
    ensures wanted { IsErrOf result DecodeFault.NoMemory → ⊥ }
{
    let index = cursor.u32()?;
    if cursor.u8()? == 0 {
        Ok(index)
    } else {
        Err(DecodeFault::Malformed)
    }
}

// The token at the cursor. Source: Core Specification 1.0, section 5.4.
pub(crate) fn read_token(
    alloc: Global,
    profile: Profile,
    cursor: &mut Cursor,
) -> Result<Token, DecodeFault>
    ensures token { Reads (TakesToken profile) cursor.old cursor.new result }
    ensures forth { IfOk result (λ _. cursor.old.place < cursor.new.place) }
    ensures wanted { IsErrOf result DecodeFault.NoMemory → WantsToken profile (rest cursor.old) }
{
    let opcode = cursor.u8()?;
    match opcode {
        0x02 => {
            let block_type = read_block_type(cursor)?;
            Ok(Token::Open(BlockKind::Block, block_type))
        }
        0x03 => {
            let block_type = read_block_type(cursor)?;
            Ok(Token::Open(BlockKind::Loop, block_type))
        }
        0x04 => {
            let block_type = read_block_type(cursor)?;
            Ok(Token::Open(BlockKind::If, block_type))
        }
        0x05 => Ok(Token::Else),
        0x0B => Ok(Token::End),
        0x10 => {
            let index = cursor.u32()?;
            Ok(Token::Leaf(Op::Call(index)))
        }
        0x11 => {
            let index = call_indirect(cursor)?;
            Ok(Token::Leaf(Op::CallIndirect(index)))
        }
        _ => {
            let instr = read_instr(alloc, profile, cursor, opcode)?;
            Ok(Token::Leaf(Op::Plain(instr)))
        }
    }
}
