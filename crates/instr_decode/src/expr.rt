//! Expressions, read in one loop over their tokens.

ghost use Rattle.std.specs.Prelude.{IsErrOf};
ghost use Rattle.wasm_types.specs.Tree.{expr_tree};
ghost use Rattle.wasm_spec.specs.InstrGrammar.{TakesExpr};
ghost use Rattle.leb_read.specs.Reading.{rest};
ghost use Rattle.instr_decode.specs.Decoding.{ReadsAs};
ghost use Rattle.instr_decode.specs.Wants.{WantsExpr};

use crate::expr_builder::ExprBuilder;
use crate::fault::DecodeFault;
use crate::token::{Token, read_token};
use leb_read::Cursor;
use std::alloc::Global;
use wasm_types::Expr;
use wasm_values::Profile;

/// The expression of a profile at the cursor: instructions up to their end, just after which the cursor then stands. Source: Core
/// Specification 1.0, section 5.4.6.
///
/// # Errors
///
/// `Malformed` only where no expression stands there; `NoMemory` only where a first instruction stands there, or its first label.
pub fn decode_expr(
    alloc: Global,
    profile: Profile,
    cursor: &mut Cursor,
) -> Result<Expr, DecodeFault>
    ensures read { ReadsAs (TakesExpr profile) expr_tree cursor.old cursor.new result }
    ensures wanted { IsErrOf result DecodeFault.NoMemory → WantsExpr profile (rest cursor.old) }
{
    let mut builder = ExprBuilder::new(alloc);
    loop {
        match read_token(alloc, profile, cursor)? {
            Token::Leaf(op) => builder.push(op)?,
            Token::Open(block, block_type) => builder.open(alloc, block, block_type)?,
            Token::Else => {
                if !builder.begin_else(alloc)? {
                    return Err(DecodeFault::Malformed);
                }
            }
            Token::End => {
                if builder.end(alloc)? {
                    return Ok(builder.into_expr());
                }
            }
        }
    }
}
