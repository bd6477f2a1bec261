//! Constant expressions: initialisers of globals, and offsets of segments.

ghost use Rattle.std.specs.Prelude.{◌≡◌, ℕ, Option, option_copied};
ghost use Rattle.wasm_types.specs.Tree.{expr_tree, global_tree, module_tree};
ghost use Rattle.wasm_types.specs.declared.instr.Width.TheVariants.{W32};
ghost use Rattle.wasm_spec.specs.Typing.{number};
ghost use Rattle.wasm_spec.specs.Validity as validity;

use wasm_types::{Expr, Global, Instr, Module, Op, op_at};
use wasm_values::Val;

// The one instruction of an expression.
fn single_instruction(e: &Expr) -> Option<&Instr>
    ensures { option_copied result ≡ validity.single_instruction (expr_tree e.now) }
{
    let outermost = e.sequences.len().saturating_sub(1);
    match (op_at(e, outermost, 0), op_at(e, outermost, 1)) {
        (Some(Op::Plain(i)), None) => Some(i),
        _ => None,
    }
}

// The value of a constant.
fn constant(i: &Instr) -> Option<Val>
    ensures { result ≡ validity.constant i.now }
{
    match i {
        Instr::Const(v) => Some(*v),
        _ => None,
    }
}

fn i32_value(v: Val) -> Option<u32>
    ensures { result ≡ number W32 v }
{
    match v {
        Val::I32(n) => Some(n),
        Val::I64(_) => None,
    }
}

/// The value of a global's initialiser, where it is one constant.
///
/// Source: Core Specification 1.0, section 3.3.7.2.
pub fn initial_value(g: &Global) -> Option<Val>
    ensures { result ≡ validity.initial_value (global_tree g.now) }
{
    constant(single_instruction(&g.init)?)
}

// The value of an immutable global of type i32.
fn constant_global(g: &Global) -> Option<u32>
    ensures { result ≡ validity.constant_global (global_tree g.now) }
{
    if g.global_type.mutable {
        None
    } else {
        i32_value(initial_value(g)?)
    }
}

// The value of a segment's offset that is this instruction.
fn offset_of(m: &Module, i: &Instr) -> Option<u32>
    ensures { result ≡ validity.constant_offset (module_tree m.now) i.now }
{
    match i {
        Instr::Const(v) => i32_value(*v),
        Instr::GlobalGet(x) => constant_global(m.globals.as_slice().get(*x as usize)?),
        _ => None,
    }
}

/// The value of a segment's offset, where it is an i32 constant or an immutable i32 global of the module.
///
/// Source: Core Specification 1.0, section 3.3.7.2.
pub fn offset_value(m: &Module, e: &Expr) -> Option<u32>
    ensures { result ≡ validity.offset_value (module_tree m.now) (expr_tree e.now) }
{
    offset_of(m, single_instruction(e)?)
}
