//! Functions: their locals and their code.

ghost use Rattle.std.specs.Prelude.{◌≡◌, ◌↔◌, ◌<◌, ◌^◌, IsTrue, IfOk, OnErr, flat_map, length, map};
ghost use Rattle.wasm_types.specs.declared.module.LocalRun.{LocalRun as LocalRunTree};
ghost use Rattle.wasm_types.specs.Tree.{Code, FunctionTree, expr_tree, locals_of, function_tree};
ghost use Rattle.wasm_spec.specs.Grammar.{Body as BodyTree, TakesLocalRun, TakesBody, TakesSizedBody, body_of};
ghost use Rattle.wasm_spec.specs.InstrGrammar.{TakesExpr};
ghost use Rattle.wasm_spec.proofs.UnambiguousInstrs.{expr-unique};
ghost use Rattle.wasm_spec.proofs.UnambiguousModules.{local_run-unique, body-unique, sized_body-unique};
ghost use Rattle.instr_decode.specs.Wants.{WantsExpr};
ghost use Rattle.wasm_decode.specs.Bodies.{body_tree, WantsSized};

use crate::item::{Item, decode_whole, read_bytes};
use instr_decode::{DecodeFault, decode_expr};
use leb_read::Cursor;
use std::alloc::{AllocError, Global};
use wasm_types::{Expr, Function, LocalRun, ValType};
use wasm_values::{Items, Profile};

// Source: Core Specification 1.0, section 5.5.13.
impl Item for LocalRun {
    ghost Tree = { LocalRunTree };

    ghost tree = { λ run. run };

    ghost Takes = { λ _. TakesLocalRun };

    ghost Wants = { λ _ _. ⊥ };

    ghost unique = { λ _. local_run-unique };

    fn decode(alloc: Global, profile: Profile, cursor: &mut Cursor) -> Result<Self, DecodeFault> {
        let (count, value) = <(u32, ValType)>::decode(alloc, profile, cursor)?;
        Ok(LocalRun { count, value })
    }
}

// Source: section 5.4.6.
impl Item for Expr {
    ghost Tree = { Code };

    ghost tree = { λ e. expr_tree e };

    ghost Takes = { TakesExpr };

    ghost Wants = { WantsExpr };

    ghost unique = { expr-unique };

    fn decode(alloc: Global, profile: Profile, cursor: &mut Cursor) -> Result<Self, DecodeFault> {
        decode_expr(alloc, profile, cursor)
    }
}

// A function's locals and its code.
#[derive(Drop)]
pub(crate) struct Body {
    pub(crate) locals: Items<LocalRun>,
    pub(crate) code: Expr,
}

// Whether there are fewer than 2^32 locals.
fn are_few(runs: &[LocalRun]) -> bool
    ensures { IsTrue result ↔ (length (flat_map locals_of runs.now) < 2 ^ 32) }
{
    let mut total: u64 = 0;
    for run in runs {
        total += u64::from(run.count);
        if total >= 1 << 32 {
            return false;
        }
    }
    true
}

// Source: section 5.5.13.
impl Item for Body {
    ghost Tree = { BodyTree };

    ghost tree = { body_tree };

    ghost Takes = { TakesBody };

    ghost Wants = { ⟦<(Items<LocalRun>, Expr) as Item>⟧.Wants };

    ghost unique = { body-unique };

    fn decode(alloc: Global, profile: Profile, cursor: &mut Cursor) -> Result<Self, DecodeFault> {
        let (locals, code) = <(Items<LocalRun>, Expr)>::decode(alloc, profile, cursor)?;
        if are_few(locals.as_slice()) {
            Ok(Body { locals, code })
        } else {
            Err(DecodeFault::Malformed)
        }
    }
}

// A body behind its size.
#[derive(Drop)]
pub(crate) struct SizedBody {
    pub(crate) body: Body,
}

impl Item for SizedBody {
    ghost Tree = { BodyTree };

    ghost tree = { λ sized. body_tree sized.body };

    ghost Takes = { TakesSizedBody };

    ghost Wants = { λ p. WantsSized (⟦<Body as Item>⟧.Wants p) };

    ghost unique = { sized_body-unique };

    fn decode(alloc: Global, profile: Profile, cursor: &mut Cursor) -> Result<Self, DecodeFault> {
        let contents = read_bytes(cursor)?;
        let body = decode_whole(alloc, profile, contents)?;
        Ok(SizedBody { body })
    }
}

// The functions of these types and bodies.
pub(crate) fn join(
    alloc: Global,
    type_indices: &[u32],
    bodies: Vec<SizedBody>,
) -> Result<Vec<Function>, AllocError>
    requires { length type_indices.now ≡ length bodies.items }
    ensures types { IfOk result (λ fs. map (λ (f : FunctionTree). f.type_index) (map function_tree fs.items) ≡ type_indices.now) }
    ensures bodies { IfOk result (λ fs. map body_of (map function_tree fs.items) ≡ map (λ s. body_tree s.body) bodies.items) }
    ensures wanted { OnErr result (0 < length bodies.items) }
{
    let mut functions = Vec::new(alloc);
    for (type_index, sized) in type_indices.iter().zip(bodies) {
        functions.push(Function {
            type_index: *type_index,
            locals: sized.body.locals,
            body: sized.body.code,
        })?;
    }
    Ok(functions)
}
