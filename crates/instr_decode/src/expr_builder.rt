//! An expression as its instructions come: sequences inside each other, numbered when they end.

ghost use Rattle.std.specs.Prelude.{◌≡◌, [], ◌∷◌, ◌++◌, length, IfOk};
ghost use Rattle.wasm_types.specs.Tree.{expr_tree};
ghost use Rattle.instr_decode.specs.Tokens.{IsLeaf};
ghost use Rattle.instr_decode.specs.Contexts.{ExprContext, RepresentsContext, Steps, pushed, opened, BeginsElse, Ends};

use crate::token::BlockKind;
use std::alloc::{AllocError, Global};
use std::mem;
use wasm_types::{Expr, Op, ValType};
use wasm_values::Items;

// What the sequence inside a frame is: a block's or a loop's body, the first arm of an `if`, or its second one, with
// the number of the first.
#[derive(Clone, Copy)]
pub(crate) enum FrameKind {
    Block,
    Loop,
    If,
    Else(usize),
}

// A control frame: an open sequence that an inner one interrupts, as far as it has been read, and what the inner one is.
#[derive(Drop)]
pub(crate) struct Frame {
    pub(crate) ops: Vec<Op>,
    pub(crate) kind: FrameKind,
    pub(crate) block_type: Option<ValType>,
}

// The sequences that have ended, by number; the control stack, the innermost frame last; and the instructions of the
// innermost sequence.
#[derive(Drop)]
pub(crate) struct ExprBuilder {
    pub(crate) sequences: Vec<Items<Op>>,
    pub(crate) frames: Vec<Frame>,
    pub(crate) ops: Vec<Op>,
}

impl ExprBuilder {
    // No instruction yet, of the outermost sequence.
    pub(crate) fn new(alloc: Global) -> Self
        ensures { RepresentsContext result (record { inner = λ c. c; enclosing = [] }) }
    {
        ExprBuilder {
            sequences: Vec::new(alloc),
            frames: Vec::new(alloc),
            ops: Vec::new(alloc),
        }
    }

    // Adds an instruction without inner code.
    pub(crate) fn push(&mut self, op: Op) -> Result<(), AllocError>
        requires { IsLeaf op }
        ensures { IfOk result (λ _. Steps self.old self.new (pushed op)) }
    {
        self.ops.push(op)?;
        Ok(())
    }

    // Opens the body of a block or a loop, or the first arm of an `if`.
    pub(crate) fn open(
        &mut self,
        alloc: Global,
        block: BlockKind,
        block_type: Option<ValType>,
    ) -> Result<(), AllocError>
        ensures { IfOk result (λ _. Steps self.old self.new (opened block block_type)) }
    {
        let kind = match block {
            BlockKind::Block => FrameKind::Block,
            BlockKind::Loop => FrameKind::Loop,
            BlockKind::If => FrameKind::If,
        };
        let ops = mem::replace(&mut self.ops, Vec::new(alloc));
        self.frames.push(Frame {
            ops,
            kind,
            block_type,
        })?;
        Ok(())
    }

    // Numbers the innermost sequence, and begins another in its place.
    fn finish_sequence(&mut self, alloc: Global) -> Result<usize, AllocError>
        ensures number { IfOk result (λ n. n ≡ length self.old.sequences.items) }
        ensures sequences { IfOk result (λ _. self.new.sequences.items ≡ self.old.sequences.items ++ self.old.ops.items ∷ []) }
        ensures ops { IfOk result (λ _. self.new.ops.items ≡ []) }
        ensures frames { IfOk result (λ _. self.new.frames.items ≡ self.old.frames.items) }
    {
        let number = self.sequences.len();
        let ops = mem::replace(&mut self.ops, Vec::new(alloc));
        self.sequences.push(Items::new(ops))?;
        Ok(number)
    }

    // Goes on with an outer sequence behind an instruction.
    fn resume(&mut self, ops: Vec<Op>, op: Op) -> Result<(), AllocError>
        ensures sequences { IfOk result (λ _. self.new.sequences.items ≡ self.old.sequences.items) }
        ensures ops { IfOk result (λ _. self.new.ops.items ≡ ops.items ++ op ∷ []) }
        ensures frames { IfOk result (λ _. self.new.frames.items ≡ self.old.frames.items) }
    {
        self.ops = ops;
        self.ops.push(op)?;
        Ok(())
    }

    // Ends the first arm of an `if` and begins the second, if the first is the innermost sequence; says whether it is.
    pub(crate) fn begin_else(&mut self, alloc: Global) -> Result<bool, AllocError>
        ensures { IfOk result (λ begun. (s : ExprContext) → RepresentsContext self.old s → BeginsElse s begun self.new) }
    {
        let first = self.finish_sequence(alloc)?;
        let Some(frame) = self.frames.pop() else {
            return Ok(false);
        };
        let FrameKind::If = frame.kind else {
            return Ok(false);
        };
        self.frames.push(Frame {
            ops: frame.ops,
            kind: FrameKind::Else(first),
            block_type: frame.block_type,
        })?;
        Ok(true)
    }

    // Ends the innermost sequence, and says whether that was the outermost one.
    pub(crate) fn end(&mut self, alloc: Global) -> Result<bool, AllocError>
        ensures { IfOk result (λ ended. (s : ExprContext) → RepresentsContext self.old s → Ends s ended self.new) }
    {
        let last = self.finish_sequence(alloc)?;
        let Some(frame) = self.frames.pop() else {
            return Ok(true);
        };
        let block_type = frame.block_type;
        match frame.kind {
            FrameKind::Block => self.resume(frame.ops, Op::Block(block_type, last))?,
            FrameKind::Loop => self.resume(frame.ops, Op::Loop(block_type, last))?,
            FrameKind::If => {
                let second = self.finish_sequence(alloc)?;
                self.resume(frame.ops, Op::If(block_type, last, second))?
            }
            FrameKind::Else(first) => self.resume(frame.ops, Op::If(block_type, first, last))?,
        }
        Ok(false)
    }

    // The expression, once its outermost sequence has ended.
    pub(crate) fn into_expr(self) -> Expr
        ensures { expr_tree result ≡ expr_tree (record { sequences = self.sequences.items }) }
    {
        Expr {
            sequences: Items::new(self.sequences),
        }
    }
}
