//! The checker's stacks of operands and control frames, and what pushes on them and pops from them.

ghost use Rattle.std.specs.Prelude.{◌≡◌, ℕ, ◌<◌, ◌≤◌, ◌^◌, IsTrue, List, [], ◌∷◌, Option, None, Some, IsErr, IfOk, MatchResult, slice_get, option_map, reverse, max};
ghost use Rattle.wasm_types.specs.declared.types.ValType.{ValType};
ghost use Rattle.wasm_spec.specs.Typing.{result_types};
ghost use Rattle.wasm_checker.specs.Check as check;
ghost use Rattle.wasm_checker.specs.Check.{HasAny};
ghost use Rattle.wasm_checker.specs.Position.{CheckPosition, EnclosingBlock, ShowsPosition, with_stack, base_of, labels_of, opened, outside};
ghost use Rattle.wasm_checker.specs.Steps.{Refuses, Pops, Steps};

use crate::fault::CheckFault;
use std::alloc::AllocError;
use wasm_types::ValType;

/// An open block, loop or if: the types that its branches and its end need, the other arm of an if, and where the code
/// around it goes on.
#[derive(Clone, Copy)]
pub(crate) struct ControlFrame {
    pub(crate) label_type: Option<ValType>,
    pub(crate) end_type: Option<ValType>,
    pub(crate) second: Option<usize>,
    pub(crate) unreachable: bool,
    pub(crate) base: usize,
    pub(crate) sequence: usize,
    pub(crate) after: usize,
}

/// A walk over a function's sequences: where it stands, the operands there (None is one of unknown type), of which `base`
/// lie below the innermost block, the open blocks, and the greatest numbers of operands and of labels so far.
#[derive(Drop)]
pub(crate) struct Checker {
    pub(crate) sequence: usize,
    pub(crate) place: usize,
    pub(crate) unreachable: bool,
    pub(crate) base: usize,
    pub(crate) operands: Vec<Option<ValType>>,
    pub(crate) frames: Vec<ControlFrame>,
    pub(crate) peak_operands: u32,
    pub(crate) peak_labels: u32,
}

/// Whether an operand may be of this type.
pub(crate) fn agrees(t: ValType, k: Option<ValType>) -> bool
    ensures { result ≡ check.agrees t k }
{
    match (t, k) {
        (_, None) => true,
        (ValType::I32, Some(ValType::I32)) => true,
        (ValType::I64, Some(ValType::I64)) => true,
        (ValType::F32, Some(ValType::F32)) => true,
        (ValType::F64, Some(ValType::F64)) => true,
        _ => false,
    }
}

/// The one type that both operands may be of.
pub(crate) fn both(k: Option<ValType>, l: Option<ValType>) -> Option<Option<ValType>>
    ensures { result ≡ check.both k l }
{
    match (k, l) {
        (None, l) => Some(l),
        (Some(t), l) => { if agrees(t, l) { Some(k) } else { None } }
    }
}

// A stack's height. One of 2^32 is taken as want of memory.
fn height(n: usize) -> Result<u32, AllocError>
    ensures is { IfOk result (λ h. h ≡ n) }
    ensures refused { IsErr result → 2 ^ 32 ≤ n }
{
    u32::try_from(n).map_err(|_| AllocError)
}

impl Checker {
    /// The topmost operand.
    pub(crate) fn pop(&mut self) -> Result<Option<ValType>, CheckFault>
        ensures { Pops self.old result self.new }
    {
        if self.operands.len() > self.base {
            match self.operands.pop() {
                Some(t) => Ok(t),
                None => Err(CheckFault::Invalid),
            }
        } else if self.unreachable {
            Ok(None)
        } else {
            Err(CheckFault::Invalid)
        }
    }

    /// An operand of this type.
    pub(crate) fn pop_type(&mut self, t: ValType) -> Result<(), CheckFault>
        ensures { Steps (λ k. check.pop_type t k.stack) self.old result self.new }
    {
        let k = self.pop()?;
        if agrees(t, k) {
            Ok(())
        } else {
            Err(CheckFault::Invalid)
        }
    }

    // Whether the code is not reached and the innermost block has no operand: there are as many of each type as are popped.
    fn has_any(&self) -> bool
        ensures { (k : CheckPosition) → ShowsPosition k self.now → IsTrue result → HasAny k.stack }
    {
        self.unreachable && self.operands.len() == self.base
    }

    /// Operands of these types, the last one on the top, in steps that grow with the operands that are there: of types there may be
    /// many.
    pub(crate) fn pop_types(&mut self, types: &[ValType]) -> Result<(), CheckFault>
        ensures { Steps (λ k. check.pop_types (reverse types.now) k.stack) self.old result self.new }
    {
        let mut rest = types;
        while let [front @ .., t] = rest {
            if self.has_any() {
                return Ok(());
            }
            self.pop_type(*t)?;
            rest = front;
        }
        Ok(())
    }

    /// An operand of this type, if there is a type.
    pub(crate) fn pop_result(&mut self, t: Option<ValType>) -> Result<(), CheckFault>
        ensures { Steps (λ k. check.pop_types (result_types t) k.stack) self.old result self.new }
    {
        match t {
            Some(t) => self.pop_type(t),
            None => Ok(()),
        }
    }

    /// An operand on the top.
    pub(crate) fn push(&mut self, t: Option<ValType>) -> Result<(), CheckFault>
        ensures { Steps (λ k. Some (check.push (base_of k.blocks) t k.stack)) self.old result self.new }
    {
        self.operands.push(t)?;
        let height = height(self.operands.len())?;
        self.peak_operands = self.peak_operands.max(height);
        Ok(())
    }

    /// An operand of this type on the top, if there is a type.
    pub(crate) fn push_result(&mut self, t: Option<ValType>) -> Result<(), CheckFault>
        ensures { Steps (λ k. Some (check.push_types (base_of k.blocks) (result_types t) k.stack)) self.old result self.new }
    {
        match t {
            Some(t) => self.push(Some(t)),
            None => Ok(()),
        }
    }

    /// Whatever follows is not reached.
    pub(crate) fn set_unreachable(&mut self)
        ensures { (k : CheckPosition) → ShowsPosition k self.old
            → ShowsPosition (with_stack k (check.set_unreachable (base_of k.blocks) k.stack)) self.new }
    {
        self.operands.truncate(self.base);
        self.unreachable = true;
    }

    /// Enters inner code: goes on in its sequence.
    pub(crate) fn enter(
        &mut self,
        label_type: Option<ValType>,
        end_type: Option<ValType>,
        second: Option<usize>,
        sequence: usize,
    ) -> Result<(), CheckFault>
        ensures { (r : Option ValType) (k : CheckPosition) → ShowsPosition k self.old
            → MatchResult result (λ _. ShowsPosition (opened r k label_type end_type second sequence) self.new) (Refuses ⊥) }
    {
        self.frames.push(ControlFrame {
            label_type,
            end_type,
            second,
            unreachable: self.unreachable,
            base: self.base,
            sequence: self.sequence,
            after: self.place,
        })?;
        let depth = height(self.frames.len() + 1)?;
        self.peak_labels = self.peak_labels.max(depth);
        self.base = self.operands.len();
        self.unreachable = false;
        self.sequence = sequence;
        self.place = 0;
        Ok(())
    }

    /// What a branch to a label needs, the labels counted from the innermost, in a function with this result.
    pub(crate) fn label(&self, body: Option<ValType>, l: u32) -> Option<Option<ValType>>
        ensures { (k : CheckPosition) → ShowsPosition k self.now → option_map result_types result ≡ slice_get (labels_of body k.blocks) l }
    {
        let n = self.frames.len();
        let l = l as usize;
        if l < n {
            Some(self.frames[n - 1 - l].label_type)
        } else if l == n {
            Some(body)
        } else {
            None
        }
    }

    /// The end of inner code: exactly these results are left in the block.
    pub(crate) fn end(&mut self, t: Option<ValType>) -> Result<(), CheckFault>
        ensures { Steps (λ k. check.end_block t (Some k.stack)) self.old result self.new }
    {
        self.pop_result(t)?;
        if self.base == self.operands.len() {
            Ok(())
        } else {
            Err(CheckFault::Invalid)
        }
    }

    /// Goes back around the inner code, which is over.
    pub(crate) fn leave(&mut self)
        ensures { (k : CheckPosition) (o : EnclosingBlock) (os : List EnclosingBlock) → ShowsPosition k self.old
            → k.blocks ≡ o ∷ os → k.stack.operands ≡ [] → ShowsPosition (outside o os k.stack) self.new }
    {
        let Some(frame) = self.frames.pop() else {
            return;
        };
        self.base = frame.base;
        self.unreachable = frame.unreachable;
        self.sequence = frame.sequence;
        self.place = frame.after;
    }
}
