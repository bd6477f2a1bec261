//! Where a run stands.
ghost use Rattle.std.specs.Prelude.{◌≡◌, ◌<◌, ◌≤◌, IfOk, List, length, vec_len, vec_capacity};
ghost use Rattle.wasm_types.specs.declared.types.ValType.{ValType};

use crate::frames::Frame;
use crate::values::ValueStack;
use std::alloc::{AllocError, Global};

/// Where a function goes on, and where its frame's locals and labels begin.
#[derive(Clone, Copy, Debug, PartialEq, Eq)]
pub struct Position {
    pub function: usize,
    pub sequence: usize,
    pub locals: usize,
    pub labels: usize,
    pub place: usize,
}

/// An open block, loop or `if`: the sequence that it stands in, how many values a branch to it takes, where its operands begin,
/// and where that sequence goes on at its end and at a branch. (No two fields stand here as they stand in a position, so that each
/// is moved by itself: one move of two would wait for the writes that made them.)
#[derive(Clone, Copy, Debug, PartialEq, Eq)]
pub struct Label {
    pub sequence: usize,
    pub arity: usize,
    pub base: usize,
    pub after: usize,
    pub target: usize,
}

/// A run's position and stacks. Each frame's values are its locals, and then its operands.
pub struct Machine {
    pub at: Position,
    pub values: ValueStack,
    pub labels: Vec<Label>,
    pub frames: Vec<Frame>,
}

impl Drop for Machine {
    fn drop(self) {
        let Machine {
            at: _,
            values: _,
            labels: _,
            frames: _,
        } = self;
    }
}

impl Machine {
    ghost use Rattle.machine_steps.specs.Configuration.{Configuration};
    ghost use Rattle.machine_steps.specs.StackLayout.{KeepsRoom, Represents};
    ghost use Rattle.machine_steps.specs.PlainSteps.{in_block};

    /// A machine with room for so many values and labels, and so many calls. It stands nowhere.
    ///
    /// # Errors
    ///
    /// `AllocError` where memory was refused.
    pub fn with_room(alloc: Global, entries: usize, calls: usize) -> Result<Machine, AllocError>
        ensures values { IfOk result (λ machine. entries ≤ machine.values.room) }
        ensures labels { IfOk result (λ machine. entries ≤ vec_capacity machine.labels) }
        ensures frames { IfOk result (λ machine. calls ≤ vec_capacity machine.frames) }
    {
        let at = Position {
            function: 0,
            sequence: 0,
            locals: 0,
            labels: 0,
            place: 0,
        };
        Ok(Machine {
            at,
            values: ValueStack::with_room(alloc, entries)?,
            labels: Vec::with_capacity(alloc, entries)?,
            frames: Vec::with_capacity(alloc, calls)?,
        })
    }

    /// Enters a block, a loop or an arm: goes on in its sequence.
    #[inline(always)]
    pub fn enter_block(&mut self, arity: usize, target: usize, sequence: usize)
        requires { vec_len self.old.labels < vec_capacity self.old.labels }
        ensures represents { (k : Configuration) (label ends : List ValType) → Represents k self.old → arity ≡ length label
            → Represents (in_block k label ends target sequence) self.new }
        ensures room { KeepsRoom self.old self.new }
    {
        let label = Label {
            sequence: self.at.sequence,
            arity,
            base: self.values.len(),
            after: self.at.place,
            target,
        };
        self.labels.push_reserved(label);
        self.at.sequence = sequence;
        self.at.place = 0;
    }
}
