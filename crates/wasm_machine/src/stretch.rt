//! The instructions that a run has before it.
ghost use Rattle.std.specs.Prelude.{◌≡◌, ◌+◌, ◌<◌, ◌^◌, IsFalse, IsTrue, List, Some, length, slice_get};
ghost use Rattle.wasm_types.specs.declared.instr.Op.{Op as AnOp};
ghost use Rattle.wasm_machine.specs.Stretches.{LiesIn, fuel_of, place_of};

use wasm_types::Op;

// The instructions that are next, as far as the sequence goes and the fuel, the place at which they end there, and the fuel that is left
// behind them. So one comparison says for both whether there is a next one.
#[derive(Clone, Copy)]
pub(crate) struct Stretch<'m> {
    pub ops: &'m [Op],
    pub end: usize,
    pub reserve: u64,
}

impl<'m> Stretch<'m> {
    // Those of a sequence from a place on, with so much fuel.
    #[inline(always)]
    pub(crate) fn of(ops: &'m [Op], place: usize, fuel: u64) -> Stretch<'m>
        ensures lies { LiesIn ops.now result }
        ensures place { place_of result ≡ place }
        ensures fuel { fuel_of result ≡ fuel }
        ensures some { place < length ops.now → 0 < fuel → 0 < length result.ops.now }
    {
        if place >= ops.len() {
            return Stretch {
                ops: &[],
                end: place,
                reserve: fuel,
            };
        }
        let count = fuel.min((ops.len() - place) as u64) as usize;
        Stretch {
            ops: &ops[place..place + count],
            end: place + count,
            reserve: fuel - count as u64,
        }
    }

    // Whether there is an instruction.
    #[inline(always)]
    pub(crate) fn has_next(self) -> bool
        ensures some { IsTrue result → 0 < length self.entry.ops.now }
        ensures none { IsFalse result → length self.entry.ops.now ≡ 0 }
    {
        !self.ops.is_empty()
    }

    // How much fuel there is.
    #[inline(always)]
    pub(crate) fn fuel(self) -> u64
        requires { fuel_of self < 2 ^ 64 }
        ensures { result ≡ fuel_of self.entry }
    {
        self.ops.len() as u64 + self.reserve
    }

    // The place of the first instruction, or of the end where there is none.
    #[inline(always)]
    pub(crate) fn place(self) -> usize
        requires { (sequence : List AnOp) × LiesIn sequence self }
        ensures is { result ≡ place_of self.entry }
        ensures fits { 0 < length self.entry.ops.now → result + 1 < 2 ^ 64 }
    {
        self.end - self.ops.len()
    }

    // The first instruction.
    #[inline(always)]
    pub(crate) fn first(self) -> &'m Op
        requires { 0 < length self.ops.now }
        ensures { (sequence : List AnOp) → LiesIn sequence self.entry → slice_get sequence (place_of self.entry) ≡ Some result.now }
    {
        &self.ops[0]
    }

    // How much fuel there is behind it.
    #[inline(always)]
    pub(crate) fn fuel_behind(self) -> u64
        requires some { 0 < length self.ops.now }
        requires fits { fuel_of self < 2 ^ 64 }
        ensures { result + 1 ≡ fuel_of self.entry }
    {
        (self.ops.len() - 1) as u64 + self.reserve
    }

    // What is behind it.
    #[inline(always)]
    pub(crate) fn rest(self) -> Stretch<'m>
        requires { 0 < length self.ops.now }
        ensures lies { (sequence : List AnOp) → LiesIn sequence self.entry → LiesIn sequence result }
        ensures place { (sequence : List AnOp) → LiesIn sequence self.entry → place_of result ≡ place_of self.entry + 1 }
        ensures fuel { fuel_of result + 1 ≡ fuel_of self.entry }
    {
        Stretch {
            ops: &self.ops[1..],
            end: self.end,
            reserve: self.reserve,
        }
    }
}
