//! A value in the room of a stack.
ghost use Rattle.std.specs.Prelude.{◌≡◌, ◌≢◌, ℕ, None, Some};
ghost use Rattle.wasm_types.specs.declared.instr.Width.{Width};
ghost use Rattle.wasm_types.specs.declared.instr.Width.TheVariants as width;
ghost use Rattle.wasm_values.specs.declared.outcome.Val.TheVariants as val;
ghost use Rattle.wasm_spec.specs.Typing.{number};

use std::marker::Model;
use wasm_values::Val;

/// A value as its bits and how many they are, 32 or 64, so that a number is read without a look at what it is.
#[derive(Clone, Copy)]
pub(crate) struct Cell {
    bits: u64,
    width: u64,
}

impl Model for Cell {
    ghost use Rattle.wasm_values.specs.declared.outcome.Val.{Val};

    ghost Value = { Val };

    ghost use Rattle.machine_steps.specs.Cells.{IsCell, value_of, cell_of};

    ghost view = { value_of };

    ghost invariant = { IsCell };

    ghost inverse = { cell_of };
}

impl Cell {
    // An i32.
    #[inline(always)]
    pub(crate) fn of32(n: u32) -> Cell
        ensures { result ≡ val.I32 n }
    {
        Cell {
            bits: n as u64,
            width: 32,
        }
    }

    // An i64.
    #[inline(always)]
    pub(crate) fn of64(n: u64) -> Cell
        ensures { result ≡ val.I64 n }
    {
        Cell { bits: n, width: 64 }
    }

    // A value.
    #[inline(always)]
    pub(crate) fn of(v: Val) -> Cell
        ensures { result ≡ v }
    {
        match v {
            Val::I32(n) => Cell::of32(n),
            Val::I64(n) => Cell::of64(n),
        }
    }

    // The value that lies here.
    #[inline(always)]
    pub(crate) fn value(self) -> Val
        ensures { result ≡ self }
    {
        if self.width == 32 {
            Val::I32(self.bits as u32)
        } else {
            Val::I64(self.bits)
        }
    }

    // The number, of either width.
    #[inline(always)]
    pub(crate) fn number(self) -> u64
        ensures { (w : Width) (n : ℕ) → number w self ≡ Some n → result ≡ n }
    {
        self.bits
    }

    // The number of an i32.
    #[inline(always)]
    pub(crate) fn number32(self) -> u32
        requires { number width.W32 self ≢ None }
        ensures { number width.W32 self ≡ Some result }
    {
        self.bits as u32
    }

    // The number of an i64.
    #[inline(always)]
    pub(crate) fn number64(self) -> u64
        requires { number width.W64 self ≢ None }
        ensures { number width.W64 self ≡ Some result }
    {
        self.bits
    }
}
