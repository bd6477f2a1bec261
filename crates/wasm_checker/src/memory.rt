//! Instructions on the memory. Source: WebAssembly Core Specification 1.0, section 3.3.4.

ghost use Rattle.std.specs.Prelude.{◌≡◌, ℕ, ◌≤◌, List, [], ◌∷◌, Option, MatchResult, reverse};
ghost use Rattle.wasm_types.specs.declared.types.ValType.TheVariants.{I32};
ghost use Rattle.wasm_spec.specs.Typing as typing;
ghost use Rattle.wasm_spec.specs.Typing.{result_types, Fixed};
ghost use Rattle.wasm_checker.specs.Steps.{Applies};

use crate::checker::Checker;
use crate::fault::CheckFault;
use crate::widths::{integer_type, is_aligned};
use wasm_types::{MemArg, Module, ValType, Width};

impl Checker {
    /// An instruction on the memory, with these operands, the last one on the top, and this result.
    pub(crate) fn with_memory(
        &mut self,
        m: &Module,
        takes: &[ValType],
        t: Option<ValType>,
    ) -> Result<(), CheckFault>
        ensures { let by = Fixed (reverse takes.now) (result_types t) in
            Applies (λ _. typing.needs_one m.now.memories by) self.old result self.new }
    {
        if m.memories.is_empty() {
            return Err(CheckFault::Invalid);
        }
        self.operate(takes, t)
    }

    // An access to so many bytes of memory, with these operands, the last one on the top, and this result.
    fn access(
        &mut self,
        m: &Module,
        arg: &MemArg,
        bytes: u32,
        takes: &[ValType],
        t: Option<ValType>,
    ) -> Result<(), CheckFault>
        requires { bytes ≤ 8 }
        ensures { let by = Fixed (reverse takes.now) (result_types t) in
            Applies (λ _. typing.access m.now.memories arg.now bytes by) self.old result self.new }
    {
        if !is_aligned(arg.align, bytes) {
            return Err(CheckFault::Invalid);
        }
        self.with_memory(m, takes, t)
    }

    /// A load of an integer of this width from so many bytes.
    pub(crate) fn load(
        &mut self,
        m: &Module,
        arg: &MemArg,
        bytes: u32,
        width: Width,
    ) -> Result<(), CheckFault>
        requires { bytes ≤ 8 }
        ensures { let by = Fixed (I32 ∷ []) (typing.integer_type width ∷ []) in
            Applies (λ _. typing.access m.now.memories arg.now bytes by) self.old result self.new }
    {
        self.access(m, arg, bytes, &[ValType::I32], Some(integer_type(width)))
    }

    /// A store of an integer of this width into so many bytes.
    pub(crate) fn store(
        &mut self,
        m: &Module,
        arg: &MemArg,
        bytes: u32,
        width: Width,
    ) -> Result<(), CheckFault>
        requires { bytes ≤ 8 }
        ensures { let by = Fixed (typing.integer_type width ∷ I32 ∷ []) [] in
            Applies (λ _. typing.access m.now.memories arg.now bytes by) self.old result self.new }
    {
        self.access(m, arg, bytes, &[ValType::I32, integer_type(width)], None)
    }
}
