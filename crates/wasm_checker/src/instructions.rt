//! The steps of instructions, each by its typing rule.

ghost use Rattle.std.specs.Prelude.{◌≡◌, ℕ, ◌≤◌, List, [], ◌∷◌, Option, MatchResult, slice_get, reverse};
ghost use Rattle.wasm_types.specs.Tree.{module_tree};
ghost use Rattle.wasm_types.specs.declared.types.ValType.TheVariants.{I32};
ghost use Rattle.wasm_spec.specs.Typing.{Fixed, named, needs_one, rule};
ghost use Rattle.wasm_spec.specs.Functions as functions;
ghost use Rattle.wasm_spec.specs.Typing as typing;
ghost use Rattle.wasm_checker.specs.Subject.{HaveOneResult, all_locals};
ghost use Rattle.wasm_checker.specs.Position.{inside};
ghost use Rattle.wasm_checker.specs.Steps.{Applies};

use crate::checker::Checker;
use crate::fault::CheckFault;
use crate::locals::Locals;
use crate::lookup::{function_type, global_type, result_of, single_result, type_at};
use crate::widths::{byte_width, integer_type, packed_width, type_of};
use wasm_types::{Function, Instr, Module, ValType, Width};

impl Checker {
    /// An instruction that holds no other and calls none.
    pub(crate) fn plain(
        &mut self,
        m: &Module,
        f: &Function,
        locals: &Locals,
        i: &Instr,
    ) -> Result<(), CheckFault>
        requires { locals.now ≡ all_locals m.now f.now }
        ensures { Applies (λ k. rule (inside m.now f.now k.blocks) i.now) self.old result self.new }
    {
        match i {
            Instr::Unreachable => {
                self.set_unreachable();
                Ok(())
            }
            Instr::Nop => Ok(()),
            Instr::Br(l) => self.branch(result_of(m, f), *l),
            Instr::BrIf(l) => self.branch_if(result_of(m, f), *l),
            Instr::BrTable(ls, l) => self.branch_table(result_of(m, f), ls.as_slice(), *l),
            Instr::Return => self.jump(result_of(m, f)),
            Instr::Drop => self.discard(),
            Instr::Select => self.select(),
            Instr::LocalGet(x) => self.local_get(locals.get(*x)),
            Instr::LocalSet(x) => self.local_set(locals.get(*x)),
            Instr::LocalTee(x) => self.local_tee(locals.get(*x)),
            Instr::GlobalGet(x) => self.global_get(global_type(m, *x)),
            Instr::GlobalSet(x) => self.global_set(global_type(m, *x)),
            Instr::Load(w, arg) => self.load(m, arg, byte_width(*w), *w),
            Instr::LoadPacked(w, size, _, arg) => self.load(m, arg, packed_width(*size), *w),
            Instr::Store(w, arg) => self.store(m, arg, byte_width(*w), *w),
            Instr::StorePacked(w, size, arg) => self.store(m, arg, packed_width(*size), *w),
            Instr::MemorySize => self.with_memory(m, &[], Some(ValType::I32)),
            Instr::MemoryGrow => self.with_memory(m, &[ValType::I32], Some(ValType::I32)),
            Instr::MemoryCopy | Instr::MemoryFill => {
                self.with_memory(m, &[ValType::I32, ValType::I32, ValType::I32], None)
            }
            Instr::Const(v) => self.operate(&[], Some(type_of(*v))),
            Instr::Eqz(w) => self.unary(*w, ValType::I32),
            Instr::Compare(w, _) => self.binary(*w, ValType::I32),
            Instr::Unary(w, _) => self.unary(*w, integer_type(*w)),
            Instr::Binary(w, _) => self.binary(*w, integer_type(*w)),
            Instr::Wrap => self.operate(&[ValType::I64], Some(ValType::I32)),
            Instr::Extend(_) => self.operate(&[ValType::I32], Some(ValType::I64)),
            Instr::Float => Err(CheckFault::Invalid),
        }
    }

    // An operator of one integer of this width, which gives this type.
    fn unary(&mut self, width: Width, t: ValType) -> Result<(), CheckFault>
        ensures { let operand = typing.integer_type width in
            Applies (λ _. Fixed (operand ∷ []) (t ∷ [])) self.old result self.new }
    {
        self.operate(&[integer_type(width)], Some(t))
    }

    // An operator of two integers of this width, which gives this type.
    fn binary(&mut self, width: Width, t: ValType) -> Result<(), CheckFault>
        ensures { let operand = typing.integer_type width in
            Applies (λ _. Fixed (operand ∷ operand ∷ []) (t ∷ [])) self.old result self.new }
    {
        let integer = integer_type(width);
        self.operate(&[integer, integer], Some(t))
    }

    /// A call of a function.
    pub(crate) fn call(&mut self, m: &Module, x: u32) -> Result<(), CheckFault>
        requires { HaveOneResult m.now }
        ensures { let callee = functions.function_type (module_tree m.now) x in
            Applies (λ _. named callee (λ t. Fixed (reverse t.params) t.results)) self.old result self.new }
    {
        let t = function_type(m, x).ok_or(CheckFault::Invalid)?;
        self.operate(t.params.as_slice(), single_result(t))
    }

    /// A call of a function of this type that an index chooses from table 0.
    pub(crate) fn call_indirect(&mut self, m: &Module, x: u32) -> Result<(), CheckFault>
        requires { HaveOneResult m.now }
        ensures { let callee = slice_get m.now.types x in
            Applies (λ _. needs_one m.now.tables (named callee (λ t. Fixed (I32 ∷ reverse t.params) t.results)))
            self.old result self.new }
    {
        if m.tables.is_empty() {
            return Err(CheckFault::Invalid);
        }
        let t = type_at(m, x).ok_or(CheckFault::Invalid)?;
        self.operate_at_index(t.params.as_slice(), single_result(t))
    }
}
