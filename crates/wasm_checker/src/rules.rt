//! The steps of the checker by kind of typing rule.

ghost use Rattle.std.specs.Prelude.{◌≡◌, ℕ, List, [], ◌∷◌, Option, None, Some, MatchResult, reverse};
ghost use Rattle.wasm_types.specs.declared.types.ValType.{ValType};
ghost use Rattle.wasm_types.specs.declared.types.ValType.TheVariants.{I32};
ghost use Rattle.wasm_spec.specs.Typing.{result_types, Fixed, Diverges, Drops, Selects};
ghost use Rattle.wasm_checker.specs.Steps.{Applies};

use crate::checker::{Checker, both};
use crate::fault::CheckFault;
use wasm_types::ValType;

impl Checker {
    /// Takes operands of these types, the last one on the top, and gives this result.
    pub(crate) fn operate(
        &mut self,
        takes: &[ValType],
        t: Option<ValType>,
    ) -> Result<(), CheckFault>
        ensures { Applies (λ _. Fixed (reverse takes.now) (result_types t)) self.old result self.new }
    {
        self.pop_types(takes)?;
        self.push_result(t)
    }

    /// Takes an index from the top, then operands of these types, and gives this result.
    pub(crate) fn operate_at_index(
        &mut self,
        takes: &[ValType],
        t: Option<ValType>,
    ) -> Result<(), CheckFault>
        ensures { Applies (λ _. Fixed (I32 ∷ reverse takes.now) (result_types t)) self.old result self.new }
    {
        self.pop_type(ValType::I32)?;
        self.operate(takes, t)
    }

    /// Takes any operand.
    pub(crate) fn discard(&mut self) -> Result<(), CheckFault>
        ensures { Applies (λ _. Drops) self.old result self.new }
    {
        self.pop()?;
        Ok(())
    }

    /// Takes two operands of one type below a condition, and gives one of that type.
    pub(crate) fn select(&mut self) -> Result<(), CheckFault>
        ensures { Applies (λ _. Selects) self.old result self.new }
    {
        self.pop_type(ValType::I32)?;
        let k = self.pop()?;
        let l = self.pop()?;
        match both(k, l) {
            Some(t) => self.push(t),
            None => Err(CheckFault::Invalid),
        }
    }

    /// Jumps to a label that needs this.
    pub(crate) fn jump(&mut self, t: Option<ValType>) -> Result<(), CheckFault>
        ensures { Applies (λ _. Diverges (result_types t)) self.old result self.new }
    {
        self.pop_result(t)?;
        self.set_unreachable();
        Ok(())
    }

    /// Jumps, where the top is not 0, to a label that needs this.
    pub(crate) fn jump_if(&mut self, t: Option<ValType>) -> Result<(), CheckFault>
        ensures { Applies (λ _. Fixed (I32 ∷ result_types t) (result_types t)) self.old result self.new }
    {
        self.pop_type(ValType::I32)?;
        self.pop_result(t)?;
        self.push_result(t)
    }

    /// Jumps to one of some labels that need this, which the top chooses.
    pub(crate) fn jump_by_index(&mut self, t: Option<ValType>) -> Result<(), CheckFault>
        ensures { Applies (λ _. Diverges (I32 ∷ result_types t)) self.old result self.new }
    {
        self.pop_type(ValType::I32)?;
        self.jump(t)
    }
}
