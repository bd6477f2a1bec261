//! Reads and writes of locals and globals. Source: WebAssembly Core Specification 1.0, section 3.3.3.

ghost use Rattle.std.specs.Prelude.{◌≡◌, ℕ, [], ◌∷◌, if◌then◌else◌, Option, MatchResult};
ghost use Rattle.wasm_spec.specs.Typing.{named, Fixed, Wrong};
ghost use Rattle.wasm_checker.specs.Steps.{Applies};

use crate::checker::Checker;
use crate::fault::CheckFault;
use wasm_types::{GlobalType, ValType};

impl Checker {
    /// A read of a local of this type.
    pub(crate) fn local_get(&mut self, t: Option<ValType>) -> Result<(), CheckFault>
        ensures { Applies (λ _. named t (λ u. Fixed [] (u ∷ []))) self.old result self.new }
    {
        let t = t.ok_or(CheckFault::Invalid)?;
        self.operate(&[], Some(t))
    }

    /// A write of a local of this type.
    pub(crate) fn local_set(&mut self, t: Option<ValType>) -> Result<(), CheckFault>
        ensures { Applies (λ _. named t (λ u. Fixed (u ∷ []) [])) self.old result self.new }
    {
        let t = t.ok_or(CheckFault::Invalid)?;
        self.operate(&[t], None)
    }

    /// A write of a local of this type, which leaves the value.
    pub(crate) fn local_tee(&mut self, t: Option<ValType>) -> Result<(), CheckFault>
        ensures { Applies (λ _. named t (λ u. Fixed (u ∷ []) (u ∷ []))) self.old result self.new }
    {
        let t = t.ok_or(CheckFault::Invalid)?;
        self.operate(&[t], Some(t))
    }

    /// A read of a global of this type.
    pub(crate) fn global_get(&mut self, g: Option<GlobalType>) -> Result<(), CheckFault>
        ensures { Applies (λ _. named g (λ u. Fixed [] (u.value ∷ []))) self.old result self.new }
    {
        let g = g.ok_or(CheckFault::Invalid)?;
        self.operate(&[], Some(g.value))
    }

    /// A write of a global of this type, which has to be a variable.
    pub(crate) fn global_set(&mut self, g: Option<GlobalType>) -> Result<(), CheckFault>
        ensures { Applies (λ _. named g (λ u. if u.mutable then Fixed (u.value ∷ []) [] else Wrong)) self.old result self.new }
    {
        let g = g.ok_or(CheckFault::Invalid)?;
        if g.mutable {
            self.operate(&[g.value], None)
        } else {
            Err(CheckFault::Invalid)
        }
    }
}
