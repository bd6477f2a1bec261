//! Branches. Source: WebAssembly Core Specification 1.0, section 3.3.5.

ghost use Rattle.std.specs.Prelude.{◌≡◌, ℕ, ◌∷◌, if◌then◌else◌, Option, MatchResult, slice_get};
ghost use Rattle.std.specs.List.{list_all};
ghost use Rattle.wasm_spec.specs.Typing as typing;
ghost use Rattle.wasm_spec.specs.Typing.{result_types, named, Fixed, Diverges, Wrong};
ghost use Rattle.wasm_types.specs.declared.types.ValType.TheVariants.{I32};
ghost use Rattle.wasm_checker.specs.Position.{CheckPosition, ShowsPosition, labels_of};
ghost use Rattle.wasm_checker.specs.Steps.{Applies};

use crate::checker::Checker;
use crate::fault::CheckFault;
use crate::widths::same_results;
use wasm_types::ValType;

impl Checker {
    /// A branch to a label, in a function with this result.
    pub(crate) fn branch(&mut self, body: Option<ValType>, l: u32) -> Result<(), CheckFault>
        ensures { Applies (λ k. named (slice_get (labels_of body k.blocks) l) (λ label. Diverges label)) self.old result self.new }
    {
        let t = self.label(body, l).ok_or(CheckFault::Invalid)?;
        self.jump(t)
    }

    /// A branch to a label where the top is not 0.
    pub(crate) fn branch_if(&mut self, body: Option<ValType>, l: u32) -> Result<(), CheckFault>
        ensures { Applies (λ k. named (slice_get (labels_of body k.blocks) l) (λ label. Fixed (I32 ∷ label) label)) self.old result self.new }
    {
        let t = self.label(body, l).ok_or(CheckFault::Invalid)?;
        self.jump_if(t)
    }

    /// A branch to one of these labels, or to the last one, by the top.
    pub(crate) fn branch_table(
        &mut self,
        body: Option<ValType>,
        names: &[u32],
        l: u32,
    ) -> Result<(), CheckFault>
        ensures { Applies (λ k. let labels = labels_of body k.blocks in named (slice_get labels l) (λ label.
            if list_all (λ x. typing.is_label label (slice_get labels x)) names.now then Diverges (I32 ∷ label) else Wrong)) self.old result self.new }
    {
        let t = self.label(body, l).ok_or(CheckFault::Invalid)?;
        if self.are_labels(body, names, t) {
            self.jump_by_index(t)
        } else {
            Err(CheckFault::Invalid)
        }
    }

    // Whether these labels are there, and need just this.
    fn are_labels(&self, body: Option<ValType>, names: &[u32], t: Option<ValType>) -> bool
        ensures { (k : CheckPosition) → ShowsPosition k self.now
            → result ≡ list_all (λ x. typing.is_label (result_types t) (slice_get (labels_of body k.blocks) x)) names.now }
    {
        for x in names {
            if !self.is_label(body, *x, t) {
                return false;
            }
        }
        true
    }

    // Whether this label is there, and needs just this.
    fn is_label(&self, body: Option<ValType>, l: u32, t: Option<ValType>) -> bool
        ensures { (k : CheckPosition) → ShowsPosition k self.now
            → result ≡ typing.is_label (result_types t) (slice_get (labels_of body k.blocks) l) }
    {
        match self.label(body, l) {
            Some(other) => same_results(t, other),
            None => false,
        }
    }
}
