//! Steps on the count words, by the holder of a slot.
ghost use Rattle.std.specs.Prelude.{◌≡◌, ℕ, ◌++◌, ◌%◌, ◌||◌, [], ◌∷◌, Bool, true, false, not, ltb};
ghost use Rattle.slot_words.specs.declared.views.Operation.TheVariants.{WarmUp, WarmDown, Stamp, AwaitUp, AwaitDown};
ghost use Rattle.slot_words.specs.Passes.{IsHolding, IsSamePass, KeepsWith, KeepsAll, pass_permit, pass_refusal, pass_mark, trail};
ghost use Rattle.slot_words.specs.Owned.{IsPassOf, limit_of};

use crate::cores::core_laws;
use crate::outcomes::{AwaitingDown, AwaitingUp, Stamping, WarmingDown, WarmingUp};
use crate::pooled::Pooled;
use crate::views::Pass;
use crate::words::Words;
use pool_core::STAMP_LIMIT;

impl<V: Pooled> Words<V> {
    /// Counts one more warm slot. True exactly where the word read was below the limit: the pass then has a permit, and else a refusal.
    pub fn warm_up(&self, pass: &mut Pass<V>) -> bool
        requires own { IsPassOf self.now pass.old }
        requires holds { IsHolding pass.old }
        requires none { (pass_permit pass.old ≡ false) × (pass_refusal pass.old ≡ false) }
        ensures same { IsSamePass pass.old pass.new }
        ensures keeps { KeepsWith pass.old pass.new result (not result) (pass_mark pass.old) }
        ensures trail { (r : ℕ) × (result ≡ ltb r (limit_of self.now)) × (trail pass.new ≡ trail pass.old ++ WarmUp r ∷ []) }
    {
        core_laws();
        let read = self
            .table
            .shared
            .fetch_add::<WarmingUp>(pass, self.slots, 1);
        read < self.limit
    }

    /// Counts one warm slot less: the pass has neither permit nor refusal any more.
    pub fn warm_down(&self, pass: &mut Pass<V>)
        requires own { IsPassOf self.now pass.old }
        requires holds { IsHolding pass.old }
        requires some { (pass_permit pass.old || pass_refusal pass.old) ≡ true }
        ensures same { IsSamePass pass.old pass.new }
        ensures keeps { KeepsWith pass.old pass.new false false (pass_mark pass.old) }
        ensures trail { (r : ℕ) × (trail pass.new ≡ trail pass.old ++ WarmDown r ∷ []) }
    {
        core_laws();
        self.table
            .shared
            .fetch_sub::<WarmingDown>(pass, self.slots, 1);
    }

    /// The next stamp: the clock word read, modulo [`STAMP_LIMIT`].
    pub fn stamp(&self, pass: &mut Pass<V>) -> u64
        requires own { IsPassOf self.now pass.old }
        requires holds { IsHolding pass.old }
        ensures same { IsSamePass pass.old pass.new }
        ensures keeps { KeepsAll pass.old pass.new }
        ensures trail { (r : ℕ) × (result ≡ r % STAMP_LIMIT) × (trail pass.new ≡ trail pass.old ++ Stamp r ∷ []) }
    {
        core_laws();
        let read = self
            .table
            .shared
            .fetch_add::<Stamping>(pass, self.slots + 2, 1);
        read % STAMP_LIMIT
    }

    /// Counts one more awaiting slot, and gives the word that it read: the pass has an await mark.
    pub fn await_up(&self, pass: &mut Pass<V>) -> u64
        requires own { IsPassOf self.now pass.old }
        requires holds { IsHolding pass.old }
        requires none { pass_mark pass.old ≡ false }
        ensures same { IsSamePass pass.old pass.new }
        ensures keeps { KeepsWith pass.old pass.new (pass_permit pass.old) (pass_refusal pass.old) true }
        ensures trail { trail pass.new ≡ trail pass.old ++ AwaitUp result ∷ [] }
    {
        core_laws();
        self.table
            .shared
            .fetch_add::<AwaitingUp>(pass, self.slots + 1, 1)
    }

    /// Counts one awaiting slot less: the pass has no await mark any more.
    pub fn await_down(&self, pass: &mut Pass<V>)
        requires own { IsPassOf self.now pass.old }
        requires holds { IsHolding pass.old }
        requires some { pass_mark pass.old ≡ true }
        ensures same { IsSamePass pass.old pass.new }
        ensures keeps { KeepsWith pass.old pass.new (pass_permit pass.old) (pass_refusal pass.old) false }
        ensures trail { (r : ℕ) × (trail pass.new ≡ trail pass.old ++ AwaitDown r ∷ []) }
    {
        core_laws();
        self.table
            .shared
            .fetch_sub::<AwaitingDown>(pass, self.slots + 1, 1);
    }
}
