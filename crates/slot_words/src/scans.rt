//! Steps that read a word and change none.
ghost use Rattle.std.specs.Prelude.{◌≡◌, ◌<◌, ◌≤◌, ◌++◌, [], ◌∷◌, length, take};
ghost use Rattle.std.specs.List.{All};
ghost use Rattle.pool_core.specs.declared.words.StateWord.{StateWord};
ghost use Rattle.pool_core.specs.StateWords.{IsWordOf};
ghost use Rattle.slot_words.specs.declared.views.Operation.TheVariants.{Load, WarmLoad, AwaitLoad};
ghost use Rattle.slot_words.specs.Passes.{IsSamePass, KeepsAll, trail};
ghost use Rattle.slot_words.specs.Owned.{IsPassOf, slots_of};
ghost use Rattle.slot_words.specs.Trails.{loads_from};

use crate::cores::core_laws;
use crate::outcomes::{AwaitLoading, Loading, WarmLoading};
use crate::pooled::Pooled;
use crate::seen::Seen;
use crate::views::Pass;
use crate::words::Words;
use pool_core::MOST_SLOTS;

impl<V: Pooled> Words<V> {
    /// Reads the state word of slot n.
    pub fn load(&self, pass: &mut Pass<V>, n: u32) -> u64
        requires own { IsPassOf self.now pass.old }
        requires number { n < slots_of self.now }
        ensures same { IsSamePass pass.old pass.new }
        ensures keeps { KeepsAll pass.old pass.new }
        ensures trail { trail pass.new ≡ trail pass.old ++ Load n result ∷ [] }
        ensures word { (w : StateWord) × IsWordOf result w }
    {
        core_laws();
        self.table.shared.load::<Loading>(pass, n as usize)
    }

    /// Reads the state word of each slot, by rising number: one load each.
    pub fn scan(&self, pass: &mut Pass<V>, seen: &mut Seen)
        requires own { IsPassOf self.now pass.old }
        ensures same { IsSamePass pass.old pass.new }
        ensures keeps { KeepsAll pass.old pass.new }
        ensures seen { length seen.new ≡ slots_of self.now }
        ensures few { length seen.new ≤ MOST_SLOTS }
        ensures trail { trail pass.new ≡ trail pass.old ++ loads_from 0 seen.new }
        ensures words { All (λ r. (w : StateWord) × IsWordOf r w) seen.new }
    {
        self.scan_into(pass, &mut seen.words);
        seen.count = self.slots;
    }

    /// Scans as [`Words::scan`] does, into the first places of a row, which has one for each slot at least.
    pub fn scan_into(&self, pass: &mut Pass<V>, row: &mut [u64])
        requires own { IsPassOf self.now pass.old }
        requires room { slots_of self.now ≤ length row.old }
        ensures same { IsSamePass pass.old pass.new }
        ensures keeps { KeepsAll pass.old pass.new }
        ensures len { length row.new ≡ length row.old }
        ensures few { slots_of self.now ≤ MOST_SLOTS }
        ensures trail { trail pass.new ≡ trail pass.old ++ loads_from 0 (take (slots_of self.now) row.new) }
        ensures words { All (λ r. (w : StateWord) × IsWordOf r w) (take (slots_of self.now) row.new) }
    {
        for n in 0..self.slots() {
            row[n as usize] = self.load(pass, n);
        }
    }

    /// Reads the warm word: how many slots are counted as warm.
    pub fn warm_load(&self, pass: &mut Pass<V>) -> u64
        requires own { IsPassOf self.now pass.old }
        ensures same { IsSamePass pass.old pass.new }
        ensures keeps { KeepsAll pass.old pass.new }
        ensures trail { trail pass.new ≡ trail pass.old ++ WarmLoad result ∷ [] }
    {
        core_laws();
        self.table.shared.load::<WarmLoading>(pass, self.slots)
    }

    /// Reads the await word: how many slots are counted as awaiting.
    pub fn await_load(&self, pass: &mut Pass<V>) -> u64
        requires own { IsPassOf self.now pass.old }
        ensures same { IsSamePass pass.old pass.new }
        ensures keeps { KeepsAll pass.old pass.new }
        ensures trail { trail pass.new ≡ trail pass.old ++ AwaitLoad result ∷ [] }
    {
        core_laws();
        self.table.shared.load::<AwaitLoading>(pass, self.slots + 1)
    }
}
