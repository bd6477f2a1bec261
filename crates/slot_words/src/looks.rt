//! The slots are counted while they are shared.
ghost use Rattle.slot_words.specs.Looking.{IsCount};
ghost use Rattle.slot_words.specs.Owned.{IsPassOf, slots_of};
ghost use Rattle.slot_words.specs.Parts.{Grew};
ghost use Rattle.slot_words.specs.Passes.{IsSamePass, KeepsAll, trail};

use crate::kinds::KindCounts;
use crate::pooled::Pooled;
use crate::views::Pass;
use crate::words::Words;
use pool_core::unpack;

impl<V: Pooled> Words<V> {
    /// Counts the slots by the words that it reads: one load of each, by rising number. Other passes may change them meanwhile.
    pub fn look(&self, pass: &mut Pass<V>) -> KindCounts
        requires own { IsPassOf self.now pass.old }
        ensures same { IsSamePass pass.old pass.new }
        ensures keeps { KeepsAll pass.old pass.new }
        ensures counted { Grew (IsCount (slots_of self.now) result) (trail pass.old) (trail pass.new) }
    {
        let mut counts = KindCounts::NONE;
        for n in 0..self.slots() {
            let (target, held) = unpack(self.load(pass, n));
            counts = counts.with(target, held);
        }
        counts
    }
}
