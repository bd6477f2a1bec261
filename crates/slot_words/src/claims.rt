//! Slots are taken and given back.
ghost use Rattle.std.specs.Prelude.{◌≡◌, ◌<◌, ◌++◌, [], ◌∷◌, true, false, IfOk, OnErr};
ghost use Rattle.pool_core.specs.StateWords.{is_warm, is_awaiting, is_well_formed, packed, free_word};
ghost use Rattle.slot_words.specs.declared.views.Operation.TheVariants.{Claim, Release};
ghost use Rattle.slot_words.specs.Leases.{lease_number, lease_word};
ghost use Rattle.slot_words.specs.Parts.{Grew};
ghost use Rattle.slot_words.specs.Passes.{IsIdle, Holds, IsSamePass, share_of, trail};
ghost use Rattle.slot_words.specs.Owned.{IsPassOf, slots_of, passes_of};
ghost use Rattle.slot_words.specs.Rows.{IsLost, HasWon};

use crate::cores::core_laws;
use crate::leases::{Held, Lease};
use crate::outcomes::{Claiming, Releasing};
use crate::pooled::Pooled;
use crate::views::Pass;
use crate::words::Words;
use pool_core::{Target, pack};

impl<V: Pooled> Words<V> {
    /// Claims the slot of that number by one step, which sets the held bit of its word.
    ///
    /// # Errors
    ///
    /// [`Held`] exactly where the word that this step read had the bit: then no word has changed, and another pass has the slot.
    pub fn claim(&self, pass: &mut Pass<V>, n: u32) -> Result<Lease<V>, Held>
        requires own { IsPassOf self.now pass.old }
        requires idle { IsIdle pass.old }
        requires number { n < slots_of self.now }
        ensures same { IsSamePass pass.old pass.new }

        // the word read was not held
        ensures won { IfOk result (HasWon V.fits self.now pass.new) }
        ensures number { IfOk result (λ l. lease_number l ≡ n) }
        ensures trail { IfOk result (λ l. trail pass.new ≡ trail pass.old ++ Claim n (lease_word l) ∷ []) }

        // the word read was held, by another pass: one that stands for all of them never meets a held word
        ensures held { OnErr result (IsIdle pass.new × Grew (IsLost n) (trail pass.old) (trail pass.new)) }
        ensures another { OnErr result (share_of pass.old < passes_of self.now) }
    {
        core_laws();
        let read = self.table.shared.fetch_or::<Claiming>(pass, n as usize, 1);
        if read % 2 == 1 {
            return Err(Held);
        }
        match self.table.shared.exchange(pass, n as usize, None) {
            Some(value) => Ok(Lease {
                value,
                number: n,
                word: read,
            }),
            None => unreachable!(),
        }
    }

    /// Gives a slot back: its value goes home, and then its word becomes `to`, not held.
    pub fn release(&self, pass: &mut Pass<V>, lease: Lease<V>, to: Target)
        requires own { IsPassOf self.now pass.old }
        requires number { lease_number lease < slots_of self.now }
        requires holds { Holds pass.old (lease_number lease) (is_warm to.state) false (is_awaiting to.state) }
        requires target { is_well_formed to ≡ true }
        requires fits { V.fits to.state to.tag lease.value }
        ensures same { IsSamePass pass.old pass.new }
        ensures idle { IsIdle pass.new }
        ensures trail { trail pass.new ≡ trail pass.old ++ Release (lease_number lease) (packed (free_word to)) ∷ [] }
    {
        core_laws();
        let Lease {
            value,
            number,
            word: _,
        } = lease;
        let n = number as usize;
        match self.table.shared.exchange(pass, n, Some(value)) {
            None => {}
            Some(_) => unreachable!(),
        }
        let word = pack(to, false);
        self.table.shared.store::<Releasing>(pass, n, word);
    }
}
