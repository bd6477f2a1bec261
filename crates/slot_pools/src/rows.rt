//! Claims of some numbers, one after another.
ghost use Rattle.std.specs.Prelude.{◌<◌, IfOk, OnErr};
ghost use Rattle.slot_words.specs.Parts.{Grew};
ghost use Rattle.slot_words.specs.Passes.{IsIdle, IsSamePass, share_of, trail};
ghost use Rattle.slot_words.specs.Owned.{IsPassOf, slots_of, passes_of};
ghost use Rattle.slot_words.specs.Rows.{HasWon};
ghost use Rattle.slot_pools.specs.Rows.{AreLost};
ghost use Rattle.slot_pools.specs.Wins.{all_numbers};
ghost use Rattle.slot_pools.specs.LookWins.{WinsAlong};

use slot_words::{Lease, Pass, Pooled, Words};

// Each slot was held as it was claimed.
#[derive(Drop)]
pub(crate) struct AllHeld;

// Claims 0, 1, .. until one is won: `AllHeld` exactly where each number was claimed and each claim read a held word. A pass that stands for all never meets it.
pub(crate) fn claim_any<V: Pooled>(
    words: &Words<V>,
    pass: &mut Pass<V>,
) -> Result<Lease<V>, AllHeld>
    requires own { IsPassOf words.now pass.old }
    requires idle { IsIdle pass.old }
    ensures same { IsSamePass pass.old pass.new }
    ensures won { IfOk result (HasWon V.fits words.now pass.new) }
    ensures trail { IfOk result (λ l. Grew (WinsAlong l (all_numbers (slots_of words.now))) (trail pass.old) (trail pass.new)) }
    ensures held { OnErr result (IsIdle pass.new × Grew (AreLost (all_numbers (slots_of words.now))) (trail pass.old) (trail pass.new)) }
    ensures another { OnErr result (share_of pass.old < passes_of words.now) }
{
    for n in 0..words.slots() {
        if let Ok(lease) = words.claim(pass, n) {
            return Ok(lease);
        }
    }
    Err(AllHeld)
}
