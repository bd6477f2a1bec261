//! What came with a slot that was won is given back.
ghost use Rattle.slot_words.specs.Leases.{lease_word};
ghost use Rattle.slot_words.specs.Parts.{Grew};
ghost use Rattle.slot_words.specs.Passes.{IsSamePass, trail};
ghost use Rattle.slot_words.specs.Owned.{IsPassOf};
ghost use Rattle.slot_words.specs.Rows.{HasWon, HasTaken};
ghost use Rattle.decommit_batch.specs.Settle.{IsSettled};

use pool_core::{State, unpack};
use slot_words::{Lease, Pass, Pooled, Words};

/// Gives back the permit or the mark that came with a slot that was won.
pub fn settle<V: Pooled>(words: &Words<V>, pass: &mut Pass<V>, lease: &Lease<V>)
    requires own { IsPassOf words.now pass.old }
    requires won { HasWon V.fits words.now pass.old lease.now }
    ensures same { IsSamePass pass.old pass.new }
    ensures taken { HasTaken V.fits words.now pass.new lease.now }
    ensures trail { Grew (IsSettled (lease_word lease.now)) (trail pass.old) (trail pass.new) }
{
    let (found, _) = unpack(lease.word());
    match found.state {
        State::Cold => {}
        State::Warm => words.warm_down(pass),
        State::Awaiting => words.await_down(pass),
    }
}
