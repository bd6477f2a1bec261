//! A used slot is handed in.
ghost use Rattle.std.specs.Prelude.{◌≡◌, ℕ, ◌+◌, ◌<◌, ◌≤◌, false};
ghost use Rattle.pool_core.specs.declared.words.State.TheVariants.{Awaiting};
ghost use Rattle.pool_core.specs.StateWords.{bit};
ghost use Rattle.slot_words.specs.Leases.{lease_number};
ghost use Rattle.slot_words.specs.Passes.{IsIdle, IsSamePass, Holds, trail};
ghost use Rattle.slot_words.specs.Owned.{IsPassOf, slots_of};
ghost use Rattle.decommit_batch.specs.Counts.{flushes_in};
ghost use Rattle.decommit_batch.specs.HandIn.{HandsIn};

use crate::flushes::flush;
use pool_core::{State, Target};
use slot_words::{Lease, Pass, Pooled, Words};

/// Gives a used slot back, to await its decommit. With `batch` of them awaiting, a flush follows, and the answer is true.
pub fn hand_in<V: Pooled>(
    words: &Words<V>,
    pass: &mut Pass<V>,
    lease: Lease<V>,
    images: &V::Images,
    batch: u32,
) -> bool
    requires own { IsPassOf words.now pass.old }
    requires number { lease_number lease < slots_of words.now }
    requires holds { Holds pass.old (lease_number lease) false false false }
    requires used { (tag : ℕ) × V.fits Awaiting tag lease.value }
    requires batch { 1 ≤ batch }
    ensures same { IsSamePass pass.old pass.new }
    ensures idle { IsIdle pass.new }
    ensures trail { HandsIn words.now (V.own_tag lease.value) batch lease pass.old pass.new }
    ensures told { flushes_in batch (trail pass.new) ≡ flushes_in batch (trail pass.old) + bit result }
{
    let waiting = words.await_up(pass);
    let stamp = words.stamp(pass);
    let to = Target {
        state: State::Awaiting,
        tag: lease.value.tag(),
        stamp,
    };
    words.release(pass, lease, to);
    let last = u64::from(batch - 1);
    if waiting < last {
        return false;
    }
    flush(words, pass, images);
    true
}
