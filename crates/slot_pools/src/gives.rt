//! A slot is given back.
ghost use Rattle.std.specs.Prelude.{◌≡◌, ◌<◌, ℕ, false};
ghost use Rattle.pool_core.specs.declared.words.State.{State as AnyState};
ghost use Rattle.pool_core.specs.StateWords.{is_cold};
ghost use Rattle.slot_words.specs.Leases.{lease_number};
ghost use Rattle.slot_words.specs.Passes.{IsIdle, IsSamePass, Holds};
ghost use Rattle.slot_words.specs.Owned.{IsPassOf, slots_of};
ghost use Rattle.slot_pools.specs.Gives.{GivesWarm, GivesCold};

use pool_core::{State, Target};
use slot_words::{Lease, Pass, Pooled, Words};

/// Gives back the slot of a module: restored and warm for its tag where there is a permit, and else cleared and cold.
pub fn give_warm<V: Pooled>(
    words: &Words<V>,
    pass: &mut Pass<V>,
    lease: Lease<V>,
    images: &V::Images,
)
    requires own { IsPassOf words.now pass.old }
    requires number { lease_number lease < slots_of words.now }
    requires holds { Holds pass.old (lease_number lease) false false false }
    requires used { (s : AnyState) × (tag : ℕ) × (is_cold s ≡ false) × V.fits s tag lease.value }
    ensures same { IsSamePass pass.old pass.new }
    ensures idle { IsIdle pass.new }
    ensures trail { GivesWarm words.now (V.own_tag lease.value) lease pass.old pass.new }
{
    let mut lease = lease;
    if words.warm_up(pass) {
        lease.value.restore(images);
        let to = Target {
            state: State::Warm,
            tag: lease.value.tag(),
            stamp: words.stamp(pass),
        };
        words.release(pass, lease, to);
    } else {
        words.warm_down(pass);
        lease.value.clear();
        words.release(pass, lease, Target::COLD);
    }
}

/// Gives back a slot, cleared and cold.
pub fn give_cold<V: Pooled>(words: &Words<V>, pass: &mut Pass<V>, lease: Lease<V>)
    requires own { IsPassOf words.now pass.old }
    requires number { lease_number lease < slots_of words.now }
    requires holds { Holds pass.old (lease_number lease) false false false }
    ensures same { IsSamePass pass.old pass.new }
    ensures idle { IsIdle pass.new }
    ensures trail { GivesCold lease pass.old pass.new }
{
    let mut lease = lease;
    lease.value.clear();
    words.release(pass, lease, Target::COLD);
}
