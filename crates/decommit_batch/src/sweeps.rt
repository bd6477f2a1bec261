//! The slots that a module left become cold.
ghost use Rattle.std.specs.Prelude.{◌≡◌, ◌<◌, ◌≤◌};
ghost use Rattle.std.specs.List.{count_by};
ghost use Rattle.pool_core.specs.declared.limits.TheConstants.{MOST_SLOTS};
ghost use Rattle.pool_core.specs.StateWords.{bit};
ghost use Rattle.slot_words.specs.Leases.{lease_number, lease_word};
ghost use Rattle.slot_words.specs.Parts.{Grew};
ghost use Rattle.slot_words.specs.Passes.{IsIdle, IsSamePass, trail};
ghost use Rattle.slot_words.specs.Owned.{IsPassOf, slots_of};
ghost use Rattle.slot_words.specs.Rows.{HasWon};
ghost use Rattle.decommit_batch.specs.Sweep.{finds_its_own, is_of_module, IsCleaned, IsCleaningTried, IsSweep, IsSweepPart};

use crate::settlement::settle;
use pool_core::{State, Target, unpack};
use slot_words::{Lease, Pass, Pooled, Words};

// Whether a slot that was left like this is of the module of this tag.
fn is_of_module(left: Target, tag: u32) -> bool
    ensures { result ≡ is_of_module tag left }
{
    match left.state {
        State::Cold => false,
        State::Warm | State::Awaiting => left.tag == tag,
    }
}

// Settles a slot that was won, clears its value and releases it cold.
fn clean<V: Pooled>(words: &Words<V>, pass: &mut Pass<V>, lease: Lease<V>)
    requires own { IsPassOf words.now pass.old }
    requires won { HasWon V.fits words.now pass.old lease }
    ensures same { IsSamePass pass.old pass.new }
    ensures idle { IsIdle pass.new }
    ensures trail { Grew (IsCleaned (lease_number lease) (lease_word lease)) (trail pass.old) (trail pass.new) }
{
    let mut lease = lease;
    settle(words, pass, &lease);
    lease.value.clear();
    words.release(pass, lease, Target::COLD);
}

// Claims a number that was seen free and of the module. True exactly where it was won, still of the module, and cleaned.
fn claim_own<V: Pooled>(words: &Words<V>, pass: &mut Pass<V>, tag: u32, n: u32) -> bool
    requires own { IsPassOf words.now pass.old }
    requires idle { IsIdle pass.old }
    requires number { n < slots_of words.now }
    ensures same { IsSamePass pass.old pass.new }
    ensures idle { IsIdle pass.new }
    ensures trail { Grew (λ done. IsCleaningTried tag n done × (bit result ≡ count_by (finds_its_own tag) done)) (trail pass.old) (trail pass.new) }
{
    let Ok(lease) = words.claim(pass, n) else {
        return false;
    };
    let (found, _) = unpack(lease.word());
    if is_of_module(found, tag) {
        clean(words, pass, lease);
        true
    } else {
        words.release(pass, lease, found);
        false
    }
}

// One number of a sweep, and whether its slot was cleaned.
fn sweep_number<V: Pooled>(words: &Words<V>, pass: &mut Pass<V>, tag: u32, n: u32) -> bool
    requires own { IsPassOf words.now pass.old }
    requires idle { IsIdle pass.old }
    requires number { n < slots_of words.now }
    ensures same { IsSamePass pass.old pass.new }
    ensures idle { IsIdle pass.new }
    ensures trail { Grew (λ done. IsSweepPart tag n done × (bit result ≡ count_by (finds_its_own tag) done)) (trail pass.old) (trail pass.new) }
{
    let (seen, held) = unpack(words.load(pass, n));
    if held || !is_of_module(seen, tag) {
        return false;
    }
    claim_own(words, pass, tag, n)
}

/// Makes each slot cold that it sees free and of the module of this tag, warm or awaiting, and that it wins while it is so. A slot that it wins and that is not of the module any more is left as it was. Tells how many slots it cleaned. It takes no memory and waits for nobody: a slot that another pass holds meanwhile stays as it is.
pub fn sweep<V: Pooled>(words: &Words<V>, pass: &mut Pass<V>, tag: u32) -> u32
    requires own { IsPassOf words.now pass.old }
    requires idle { IsIdle pass.old }
    ensures same { IsSamePass pass.old pass.new }
    ensures idle { IsIdle pass.new }
    ensures few { result ≤ MOST_SLOTS }
    ensures trail { Grew (IsSweep tag (slots_of words.now) result) (trail pass.old) (trail pass.new) }
{
    let mut cleaned = 0;
    for n in 0..words.slots() {
        if sweep_number(words, pass, tag, n) {
            cleaned += 1;
        }
    }
    cleaned
}
