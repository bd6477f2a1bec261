//! Awaiting slots become warm or cold.
ghost use Rattle.std.specs.Prelude.{◌≡◌, ◌<◌, false, true};
ghost use Rattle.pool_core.specs.StateWords.{is_well_formed, is_awaiting};
ghost use Rattle.slot_words.specs.Leases.{lease_number, lease_word};
ghost use Rattle.slot_words.specs.Parts.{Grew};
ghost use Rattle.slot_words.specs.Passes.{IsIdle, IsSamePass, Holds, trail};
ghost use Rattle.slot_words.specs.Owned.{IsPassOf, slots_of, limit_of};
ghost use Rattle.decommit_batch.specs.Flush.{IsFlush, IsFlushPart, IsTried, IsDecommit};

use pool_core::{State, Target, unpack};
use slot_words::{Lease, Pass, Pooled, Words};

// The value of an awaiting slot is restored where there is a permit, and else cleared.
fn decommit<V: Pooled>(
    words: &Words<V>,
    pass: &mut Pass<V>,
    images: &V::Images,
    lease: Lease<V>,
    found: Target,
)
    requires own { IsPassOf words.now pass.old }
    requires number { lease_number lease < slots_of words.now }
    requires holds { Holds pass.old (lease_number lease) false false true }
    requires found { (is_well_formed found ≡ true) × (is_awaiting found.state ≡ true) }
    requires fits { V.fits found.state found.tag lease.value }
    ensures same { IsSamePass pass.old pass.new }
    ensures idle { IsIdle pass.new }
    ensures trail { Grew (IsDecommit (limit_of words.now) (lease_number lease) found) (trail pass.old) (trail pass.new) }
{
    let mut lease = lease;
    words.await_down(pass);
    if words.warm_up(pass) {
        lease.value.restore(images);
        let warm = Target {
            state: State::Warm,
            ..found
        };
        words.release(pass, lease, warm);
    } else {
        words.warm_down(pass);
        lease.value.clear();
        words.release(pass, lease, Target::COLD);
    }
}

// Claims a number that was seen free and awaiting.
fn claim_awaiting<V: Pooled>(words: &Words<V>, pass: &mut Pass<V>, images: &V::Images, n: u32)
    requires own { IsPassOf words.now pass.old }
    requires idle { IsIdle pass.old }
    requires number { n < slots_of words.now }
    ensures same { IsSamePass pass.old pass.new }
    ensures idle { IsIdle pass.new }
    ensures trail { Grew (IsTried (limit_of words.now) n) (trail pass.old) (trail pass.new) }
{
    let Ok(lease) = words.claim(pass, n) else {
        return;
    };
    let (found, _) = unpack(lease.word());
    match found.state {
        State::Awaiting => decommit(words, pass, images, lease, found),
        State::Cold | State::Warm => words.release(pass, lease, found),
    }
}

// One number of a flush.
fn flush_number<V: Pooled>(words: &Words<V>, pass: &mut Pass<V>, images: &V::Images, n: u32)
    requires own { IsPassOf words.now pass.old }
    requires idle { IsIdle pass.old }
    requires number { n < slots_of words.now }
    ensures same { IsSamePass pass.old pass.new }
    ensures idle { IsIdle pass.new }
    ensures trail { Grew (IsFlushPart (limit_of words.now) n) (trail pass.old) (trail pass.new) }
{
    let (seen, held) = unpack(words.load(pass, n));
    if held {
        return;
    }
    match seen.state {
        State::Awaiting => claim_awaiting(words, pass, images, n),
        State::Cold | State::Warm => {}
    }
}

/// Makes each slot that it sees free and awaiting, and wins, warm where there is a permit, and else cold.
pub fn flush<V: Pooled>(words: &Words<V>, pass: &mut Pass<V>, images: &V::Images)
    requires own { IsPassOf words.now pass.old }
    requires idle { IsIdle pass.old }
    ensures same { IsSamePass pass.old pass.new }
    ensures idle { IsIdle pass.new }
    ensures trail { Grew (IsFlush (limit_of words.now) (slots_of words.now)) (trail pass.old) (trail pass.new) }
{
    for n in 0..words.slots() {
        flush_number(words, pass, images, n);
    }
}
