//! How a slot of noted values is visited: taken for a module, used and given back.
ghost use Rattle.std.specs.Prelude.{◌≡◌, ◌<◌, false, IfOk, IfSome, OnErr, MatchOption};
ghost use Rattle.pool_core.specs.declared.words.StateWord.{StateWord};
ghost use Rattle.pool_core.specs.StateWords.{IsWordOf};
ghost use Rattle.slot_words.specs.Leases.{lease_number, lease_word};
ghost use Rattle.slot_words.specs.Passes.{IsIdle, IsSamePass, Holds};
ghost use Rattle.slot_words.specs.Owned.{IsPassOf, slots_of};

use crate::noted_values::Noted;
use decommit_batch::{hand_in, settle};
use slot_pools::{Full, Policy, give_cold, give_warm};
use slot_words::{Lease, Pass, Words};

// Claims slot n, and settles it where it was not held.
pub(crate) fn claimed(words: &Words<Noted>, pass: &mut Pass<Noted>, n: u32) -> Option<Lease<Noted>>
    requires own { IsPassOf words.now pass.old }
    requires idle { IsIdle pass.old }
    requires number { n < slots_of words.now }
    ensures same { IsSamePass pass.old pass.new }
    ensures won { MatchOption result (IsIdle pass.new) (λ l. (lease_number l ≡ n) × Holds pass.new n false false false) }
    ensures word { IfSome result (λ l. (w : StateWord) × IsWordOf (lease_word l) w) }
{
    let lease = words.claim(pass, n).ok()?;
    settle(words, pass, &lease);
    Some(lease)
}

// How slots are taken and given back.
#[derive(Clone, Copy)]
pub(crate) enum Kind {
    // By batches of so many.
    Batched(u32),
    Affine,
    Any,
}

use Kind::{Affine, Any, Batched};

pub(crate) fn take(
    words: &Words<Noted>,
    pass: &mut Pass<Noted>,
    kind: Kind,
    tag: u8,
) -> Result<Lease<Noted>, Full>
    requires own { IsPassOf words.now pass.old }
    requires idle { IsIdle pass.old }
    ensures same { IsSamePass pass.old pass.new }
    ensures number { IfOk result (λ l. lease_number l < slots_of words.now) }
    ensures holds { IfOk result (λ l. Holds pass.new (lease_number l) false false false) }
    ensures full { OnErr result (IsIdle pass.new) }
{
    let policy = match kind {
        Batched(_) => Policy::Batched(u32::from(tag)),
        Affine => Policy::Affine(u32::from(tag)),
        Any => Policy::Any,
    };
    slot_pools::take(words, pass, &(), policy)
}

// Uses the value for the module, and gives it back.
pub(crate) fn give(
    words: &Words<Noted>,
    pass: &mut Pass<Noted>,
    mut lease: Lease<Noted>,
    kind: Kind,
    tag: u8,
)
    requires own { IsPassOf words.now pass.old }
    requires number { lease_number lease < slots_of words.now }
    requires holds { Holds pass.old (lease_number lease) false false false }
    ensures same { IsSamePass pass.old pass.new }
    ensures idle { IsIdle pass.new }
{
    lease.value.tag = u32::from(tag);
    lease.value.visits = lease.value.visits.wrapping_add(1);
    match kind {
        Batched(batch) => {
            hand_in(words, pass, lease, &(), batch.max(1));
        }
        Affine => give_warm(words, pass, lease, &()),
        Any => give_cold(words, pass, lease),
    }
}

// The number of the slot that was taken for the module and given back, or none where the pool is full.
pub(crate) fn visit(
    words: &Words<Noted>,
    pass: &mut Pass<Noted>,
    kind: Kind,
    tag: u8,
) -> Option<u32>
    requires own { IsPassOf words.now pass.old }
    requires idle { IsIdle pass.old }
    ensures same { IsSamePass pass.old pass.new }
    ensures idle { IsIdle pass.new }
{
    let lease = take(words, pass, kind, tag).ok()?;
    let number = lease.number();
    give(words, pass, lease, kind, tag);
    Some(number)
}
