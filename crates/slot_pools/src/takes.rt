//! A slot is taken.
ghost use Rattle.std.specs.Prelude.{◌<◌, ◌≤◌, IfOk, OnErr};
ghost use Rattle.pool_core.specs.declared.limits.TheConstants.{MOST_SLOTS};
ghost use Rattle.slot_words.specs.Passes.{IsIdle, IsSamePass, share_of};
ghost use Rattle.slot_words.specs.Owned.{IsPassOf, passes_of, slots_of};
ghost use Rattle.slot_words.specs.Rows.{HasTaken};
ghost use Rattle.slot_pools.specs.Takes.{FlushedAs, Takes, MeetsFull};

use crate::answers::{Full, Taken};
use crate::looks::read;
use crate::policy::Policy;
use crate::wins::win;
use decommit_batch::settle;
use pool_core::MOST_SLOTS;
use slot_words::{Lease, Pass, Pooled, Words};

// A take reads each slot's word into a row on its stack, and a row is zeroed before it is used. So a small pool's row is small: it has
// room for so many words, or for as many as a pool may have.
const FEW_SLOTS: usize = 16;

const MANY_SLOTS: usize = 128;

// [`take_telling`] of at most so many slots.
fn take_by_row<V: Pooled, const ROOM: usize>(
    words: &Words<V>,
    pass: &mut Pass<V>,
    images: &V::Images,
    policy: Policy,
) -> Result<Taken<V>, Full>
    requires own { IsPassOf words.now pass.old }
    requires idle { IsIdle pass.old }
    requires room { (slots_of words.now ≤ ROOM) × (ROOM ≤ MOST_SLOTS) }
    ensures same { IsSamePass pass.old pass.new }
    ensures taken { IfOk result (λ t. HasTaken V.fits words.now pass.new t.lease) }
    ensures trail { IfOk result (λ t. Takes words.now policy pass.old pass.new t.lease) }
    ensures told { IfOk result (λ t. FlushedAs t.flushed pass.old pass.new) }
    ensures full { OnErr result (MeetsFull words.now policy pass.old pass.new) }
    ensures another { OnErr result (share_of pass.old < passes_of words.now) }
{
    let mut row = [0; ROOM];
    let warm = read(words, pass, &mut row, policy);
    let seen = &row[..words.slots() as usize];
    let won = win(words, pass, images, seen, warm, policy)?;
    settle(words, pass, &won.lease);
    Ok(won)
}

/// Takes a slot by this policy: along the order that what it reads gives, and else, after a flush where slots may await, whichever is
/// won first.
///
/// # Errors
///
/// [`Full`] exactly where no claim was won, but for those of its flush. A pass that stands for all never meets it.
pub fn take<V: Pooled>(
    words: &Words<V>,
    pass: &mut Pass<V>,
    images: &V::Images,
    policy: Policy,
) -> Result<Lease<V>, Full>
    requires own { IsPassOf words.now pass.old }
    requires idle { IsIdle pass.old }
    ensures same { IsSamePass pass.old pass.new }

    // a claim was won, of the slot that the lease names
    ensures taken { IfOk result (HasTaken V.fits words.now pass.new) }
    ensures trail { IfOk result (Takes words.now policy pass.old pass.new) }

    // none was won, and other passes held the slots
    ensures full { OnErr result (MeetsFull words.now policy pass.old pass.new) }
    ensures another { OnErr result (share_of pass.old < passes_of words.now) }
{
    let Taken { lease, .. } = take_telling(words, pass, images, policy)?;
    Ok(lease)
}

/// Takes a slot as [`take`] does, and tells whether it flushed before it won it.
///
/// # Errors
///
/// [`Full`] as above. Where slots may await it flushed.
pub fn take_telling<V: Pooled>(
    words: &Words<V>,
    pass: &mut Pass<V>,
    images: &V::Images,
    policy: Policy,
) -> Result<Taken<V>, Full>
    requires own { IsPassOf words.now pass.old }
    requires idle { IsIdle pass.old }
    ensures same { IsSamePass pass.old pass.new }
    ensures taken { IfOk result (λ t. HasTaken V.fits words.now pass.new t.lease) }
    ensures trail { IfOk result (λ t. Takes words.now policy pass.old pass.new t.lease) }
    ensures told { IfOk result (λ t. FlushedAs t.flushed pass.old pass.new) }
    ensures full { OnErr result (MeetsFull words.now policy pass.old pass.new) }
    ensures another { OnErr result (share_of pass.old < passes_of words.now) }
{
    let slots = words.slots() as usize;
    if slots <= FEW_SLOTS {
        take_by_row::<V, FEW_SLOTS>(words, pass, images, policy)
    } else if slots <= MANY_SLOTS {
        take_by_row::<V, MANY_SLOTS>(words, pass, images, policy)
    } else {
        take_by_row::<V, MOST_SLOTS>(words, pass, images, policy)
    }
}
