//! Claims of slots until one is won.
ghost use Rattle.std.specs.Prelude.{◌<◌, IfOk, OnErr};
ghost use Rattle.slot_words.specs.Parts.{Grew};
ghost use Rattle.slot_words.specs.Passes.{IsIdle, IsSamePass, share_of, trail};
ghost use Rattle.slot_words.specs.Owned.{IsPassOf, slots_of, passes_of};
ghost use Rattle.slot_words.specs.Rows.{HasWon};
ghost use Rattle.slot_pools.specs.Rows.{AreLost};
ghost use Rattle.slot_pools.specs.Looks.{AreWords};
ghost use Rattle.slot_pools.specs.Takes.{FlushedAs};
ghost use Rattle.slot_pools.specs.LookWins.{AfterFlush, AlongSeen, LastTry, LosesBy, WinsAlong, WinsBy};

use crate::answers::Taken;
use crate::claims::claim_seen;
use crate::policy::Policy;
use crate::rows::{AllHeld, claim_any};
use decommit_batch::flush;
use slot_words::{Lease, Pass, Pooled, Words};

// Sets the flush mark, flushes, and claims each number until one is won.
fn claim_after_flush<V: Pooled>(
    words: &Words<V>,
    pass: &mut Pass<V>,
    images: &V::Images,
) -> Result<Lease<V>, AllHeld>
    requires own { IsPassOf words.now pass.old }
    requires idle { IsIdle pass.old }
    ensures same { IsSamePass pass.old pass.new }
    ensures won { IfOk result (HasWon V.fits words.now pass.new) }
    ensures trail { IfOk result (λ l. Grew (AfterFlush words.now (WinsAlong l)) (trail pass.old) (trail pass.new)) }
    ensures held { OnErr result (IsIdle pass.new × Grew (AfterFlush words.now AreLost) (trail pass.old) (trail pass.new)) }
    ensures another { OnErr result (share_of pass.old < passes_of words.now) }
{
    words.await_load(pass);
    flush(words, pass, images);
    claim_any(words, pass)
}

// Claims each number until one is won, where slots may await after the flush mark and a flush.
fn claim_last<V: Pooled>(
    words: &Words<V>,
    pass: &mut Pass<V>,
    images: &V::Images,
    policy: Policy,
) -> Result<Lease<V>, AllHeld>
    requires own { IsPassOf words.now pass.old }
    requires idle { IsIdle pass.old }
    ensures same { IsSamePass pass.old pass.new }
    ensures won { IfOk result (HasWon V.fits words.now pass.new) }
    ensures trail { IfOk result (λ l. Grew (LastTry words.now policy (WinsAlong l)) (trail pass.old) (trail pass.new)) }
    ensures held { OnErr result (IsIdle pass.new × Grew (LastTry words.now policy AreLost) (trail pass.old) (trail pass.new)) }
    ensures another { OnErr result (share_of pass.old < passes_of words.now) }
{
    match policy {
        Policy::Batched(_) => claim_after_flush(words, pass, images),
        Policy::Affine(_) => claim_any(words, pass),
        Policy::Any => claim_any(words, pass),
    }
}

// Claims along the order of what was read, and then along all numbers, until one is won. Tells whether a flush came between.
pub(crate) fn win<V: Pooled>(
    words: &Words<V>,
    pass: &mut Pass<V>,
    images: &V::Images,
    seen: &[u64],
    warm: u64,
    policy: Policy,
) -> Result<Taken<V>, AllHeld>
    requires own { IsPassOf words.now pass.old }
    requires idle { IsIdle pass.old }
    requires words { AreWords (slots_of words.now) seen.now }
    ensures same { IsSamePass pass.old pass.new }
    ensures won { IfOk result (λ t. HasWon V.fits words.now pass.new t.lease) }
    ensures trail { IfOk result (λ t. Grew (AlongSeen words.now policy warm seen.now (WinsBy words.now policy t.lease)) (trail pass.old) (trail pass.new)) }
    ensures told { IfOk result (λ t. FlushedAs t.flushed pass.old pass.new) }
    ensures idle { OnErr result (IsIdle pass.new) }
    ensures held { OnErr result (Grew (AlongSeen words.now policy warm seen.now (LosesBy words.now policy)) (trail pass.old) (trail pass.new)) }
    ensures another { OnErr result (share_of pass.old < passes_of words.now) }
{
    if let Ok(lease) = claim_seen(words, pass, seen, warm, policy) {
        return Ok(Taken {
            lease,
            flushed: false,
        });
    }
    let lease = claim_last(words, pass, images, policy)?;
    Ok(Taken {
        lease,
        flushed: policy.flushes_last(),
    })
}
