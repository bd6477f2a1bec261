//! What holds of the definitions alone. Each function does nothing of its own: its contract is the law.
ghost use Rattle.std.specs.Prelude.{ℕ, List};
ghost use Rattle.slot_words.specs.declared.views.Operation.{Operation};
ghost use Rattle.affinity_index.specs.Preference.{OwnComeFirst};
ghost use Rattle.slot_pools.specs.Looks.{IsLook};
ghost use Rattle.slot_pools.specs.declared.policy.Policy.{Policy};
ghost use Rattle.slot_pools.specs.declared.policy.Policy.TheVariants.{Batched, Affine, Any};
ghost use Rattle.slot_pools.specs.Takes.{IsTake, IsFullTake};
ghost use Rattle.slot_pools.specs.Causes.{FullAfterMark, FullAfterLook, FullAfterScan, LostToAnother};
ghost use Rattle.slot_pools.specs.LastClaims.{EndsWithClaim};
ghost use Rattle.slot_pools.specs.Preferring.{PrefersOwn};

use affinity_index::laws::own_warm_slots_come_first as own_come_first;
use pool_core::laws::the_lowest_bit_says_held;
use slot_words::Pooled;
use slot_words::laws::passes_share_the_words;

/// Where a take won nothing, it claimed each slot and found it held: after its flush mark where slots may await, and else after its scan.
pub fn full_has_its_cause()
    ensures batched { (limit slots tag : ℕ) (done : List Operation) → IsFullTake (Batched tag) limit slots done → FullAfterMark slots done }
    ensures affine { (limit slots tag : ℕ) (done : List Operation) → IsFullTake (Affine tag) limit slots done → FullAfterLook limit slots tag done }
    ensures any { (limit slots : ℕ) (done : List Operation) → IsFullTake Any limit slots done → FullAfterScan slots done }
{}

/// And each time it was another pass that held the slot.
pub fn lost_claims_are_lost_to_another<V: Pooled>()
    ensures { LostToAnother V.fits }
{
    passes_share_the_words::<V>();
    the_lowest_bit_says_held();
}

/// Where a take won a slot, its last claim names that slot, and read the word that the lease tells.
pub fn the_last_claim_names_the_slot()
    ensures { (policy : Policy) (limit slots n read : ℕ) (done : List Operation) → IsTake policy limit slots n read done → EndsWithClaim n read done }
{}

/// The slots that a take's scan saw free and warm for its module come first in its order.
pub fn own_warm_slots_come_first()
    ensures { (limit slots tag : ℕ) (order : List ℕ) (done : List Operation) → (look : IsLook limit slots tag order done) → OwnComeFirst tag look.seen order }
{
    own_come_first();
}

/// A take hands out a slot that its scan saw free and warm for its module, unless the claim of each such slot was lost.
pub fn takes_prefer_their_own()
    ensures batched { (limit slots tag n read : ℕ) (done : List Operation) → IsTake (Batched tag) limit slots n read done → PrefersOwn slots tag n done }
    ensures affine { (limit slots tag n read : ℕ) (done : List Operation) → IsTake (Affine tag) limit slots n read done → PrefersOwn slots tag n done }
{
    own_come_first();
}
