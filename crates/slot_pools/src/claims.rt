//! Claims along the order of what was seen, until one is won.
ghost use Rattle.std.specs.Prelude.{◌≡◌, ◌<◌, ◌%◌, ◌==◌, ◌++◌, ◌∷◌, [], MatchBool, length, IfOk, OnErr};
ghost use Rattle.slot_words.specs.declared.views.Operation.TheVariants.{Claim};
ghost use Rattle.slot_words.specs.Leases.{lease_number, lease_word};
ghost use Rattle.slot_words.specs.Parts.{Grew};
ghost use Rattle.slot_words.specs.Passes.{IsIdle, IsSamePass, trail};
ghost use Rattle.slot_words.specs.Owned.{IsPassOf, slots_of};
ghost use Rattle.slot_words.specs.Rows.{HasWon, IsLost};
ghost use Rattle.affinity_index.specs.Unheld.{unheld};
ghost use Rattle.slot_pools.specs.Rows.{AreLost};
ghost use Rattle.slot_pools.specs.Looks.{AreWords};
ghost use Rattle.slot_pools.specs.LookWins.{AlongOrder, AlongSeen, WinsAlong};

use crate::policy::Policy;
use crate::rows::AllHeld;
use affinity_index::laws::each_scan_has_its_order;
use affinity_index::{first_in_order, next_in_order};
use slot_words::{Held, Lease, Pass, Pooled, Words};

// Claims along the order for the module of this tag. What comes next in it is looked for only where a claim is lost.
fn claim_in_order<V: Pooled>(
    words: &Words<V>,
    pass: &mut Pass<V>,
    seen: &[u64],
    warm: u64,
    tag: u32,
) -> Result<Lease<V>, AllHeld>
    requires own { IsPassOf words.now pass.old }
    requires idle { IsIdle pass.old }
    requires words { AreWords (slots_of words.now) seen.now }
    ensures same { IsSamePass pass.old pass.new }
    ensures won { IfOk result (HasWon V.fits words.now pass.new) }
    ensures trail { IfOk result (λ l. Grew (AlongOrder words.now tag warm seen.now (WinsAlong l)) (trail pass.old) (trail pass.new)) }
    ensures held { OnErr result (IsIdle pass.new × Grew (AlongOrder words.now tag warm seen.now AreLost) (trail pass.old) (trail pass.new)) }
{
    each_scan_has_its_order();
    let limit = words.limit();
    let mut next = first_in_order(seen, tag, warm, limit);
    for _ in 0..words.slots() {
        let Some(n) = next else {
            return Err(AllHeld);
        };
        if let Ok(lease) = words.claim(pass, n) {
            return Ok(lease);
        }
        next = next_in_order(seen, tag, warm, limit, n);
    }
    Err(AllHeld)
}

// Claims a number, unless this word of its slot says that it is held.
fn claim_unheld<V: Pooled>(
    words: &Words<V>,
    pass: &mut Pass<V>,
    n: u32,
    word: u64,
) -> Result<Lease<V>, Held>
    requires own { IsPassOf words.now pass.old }
    requires idle { IsIdle pass.old }
    requires number { n < slots_of words.now }
    ensures same { IsSamePass pass.old pass.new }
    ensures won { IfOk result (HasWon V.fits words.now pass.new) }
    ensures number { IfOk result (λ l. (lease_number l ≡ n) × (word % 2 ≡ 0)) }
    ensures trail { IfOk result (λ l. trail pass.new ≡ trail pass.old ++ Claim n (lease_word l) ∷ []) }
    ensures idle { OnErr result (IsIdle pass.new) }

    // the claim was lost, or there was none
    ensures held { OnErr result (MatchBool (word % 2 == 0) (Grew (IsLost n) (trail pass.old) (trail pass.new)) (trail pass.new ≡ trail pass.old)) }
{
    if word % 2 == 1 {
        return Err(Held);
    }
    words.claim(pass, n)
}

// Claims the numbers that were seen not held, rising.
fn claim_first_unheld<V: Pooled>(
    words: &Words<V>,
    pass: &mut Pass<V>,
    seen: &[u64],
) -> Result<Lease<V>, AllHeld>
    requires own { IsPassOf words.now pass.old }
    requires idle { IsIdle pass.old }
    requires seen { length seen.now ≡ slots_of words.now }
    ensures same { IsSamePass pass.old pass.new }
    ensures won { IfOk result (HasWon V.fits words.now pass.new) }
    ensures trail { IfOk result (λ l. Grew (WinsAlong l (unheld seen.now)) (trail pass.old) (trail pass.new)) }
    ensures held { OnErr result (IsIdle pass.new × Grew (AreLost (unheld seen.now)) (trail pass.old) (trail pass.new)) }
{
    for n in 0..words.slots() {
        if let Ok(lease) = claim_unheld(words, pass, n, seen[n as usize]) {
            return Ok(lease);
        }
    }
    Err(AllHeld)
}

// Claims along the order that a take of this policy has by what it read.
pub(crate) fn claim_seen<V: Pooled>(
    words: &Words<V>,
    pass: &mut Pass<V>,
    seen: &[u64],
    warm: u64,
    policy: Policy,
) -> Result<Lease<V>, AllHeld>
    requires own { IsPassOf words.now pass.old }
    requires idle { IsIdle pass.old }
    requires words { AreWords (slots_of words.now) seen.now }
    ensures same { IsSamePass pass.old pass.new }
    ensures won { IfOk result (HasWon V.fits words.now pass.new) }
    ensures trail { IfOk result (λ l. Grew (AlongSeen words.now policy warm seen.now (WinsAlong l)) (trail pass.old) (trail pass.new)) }
    ensures held { OnErr result (IsIdle pass.new × Grew (AlongSeen words.now policy warm seen.now AreLost) (trail pass.old) (trail pass.new)) }
{
    match policy {
        Policy::Batched(tag) => claim_in_order(words, pass, seen, warm, tag),
        Policy::Affine(tag) => claim_in_order(words, pass, seen, warm, tag),
        Policy::Any => claim_first_unheld(words, pass, seen),
    }
}
