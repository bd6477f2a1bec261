//! What a take reads before it claims.
ghost use Rattle.std.specs.Prelude.{◌≡◌, ◌≤◌, ◌++◌, ◌∷◌, length, take};
ghost use Rattle.slot_words.specs.declared.views.Operation.TheVariants.{WarmLoad};
ghost use Rattle.slot_words.specs.Passes.{IsSamePass, KeepsAll, trail};
ghost use Rattle.slot_words.specs.Owned.{IsPassOf, slots_of};
ghost use Rattle.slot_words.specs.Trails.{loads_from};
ghost use Rattle.slot_pools.specs.Looks.{AreWords};
ghost use Rattle.slot_pools.specs.LookWins.{reads};

use crate::policy::Policy;
use slot_words::{Pass, Pooled, Words};

// Reads the warm word, and then each slot's word into the row.
fn look<V: Pooled>(words: &Words<V>, pass: &mut Pass<V>, row: &mut [u64]) -> u64
    requires own { IsPassOf words.now pass.old }
    requires room { slots_of words.now ≤ length row.old }
    ensures same { IsSamePass pass.old pass.new }
    ensures keeps { KeepsAll pass.old pass.new }
    ensures len { length row.new ≡ length row.old }
    ensures words { AreWords (slots_of words.now) (take (slots_of words.now) row.new) }
    ensures trail { trail pass.new ≡ trail pass.old ++ WarmLoad result ∷ loads_from 0 (take (slots_of words.now) row.new) }
{
    let warm = words.warm_load(pass);
    words.scan_into(pass, row);
    warm
}

// Reads what a take of this policy does: each slot's word into the row, and the warm word before, where it looks.
pub(crate) fn read<V: Pooled>(
    words: &Words<V>,
    pass: &mut Pass<V>,
    row: &mut [u64],
    policy: Policy,
) -> u64
    requires own { IsPassOf words.now pass.old }
    requires room { slots_of words.now ≤ length row.old }
    ensures same { IsSamePass pass.old pass.new }
    ensures keeps { KeepsAll pass.old pass.new }
    ensures len { length row.new ≡ length row.old }
    ensures words { AreWords (slots_of words.now) (take (slots_of words.now) row.new) }
    ensures trail { trail pass.new ≡ trail pass.old ++ reads policy result (take (slots_of words.now) row.new) }
{
    match policy {
        Policy::Batched(_) => look(words, pass, row),
        Policy::Affine(_) => look(words, pass, row),
        Policy::Any => {
            words.scan_into(pass, row);
            0
        }
    }
}
