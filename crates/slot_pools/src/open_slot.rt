//! A pool is opened.
ghost use Rattle.std.specs.Prelude.{◌≡◌, ◌≤◌, length, IfOk};
ghost use Rattle.std.specs.List.{All};
ghost use Rattle.pool_core.specs.declared.limits.TheConstants.{MOST_SLOTS};
ghost use Rattle.pool_core.specs.declared.words.State.TheVariants.{Cold};
ghost use Rattle.slot_words.specs.Owned.{IsNewPassOf, limit_of, passes_of, slots_of};

use pool_core::NoMemory;
use slot_words::{Pass, Pooled, Words};
use std::alloc::Global;

/// A value that a pool makes as it opens.
pub trait OpenSlot: Pooled {
    /// A cold value.
    ///
    /// # Errors
    ///
    /// [`NoMemory`] where memory is refused.
    fn open(alloc: Global, images: &Self::Images) -> Result<Self, NoMemory>
        ensures cold { IfOk result (Self.fits Cold 0) };
}

// So many cold values.
fn cold_values<V: OpenSlot + Drop>(
    alloc: Global,
    images: &V::Images,
    count: u32,
) -> Result<Vec<V>, NoMemory>
    ensures { IfOk result (λ values. (length values.items ≡ count) × All (V.fits Cold 0) values.items) }
{
    let mut values = Vec::with_capacity(alloc, count as usize).map_err(|_| NoMemory)?;
    for _ in 0..count {
        let value = V::open(alloc, images)?;
        values.push_reserved(value);
    }
    Ok(values)
}

/// A pool of so many cold values, of which at most `warm` are warm while no pass has them, and as many passes as are asked for. No other pass of this pool is ever made.
///
/// # Errors
///
/// [`NoMemory`] where memory is refused.
pub fn open<V: OpenSlot + Drop>(
    alloc: Global,
    images: &V::Images,
    count: u32,
    warm: u32,
    passes: u32,
) -> Result<(Words<V>, Vec<Pass<V>>), NoMemory>
    requires count { (1 ≤ count) × (count ≤ MOST_SLOTS) }
    requires passes { 1 ≤ passes }
    ensures slots { IfOk result (λ o. slots_of o.0 ≡ count) }
    ensures limit { IfOk result (λ o. limit_of o.0 ≡ warm) }
    ensures count { IfOk result (λ o. passes_of o.0 ≡ passes) }
    ensures passes { IfOk result (λ o. (length o.1.items ≡ passes) × All (IsNewPassOf o.0) o.1.items) }
{
    let values = cold_values(alloc, images, count)?;
    Words::open(alloc, images, values, warm, passes)
}
