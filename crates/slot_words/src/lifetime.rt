//! A `Words` from its opening to its closing, and what it keeps for good.
ghost use Rattle.std.specs.Prelude.{◌≡◌, ◌+◌, ◌≤◌, List, ◌-◌, ◌^◌, ◌<◌, Some, [], map, length, vec_capacity, IfOk};
ghost use Rattle.pool_core.specs.declared.limits.TheConstants.{MOST_SLOTS};
ghost use Rattle.std.specs.List.{All};
ghost use Rattle.pool_core.specs.declared.words.State.TheVariants.{Cold};
ghost use Rattle.slot_words.specs.Views.{first_view};
ghost use Rattle.slot_words.specs.Owned.{IsNewPassOf, slots_of, limit_of, passes_of, IsPassOf};
ghost use Rattle.std.specs.Slots.{IsFull};
ghost use Rattle.slot_words.specs.Closing.{ClosesAs, CountsLeft};
ghost use Rattle.slot_words.specs.Passes.{IsIdle, operations, share_of, trails};

use crate::cores::core_laws;
use crate::kinds::{KindCounts, count_kinds};
use crate::pooled::Pooled;
use crate::views::{Bounds, Pass};
use crate::words::Words;
use atomic_table::{Closed, Refused, Table};
use pool_core::{MOST_SLOTS, NoMemory};
use std::alloc::{AllocError, Global};

// A slot for each value.
fn in_slots<V: Drop>(alloc: Global, mut values: Vec<V>) -> Result<Vec<Option<V>>, AllocError>
    ensures { IfOk result (λ s. s.items ≡ map (λ x. Some x) values.items) }
{
    let mut slots = Vec::with_capacity(alloc, values.len())?;
    while let Some(value) = values.pop() {
        slots.push_reserved(Some(value));
    }
    slots.reverse();
    Ok(slots)
}

impl<V: Pooled + Drop> Words<V> {
    /// Puts each value into a slot of its own, cold and not held, and hands out as many passes as are asked for. No other pass of these words is ever made. At most `warm` slots may be warm. Whatever restores the values has the type of `images`.
    ///
    /// # Errors
    ///
    /// [`NoMemory`]: no memory was left. The values are dropped.
    pub fn open(
        alloc: Global,
        _images: &V::Images,
        values: Vec<V>,
        warm: u32,
        passes: u32,
    ) -> Result<(Words<V>, Vec<Pass<V>>), NoMemory>
        requires count { (1 ≤ length values.items) × (length values.items ≤ MOST_SLOTS) }
        requires passes { 1 ≤ passes }
        requires cold { All (λ x. V.fits Cold 0 x) values.items }
        ensures slots { IfOk result (λ o. slots_of o.0 ≡ length values.items) }
        ensures limit { IfOk result (λ o. limit_of o.0 ≡ warm) }
        ensures count { IfOk result (λ o. passes_of o.0 ≡ passes) }
        ensures passes { IfOk result (λ o. (length o.1.items ≡ passes) × All (IsNewPassOf o.0) o.1.items) }
    {
        let count = values.len();
        let bounds = Bounds {
            limit: warm as u64,
            passes: passes as u64,
        };
        let slots = in_slots(alloc, values)?;
        let mut all = Vec::with_capacity(alloc, passes as usize)?;
        let (words, first) = Words::start(alloc, &bounds, slots, count)?;
        words.deal(first, passes, &mut all);
        Ok((words, all))
    }

    fn start(
        alloc: Global,
        bounds: &Bounds,
        slots: Vec<Option<V>>,
        count: usize,
    ) -> Result<(Words<V>, Pass<V>), AllocError>
        requires count { (1 ≤ count) × (count ≤ MOST_SLOTS) }
        requires passes { (1 ≤ bounds.now.passes) × (bounds.now.passes < 2 ^ 32) }
        requires values { (xs : List V) × (slots.items ≡ map (λ x. Some x) xs) × (length xs ≡ count) × All (λ x. V.fits Cold 0 x) xs }
        ensures words { IfOk result (λ o. (o.0.table.shared.key ≡ bounds.now) × (o.0.slots ≡ count)) }
        ensures pass { IfOk result (λ o. (o.1.table_id ≡ o.0.table.shared.table_id) × (o.1.me ≡ (first_view bounds.now, []))) }
    {
        core_laws();
        let words = Vec::from_elem(alloc, 0u64, count + 3)?;
        match Table::new(alloc, words.as_slice(), slots, bounds) {
            Ok((table, pass)) => Ok((
                Words {
                    table,
                    slots: count,
                    limit: bounds.limit,
                },
                pass,
            )),
            Err(Refused { slots: _ }) => Err(AllocError),
        }
    }

    // Splits the first pass, which stands for all, into one pass for each.
    fn deal(&self, mut first: Pass<V>, passes: u32, all: &mut Vec<Pass<V>>)
        requires first { (first.table_id ≡ self.now.table.shared.table_id) × (first.me ≡ (first_view self.now.table.shared.key, [])) }
        requires passes { passes_of self.now ≡ passes }
        requires room { (1 ≤ passes) × (all.old.items ≡ []) × (passes ≤ vec_capacity all.old) }
        ensures count { length all.new.items ≡ passes }
        ensures each { All (IsNewPassOf self.now) all.new.items }
    {
        for _ in 1..passes {
            let next = self.split_pass(&mut first);
            all.push_reserved(next);
        }
        all.push_reserved(first);
    }

    /// Ends all seats and counts the state words as they stand. The values are dropped.
    ///
    /// The words are those at the end of one list of events from the opening, of which this pass's trail, and each that was joined into it, is what its seat noted. The held ones are what the other passes kept, each one slot at most. With all passes joined into this one, the words are those that their operations left, and none is held.
    pub fn close(self, pass: Pass<V>) -> KindCounts
        requires own { IsPassOf self pass }
        requires idle { IsIdle pass }
        ensures counts { ClosesAs (slots_of self) (limit_of self) (passes_of self) (share_of pass) (trails pass) result }
        ensures joined { share_of pass ≡ passes_of self → CountsLeft (slots_of self) (operations pass) result }
        ensures held { result.held + share_of pass ≤ passes_of self }
    {
        core_laws();
        let Words {
            table,
            slots,
            limit: _,
        } = self;
        let closed = table.close_with(pass);
        let counts = count_kinds(&closed, slots);
        discard(closed);
        counts
    }
}

fn discard<S: Drop>(mut closed: Closed<S, Global>)
    requires { IsFull closed.slots }
{
    let mut i = 0;
    while i < closed.slot_count() {
        drop(closed.take(i));
        i += 1;
    }
    closed.free();
}

impl<V: Pooled> Words<V> {
    /// How many slots there are.
    pub fn slots(&self) -> u32
        ensures is { result ≡ slots_of self.now }
        ensures some { 1 ≤ result }
        ensures few { result ≤ MOST_SLOTS }
    {
        self.slots as u32
    }

    /// The most slots that may be warm.
    pub fn limit(&self) -> u64
        ensures { result ≡ limit_of self.now }
    {
        self.limit
    }
}
