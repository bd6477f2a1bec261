//! How the bits are opened, split among passes, set and read.
ghost use Rattle.std.specs.Prelude.{◌≡◌, ◌≤◌, [], length, vec_capacity, IfOk, ◌+◌, ◌++◌, ◌↔◌, ◌<◌, ◌∷◌, cond, true};
ghost use Rattle.std.specs.List.{All};
ghost use Rattle.retired_tags.specs.Passes.{IsNewTagPass, passes_of, tags_of, IsTagPass, share_of, steps, trail, IsSameTagPass, StandsForAll};
ghost use Rattle.retired_tags.specs.Views.{first_view, view_left, view_given, view_joined, spent_view};
ghost use Rattle.retired_tags.specs.declared.views.TagStep.TheVariants.{RetireOr, RetireLoad};
ghost use Rattle.retired_tags.specs.Steps.{first_sets, HasSet, Knows};

use crate::outcomes::{Looking, Retiring};
use crate::setup::Setup;
use crate::tags::RetiredTags;
use crate::views::{TagPass, TagView};
use atomic_table::{Join, Split, Table};
use std::alloc::{AllocError, Global};

impl RetiredTags {
    /// A bit for each tag below `tags`, none set, and as many passes as are asked for. No other pass of these bits is ever made.
    ///
    /// # Errors
    ///
    /// [`AllocError`]: no memory was left.
    pub fn open(
        alloc: Global,
        tags: u32,
        passes: u32,
    ) -> Result<(RetiredTags, Vec<TagPass>), AllocError>
        requires tags { 1 ≤ tags }
        requires passes { 1 ≤ passes }
        ensures tags { IfOk result (λ o. tags_of o.0 ≡ tags) }
        ensures count { IfOk result (λ o. passes_of o.0 ≡ passes) }
        ensures passes { IfOk result (λ o. (length o.1.items ≡ passes) × All (IsNewTagPass o.0) o.1.items) }
    {
        let setup = Setup {
            tags: tags as u64,
            passes: passes as u64,
        };
        let mut all = Vec::with_capacity(alloc, passes as usize)?;
        let words = Vec::from_elem(alloc, 0u64, tags as usize)?;
        let (table, first) = Table::of_words(alloc, words.as_slice(), &setup)?;
        let bits = RetiredTags { table };
        bits.deal(first, passes, &mut all);
        Ok((bits, all))
    }

    // Splits the first pass, which stands for all, into one pass for each.
    fn deal(&self, mut first: TagPass, passes: u32, all: &mut Vec<TagPass>)
        requires first { (first.table_id ≡ self.now.table.shared.table_id) × (first.me ≡ (first_view self.now.table.shared.key.passes, [])) }
        requires passes { passes_of self.now ≡ passes }
        requires room { (1 ≤ passes) × (all.old.items ≡ []) × (passes ≤ vec_capacity all.old) }
        ensures count { length all.new.items ≡ passes }
        ensures each { All (IsNewTagPass self.now) all.new.items }
    {
        for _ in 1..passes {
            let next = self.split_pass(&mut first);
            all.push_reserved(next);
        }
        all.push_reserved(first);
    }

    pub(crate) fn split_pass(&self, pass: &mut TagPass) -> TagPass
        requires own { IsTagPass self.now pass.old }
        requires parts { (1 ≤ pass.old.me.0.unsplit) × (2 ≤ pass.old.me.0.share) }
        ensures left { (pass.new.table_id ≡ pass.old.table_id) × (pass.new.me ≡ (view_left pass.old.me.0, pass.old.me.1)) }
        ensures given { (result.table_id ≡ pass.old.table_id) × (result.me ≡ (view_given pass.old.me.0, [])) }
    {
        self.table.shared.split_seat::<Splitting>(pass)
    }

    /// Joins another pass of these bits into this one, which then stands for both and knows what both knew.
    pub fn join_pass(&self, pass: &mut TagPass, other: TagPass)
        requires own { IsTagPass self.now pass.old }
        requires other { IsTagPass self.now other }
        ensures own { IsTagPass self.now pass.new }
        ensures share { share_of pass.new ≡ share_of pass.old + share_of other }
        ensures trail { trail pass.new ≡ trail pass.old }
        ensures steps { steps pass.new ≡ steps pass.old ++ steps other }
    {
        self.table.shared.join_seat::<Joining>(pass, other);
    }

    /// Sets the bit of a tag by one step, and tells whether that step read it set. Takes no memory.
    pub fn retire(&self, pass: &mut TagPass, tag: u32) -> bool
        requires own { IsTagPass self.now pass.old }
        requires tag { tag < tags_of self.now }
        ensures same { IsSameTagPass pass.old pass.new }
        ensures trail { trail pass.new ≡ trail pass.old ++ RetireOr tag result ∷ [] }

        // what the pass knew to be set, this step read set
        ensures known { Knows tag (steps pass.old) → result ≡ true }

        // a pass that stands for all reads the bit set exactly where it set it itself
        ensures own_steps { StandsForAll self.now pass.old → (result ≡ true) ↔ HasSet tag (steps pass.old) }

        // of all steps one read the bit not set and set it
        ensures once { StandsForAll self.now pass.old → first_sets tag (steps pass.new) ≡ 1 }
    {
        self.table
            .shared
            .fetch_or::<Retiring>(pass, tag as usize, 1)
            == 1
    }

    /// Reads the bit of a tag by one step. Takes no memory.
    pub fn is_retired(&self, pass: &mut TagPass, tag: u32) -> bool
        requires own { IsTagPass self.now pass.old }
        requires tag { tag < tags_of self.now }
        ensures same { IsSameTagPass pass.old pass.new }
        ensures trail { trail pass.new ≡ trail pass.old ++ RetireLoad tag result ∷ [] }

        // what the pass knew to be set, this step read set
        ensures known { Knows tag (steps pass.old) → result ≡ true }

        // a pass that stands for all reads the bit set exactly where it set it itself
        ensures own_steps { StandsForAll self.now pass.old → (result ≡ true) ↔ HasSet tag (steps pass.old) }

        // of all steps one read the bit not set and set it, where it is set
        ensures once { StandsForAll self.now pass.old → first_sets tag (steps pass.new) ≡ cond result 1 0 }
    {
        self.table.shared.load::<Looking>(pass, tag as usize) == 1
    }
}

pub(crate) struct Splitting;

impl Split<TagView> for Splitting {
    ghost left = { view_left };

    ghost right = { view_given };
}

pub(crate) struct Joining;

impl Join<TagView> for Joining {
    ghost both = { view_joined };

    ghost spent = { spent_view };
}
