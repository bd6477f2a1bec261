//! Seats are split off and joined.
ghost use Rattle.std.specs.Prelude.{◌≡◌, ◌+◌, ◌++◌, ◌≤◌, []};
ghost use Rattle.slot_words.specs.Views.{view_left, view_given, view_joined, spent_view};
ghost use Rattle.slot_words.specs.Passes.{IsIdle, trail, joined_trails, trails, share_of, seat_number};
ghost use Rattle.slot_words.specs.Owned.{IsPassOf};

use crate::cores::core_laws;
use crate::pooled::Pooled;
use crate::views::{Pass, PassView};
use crate::words::Words;
use atomic_table::{Join, Split};

pub(crate) struct Splitting;

impl Split<PassView> for Splitting {
    ghost left = { view_left };

    ghost right = { view_given };
}

pub(crate) struct Joining;

impl Join<PassView> for Joining {
    ghost both = { view_joined };

    ghost spent = { spent_view };
}

impl<V: Pooled> Words<V> {
    pub(crate) fn split_pass(&self, pass: &mut Pass<V>) -> Pass<V>
        requires own { pass.old.table_id ≡ self.now.table.shared.table_id }
        requires idle { IsIdle pass.old }
        requires parts { (1 ≤ pass.old.me.0.unsplit) × (2 ≤ pass.old.me.0.share) }
        ensures left { (pass.new.table_id ≡ pass.old.table_id) × (pass.new.me ≡ (view_left pass.old.me.0, pass.old.me.1)) }
        ensures given { (result.table_id ≡ pass.old.table_id) × (result.me ≡ (view_given pass.old.me.0, [])) }
    {
        core_laws();
        self.table.shared.split_seat::<Splitting>(pass)
    }

    /// Joins another pass of these words into this one, which then stands for both.
    pub fn join_pass(&self, pass: &mut Pass<V>, other: Pass<V>)
        requires own { IsPassOf self.now pass.old }
        requires idle { IsIdle pass.old }
        requires other { IsPassOf self.now other × IsIdle other }
        ensures own { IsPassOf self.now pass.new }
        ensures idle { IsIdle pass.new }
        ensures share { share_of pass.new ≡ share_of pass.old + share_of other }
        ensures number { seat_number pass.new ≡ seat_number pass.old }
        ensures trail { trail pass.new ≡ trail pass.old }
        ensures joined { joined_trails pass.new ≡ joined_trails pass.old ++ trails other }
    {
        core_laws();
        self.table.shared.join_seat::<Joining>(pass, other);
    }
}
