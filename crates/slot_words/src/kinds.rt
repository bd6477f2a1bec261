//! How many slots there are of each kind.
ghost use Rattle.std.specs.Prelude.{◌≡◌, ◌+◌, ◌<◌, ◌≤◌, ◌^◌, length, List, ℕ};
ghost use Rattle.std.specs.Slots.{slots_items, slots_len, IsFull};
ghost use Rattle.pool_core.specs.declared.words.StateWord.{StateWord};
ghost use Rattle.slot_words.specs.KindCounts.{kind_counts, counts_with, BeginsWith};

use atomic_table::Closed;
use pool_core::{MOST_SLOTS, State, Target, unpack};
use std::alloc::Global;

/// How many state words say each kind. A held word is counted as held alone.
#[derive(Clone, Copy, PartialEq, Eq, Debug, Drop)]
pub struct KindCounts {
    pub cold: u32,
    pub warm: u32,
    pub awaiting: u32,
    pub held: u32,
}

impl KindCounts {
    // No word.
    pub(crate) const NONE: KindCounts = KindCounts {
        cold: 0,
        warm: 0,
        awaiting: 0,
        held: 0,
    };

    // One word more.
    pub(crate) fn with(mut self, target: Target, held: bool) -> KindCounts
        requires { (self.cold < MOST_SLOTS) × (self.warm < MOST_SLOTS) × (self.awaiting < MOST_SLOTS) × (self.held < MOST_SLOTS) }
        ensures { result ≡ counts_with self (record { target = target; held = held }) }
    {
        if held {
            self.held += 1;
            return self;
        }
        match target.state {
            State::Cold => self.cold += 1,
            State::Warm => self.warm += 1,
            State::Awaiting => self.awaiting += 1,
        }
        self
    }
}

// Counts the first `slots` words of a table that was taken apart.
pub(crate) fn count_kinds<S>(closed: &Closed<S, Global>, slots: usize) -> KindCounts
    requires full { IsFull closed.now.words × (slots ≤ slots_len closed.now.words) × (slots ≤ MOST_SLOTS) }
    requires words { (ws : List StateWord) × (length ws ≡ slots) × BeginsWith (slots_items closed.now.words) ws }
    ensures { (ws : List StateWord) → length ws ≡ slots → BeginsWith (slots_items closed.now.words) ws → result ≡ kind_counts ws }
{
    let mut counts = KindCounts::NONE;
    for i in 0..slots {
        let (target, held) = unpack(closed.word(i));
        counts = counts.with(target, held);
    }
    counts
}
