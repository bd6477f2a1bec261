//! What holds of every pool. Each function does nothing: its contract is the law.
ghost use Rattle.std.specs.Prelude.{◌≡◌, ◌+◌, ◌≤◌, ℕ};
ghost use Rattle.std.specs.List.{count_by};
ghost use Rattle.pool_core.specs.PoolCore.{PoolCore};
ghost use Rattle.pool_core.specs.EventEffects.{core_after};
ghost use Rattle.pool_core.specs.Changes.{ChangesOnly, MovesByOne, LeavesLive, OutChangesNothingElse};
ghost use Rattle.pool_core.specs.RefusalRules.{refusal_of, IsLeastRule};
ghost use Rattle.pool_core.specs.Lawful.{Lawful, is_free_warm, has_permit};
ghost use Rattle.pool_core.specs.Laws.{OpeningIsLawful, OpensCold, OpensUnmade, EventsKeepLawful, RunsKeepLawful, RunsFromOpeningAreLawful, OneSeatHolds, SeatsHoldWords, HeldWordsHaveSeats, BitsSayOneWord, BitsSayTheWord, LowestBitSaysHeld, LowestBitMakesHeld};
ghost use Rattle.pool_core.specs.StateWords.{stamp_bound, tag_bound};
ghost use Rattle.pool_core.specs.declared.limits.TheConstants.{MOST_SLOTS, STAMP_LIMIT, TAG_LIMIT};
ghost use Rattle.pool_core.specs.declared.events.Event.{Event as AnyEvent};

use crate::pool::Core;

/// Each pool that a program has is lawful, between any two events.
pub fn every_core_is_lawful(core: &Core)
    ensures { Lawful core.now }
{
    core.stays_lawful();
}

/// A pool is lawful as it opens: each word is cold and free, and each seat but the first is still to be made.
pub fn the_opening_is_lawful()
    ensures lawful { OpeningIsLawful }
    ensures cold { OpensCold }
    ensures unmade { OpensUnmade }
{}

/// Each event that no rule refuses keeps a pool lawful.
pub fn each_event_keeps_a_core_lawful()
    ensures { EventsKeepLawful }
{}

/// So does every list of events, none of which is refused where it comes.
pub fn runs_keep_a_core_lawful()
    ensures kept { RunsKeepLawful }
    ensures opened { RunsFromOpeningAreLawful }
{}

/// An event changes its own seat alone, but for a split, a join and a close; of the words the one alone that it claims or releases; and a count or the clock only where it is one of that count's own events.
pub fn events_change_only_their_own()
    ensures { (c : PoolCore) (e : AnyEvent) → ChangesOnly e c (core_after c e) }
{}

/// The counts go up and down by one, and the clock goes on by one.
pub fn counts_move_by_one()
    ensures { (c : PoolCore) (e : AnyEvent) → Lawful c → refusal_of c e ≡ 0 → MovesByOne e c (core_after c e) }
{}

/// After a close no seat is live. Any other event leaves its own seat live, a split the new seat too, and a join not the other.
pub fn seats_live_until_joined_or_closed()
    ensures { (c : PoolCore) (e : AnyEvent) → Lawful c → refusal_of c e ≡ 0 → LeavesLive e (core_after c e) }
{}

/// No two seats hold one number, and a number is held exactly where a seat holds it.
pub fn held_words_have_one_seat()
    ensures one { OneSeatHolds }
    ensures held { SeatsHoldWords }
    ensures seat { HeldWordsHaveSeats }
{}

/// A value that is out with its holder makes no difference to any event but those that move it or need it at home.
pub fn values_out_change_nothing_else()
    ensures { OutChangesNothingElse }
{}

/// The free warm words and the permits are never more than the limit.
pub fn cores_are_within_their_limit()
    ensures { (c : PoolCore) → Lawful c → count_by is_free_warm c.words + count_by has_permit c.seats ≤ c.limit }
{}

/// An event is refused by the least rule that it breaks, and by none exactly where it breaks none.
pub fn refusals_are_least()
    ensures { (c : PoolCore) (e : AnyEvent) → IsLeastRule c e (refusal_of c e) }
{}

/// The 64 bits of a word say one word alone, which is the word that they are read as.
pub fn words_are_read_back()
    ensures one { BitsSayOneWord }
    ensures read { BitsSayTheWord }
{}

/// A pool has at most 1,024 slots, and a word has 20 bits for a tag and 41 for a stamp.
pub fn limits_are_those_of_the_words()
    ensures slots { MOST_SLOTS ≡ 1024 }
    ensures tags { TAG_LIMIT ≡ tag_bound }
    ensures stamps { STAMP_LIMIT ≡ stamp_bound }
{}

/// The lowest bit of a word says whether it is held, and to set it is to make the word held.
pub fn the_lowest_bit_says_held()
    ensures says { LowestBitSaysHeld }
    ensures sets { LowestBitMakesHeld }
{}
