//! What holds of the definitions alone. Each function does nothing: its contract is the law.
ghost use Rattle.std.specs.Prelude.{◌≡◌, ℕ, List, []};
ghost use Rattle.slot_words.specs.declared.kinds.KindCounts.{KindCounts};
ghost use Rattle.slot_words.specs.declared.views.Operation.{Operation};
ghost use Rattle.slot_words.specs.Accounts.{HistoriesAccount};
ghost use Rattle.slot_words.specs.Closing.{CountsLeft};
ghost use Rattle.slot_words.specs.Events.{LoadsAreEvents, ClaimsAreEvents, ReleasesAreEvents, WarmLoadsAreEvents, WarmUpsAreEvents, WarmDownsAreEvents, StampsAreEvents, AwaitUpsAreEvents, AwaitDownsAreEvents, AwaitLoadsAreEvents, SplitsAreEvents, JoinsAreEvents, ClosesAreEvents, ExchangesAreEvents};
ghost use Rattle.slot_words.specs.WorkedHistories.{AreWorked};
ghost use Rattle.slot_words.specs.Rule.{OneHolder, HeldByAnother, NoHiddenSeat, AloneWithAll, WithinLimit, FreeValuesFit, ClockCountsStamps, OneHistory};

use crate::cores::core_laws;
use crate::pooled::Pooled;

/// Each step of a pass is one event of the core that the words show, by that pass's seat.
pub fn steps_are_events<V: Pooled>()
    ensures loads { LoadsAreEvents V.fits }
    ensures claims { ClaimsAreEvents V.fits }
    ensures releases { ReleasesAreEvents V.fits }
    ensures exchanges { ExchangesAreEvents V.fits }
    ensures splits { SplitsAreEvents V.fits }
    ensures joins { JoinsAreEvents V.fits }
    ensures closes { ClosesAreEvents V.fits }
    ensures warm_loads { WarmLoadsAreEvents V.fits }
    ensures warm_ups { WarmUpsAreEvents V.fits }
    ensures warm_downs { WarmDownsAreEvents V.fits }
    ensures stamps { StampsAreEvents V.fits }
    ensures await_ups { AwaitUpsAreEvents V.fits }
    ensures await_downs { AwaitDownsAreEvents V.fits }
    ensures await_loads { AwaitLoadsAreEvents V.fits }
{
    core_laws();
}

/// What the rule says of each moment, for all passes together.
pub fn passes_share_the_words<V: Pooled>()
    ensures one_holder { OneHolder V.fits }
    ensures held_by_another { HeldByAnother V.fits }
    ensures no_hidden_seat { NoHiddenSeat V.fits }
    ensures alone_with_all { AloneWithAll V.fits }
    ensures within_limit { WithinLimit V.fits }
    ensures free_values_fit { FreeValuesFit V.fits }
    ensures clock { ClockCountsStamps V.fits }
{
    core_laws();
}

/// At any moment there is one list of events from the opening, none of which is refused where it comes, that leads to what is shown. Each pass's trail is what its seat noted of it.
pub fn passes_make_one_history<V: Pooled>()
    ensures { OneHistory V.fits }
{}

/// What the seats noted of a list of events accounts for the pool that it leads to: for its words, for what is held, and for its clock.
pub fn histories_account()
    ensures { HistoriesAccount }
{
    core_laws();
}

/// Operations leave one count of the words alone, in whatever order they came.
pub fn one_count_is_left()
    ensures { (slots : ℕ) (done : List Operation) (k l : KindCounts) → CountsLeft slots done k → CountsLeft slots done l → k ≡ l }
{
    core_laws();
}

/// Where nothing was done, all slots are cold.
pub fn nothing_done_leaves_all_cold()
    ensures { (slots : ℕ) (k : KindCounts) → CountsLeft slots [] k → k ≡ record { cold = slots; warm = 0; awaiting = 0; held = 0 } }
{
    core_laws();
}

/// Histories worked by hand: each operation once, a pass that is dropped with a slot, and one that is joined.
pub fn worked_histories()
    ensures { AreWorked }
{}
