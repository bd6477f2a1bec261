//! What holds of every pool in use. Each function does nothing: its contract is the law.
ghost use Rattle.pool_model.specs.Worlds.{AlwaysShadow, TwoWorldsAgree, AnswersAgree, SlicesAreTurns, PreparingTwiceIsOnce};
ghost use Rattle.pool_model.specs.Histories.{StepsAreHistories};
ghost use Rattle.pool_model.specs.Tenants.{OwnEventsDecide, WarmSlotsStayWithin};
ghost use Rattle.pool_model.specs.Fitting.{FreeSlotsFit, ClearedFitsCold, RestoredFitsWarm, UsedFitsAwaiting, TablesFitWarm};

/// Whatever events came since the opening, each running call has the store of a fresh instance after as many turns, with nothing past the memory's size, and will be answered as that is.
pub fn shadow()
    ensures { AlwaysShadow }
{}

/// In any two worlds with the same limits, two calls of one request agree after as many turns on memory, size, table and globals, and on their answers. Modules' numbers, the slots and all other callers may differ.
pub fn two_worlds()
    ensures turns { TwoWorldsAgree }
    ensures answers { AnswersAgree }
{}

/// A slice of a paused call, as the contract of what makes it says it, is turns of the call: as many as the slice has, where the call goes on, or those up to its end, and its end. A call that is made at once is a slice of all its fuel.
pub fn slices_are_turns()
    ensures { SlicesAreTurns }
{}

/// To prepare what is prepared for the same module already changes nothing.
pub fn preparing_twice_is_once()
    ensures { PreparingTwiceIsOnce }
{}

/// Whatever events came since the opening, if each release was made with contents that fit what it released to, the contents of every slot that nobody holds fit its word. What was cleared may be released as cold, what was restored as warm, and what belongs to a module as awaiting, each of the last two under that module's tag; a table of a module also as warm.
pub fn contents_fit_their_words()
    ensures free { FreeSlotsFit }
    ensures cleared { ClearedFitsCold }
    ensures restored { RestoredFitsWarm }
    ensures used { UsedFitsAwaiting }
    ensures tables { TablesFitWarm }
{}

/// Whatever events came since the opening, those of one kind's pool among them are a history of that pool: a list of its own events from its opening, none of which it refuses, that leads to it as it stands.
pub fn steps_are_histories()
    ensures { StepsAreHistories }
{}

/// Where the events of one tenant's passes are the same list in two worlds of tenants, modules' numbers included, its pools have the same words, counts and seats after them, its callers the same running calls on the same instances, what its claims read is the same, and so is what its callers are answered. Other tenants may have and do anything.
pub fn own_events_decide()
    ensures { OwnEventsDecide }
{}

/// Whatever events came since the pools of several tenants opened, the slots of a kind that are warm while nobody holds them are, of all tenants together, no more than their limits add up to.
pub fn warm_slots_stay_within()
    ensures { WarmSlotsStayWithin }
{}
