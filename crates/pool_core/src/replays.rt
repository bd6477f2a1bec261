//! A list of events, one after another from the opening.
ghost use Rattle.std.specs.Prelude.{◌≡◌, ◌≤◌, IfOk, IfErr, OnOk};
ghost use Rattle.pool_core.specs.PoolCore.{opening_core};
ghost use Rattle.pool_core.specs.EventEffects.{core_after};
ghost use Rattle.pool_core.specs.RefusalRules.{refusal_of};
ghost use Rattle.pool_core.specs.Runs.{core_after_all, AllAllowed, IsRefusedAt, IsReplayFault};

use crate::events::Event;
use crate::pool::{Core, NoMemory, step};
use crate::refusals::Unlawful;
use std::alloc::Global;
use thiserror::Error;

/// Why a list of events was not replayed to its end.
#[derive(Clone, Copy, PartialEq, Eq, Debug, Drop, Error)]
pub enum ReplayFault {
    /// The first event that is refused: its place in the list from 0, the least rule that it breaks, and the slot that it names, or its seat where it names none.
    #[error("event {at} is refused by rule {rule} at number {number}")]
    Unlawful { at: usize, rule: u8, number: u32 },
    /// No memory was left.
    #[error("out of memory")]
    NoMemory,
}

impl From<NoMemory> for ReplayFault {
    ghost use Rattle.pool_core.specs.declared.replays.ReplayFault.TheVariants.{NoMemory};

    ghost from_gives = { λ _ e. e ≡ NoMemory };

    fn from(_error: NoMemory) -> ReplayFault {
        ReplayFault::NoMemory
    }
}

// Applies the event that stands at this place of the list.
fn step_at(core: &mut Core, event: Event, at: usize) -> Result<(), ReplayFault>
    ensures ok { OnOk result ((refusal_of core.old event ≡ 0) × (core.new ≡ core_after core.old event)) }
    ensures err { IfErr result (IsRefusedAt at core.old event) }
{
    match step(core, event) {
        Ok(()) => Ok(()),
        Err(Unlawful { rule, number }) => Err(ReplayFault::Unlawful { at, rule, number }),
    }
}

/// The pool after these events from its opening.
///
/// # Errors
///
/// - [`ReplayFault::Unlawful`] exactly where one of the events is refused where it comes: the first of them.
/// - [`ReplayFault::NoMemory`]: no memory was left.
pub fn replay(
    alloc: Global,
    slots: u32,
    warm: u32,
    seats: u32,
    events: &[Event],
) -> Result<Core, ReplayFault>
    requires { 1 ≤ seats }
    ensures ok { IfOk result (λ c. AllAllowed (opening_core slots warm seats) events.now × (c ≡ core_after_all (opening_core slots warm seats) events.now)) }
    ensures err { IfErr result (IsReplayFault (opening_core slots warm seats) events.now) }
{
    let mut core = Core::new(alloc, slots, warm, seats)?;
    for at in 0..events.len() {
        step_at(&mut core, events[at], at)?;
    }
    Ok(core)
}
