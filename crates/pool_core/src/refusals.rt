//! Which events a pool refuses, by eight rules. An event is refused by the least rule that it breaks.
ghost use Rattle.std.specs.Prelude.{◌≡◌, ◌+◌, ◌<◌};
ghost use Rattle.pool_core.specs.RefusalRules.{breaks_seat_rule, breaks_slot_rule, breaks_idle_rule, breaks_holder_rule, breaks_place_rule, breaks_need_rule, breaks_excess_rule, breaks_target_rule, refusal_of};

use crate::events::Event;
use crate::pool::Core;
use thiserror::Error;

/// An event that a pool refuses.
#[derive(Clone, Copy, PartialEq, Eq, Debug, Drop, Error)]
#[error("refused by rule {rule} at number {number}")]
pub struct Unlawful {
    /// The least rule that the event breaks, from 1 to 8.
    pub rule: u8,
    /// The slot that the event names, or its seat where it names none.
    pub number: u32,
}

// A named seat is not live, or the new one of a split can't be made, or a join names one seat twice.
fn breaks_seat_rule(core: &Core, event: Event) -> bool
    ensures { result ≡ breaks_seat_rule core.now event }
{
    match event {
        Event::Split(seat, new) => {
            !core.seat_at(seat).is_live() || !core.has_seat(new) || !core.seat_at(new).is_unmade()
        }
        Event::Join(seat, other) => {
            !core.seat_at(seat).is_live() || !core.seat_at(other).is_live() || seat == other
        }
        _ => !core.seat_at(event.seat()).is_live(),
    }
}

// There is no such slot.
fn breaks_slot_rule(core: &Core, event: Event) -> bool
    ensures { result ≡ breaks_slot_rule core.now event }
{
    match event {
        Event::Load(_, slot)
        | Event::Claim(_, slot)
        | Event::Out(_, slot)
        | Event::Home(_, slot)
        | Event::Release(_, slot, _) => !core.has_slot(slot),
        _ => false,
    }
}

// A named live seat is not idle.
fn breaks_idle_rule(core: &Core, event: Event) -> bool
    ensures { result ≡ breaks_idle_rule core.now event }
{
    match event {
        Event::Claim(seat, _) | Event::Split(seat, _) | Event::Close(seat) => {
            !core.seat_at(seat).is_idle()
        }
        Event::Join(seat, other) => {
            !core.seat_at(seat).is_idle() || !core.seat_at(other).is_idle()
        }
        _ => false,
    }
}

// The seat does not hold that slot, or any slot.
fn breaks_holder_rule(core: &Core, event: Event) -> bool
    ensures { result ≡ breaks_holder_rule core.now event }
{
    match event {
        Event::Out(seat, slot) | Event::Home(seat, slot) | Event::Release(seat, slot, _) => {
            !core.seat_at(seat).is_holding(slot)
        }
        Event::WarmUp(seat)
        | Event::WarmDown(seat)
        | Event::Stamp(seat)
        | Event::AwaitUp(seat)
        | Event::AwaitDown(seat) => core.seat_at(seat).holds.is_none(),
        _ => false,
    }
}

// The value is not where the event needs it.
fn breaks_place_rule(core: &Core, event: Event) -> bool
    ensures { result ≡ breaks_place_rule core.now event }
{
    match event {
        Event::Out(seat, _) | Event::Release(seat, _, _) => core.seat_at(seat).out,
        Event::Home(seat, _) => !core.seat_at(seat).out,
        _ => false,
    }
}

// A permit, refusal or await mark that is needed is not there.
fn breaks_need_rule(core: &Core, event: Event) -> bool
    ensures { result ≡ breaks_need_rule core.now event }
{
    match event {
        Event::Release(seat, _, to) => {
            let holder = core.seat_at(seat);
            (to.state.is_warm() && !holder.permit) || (to.state.is_awaiting() && !holder.mark)
        }
        Event::WarmDown(seat) => {
            let holder = core.seat_at(seat);
            !(holder.permit || holder.refusal)
        }
        Event::AwaitDown(seat) => !core.seat_at(seat).mark,
        _ => false,
    }
}

// A permit, refusal or await mark is there that must not be.
fn breaks_excess_rule(core: &Core, event: Event) -> bool
    ensures { result ≡ breaks_excess_rule core.now event }
{
    match event {
        Event::Release(seat, _, to) => {
            let holder = core.seat_at(seat);
            holder.refusal
                || (holder.permit && !to.state.is_warm())
                || (holder.mark && !to.state.is_awaiting())
        }
        Event::WarmUp(seat) => {
            let holder = core.seat_at(seat);
            holder.permit || holder.refusal
        }
        Event::AwaitUp(seat) => core.seat_at(seat).mark,
        _ => false,
    }
}

// No word says what the slot is released to.
fn breaks_target_rule(core: &Core, event: Event) -> bool
    ensures { result ≡ breaks_target_rule core.now event }
{
    match event {
        Event::Release(_, _, to) => !to.is_well_formed(),
        _ => false,
    }
}

/// The least rule that the event breaks, or 0.
pub(crate) fn refusal_of(core: &Core, event: Event) -> u8
    ensures { result ≡ refusal_of core.now event }
{
    if breaks_seat_rule(core, event) {
        1
    } else if breaks_slot_rule(core, event) {
        2
    } else if breaks_idle_rule(core, event) {
        3
    } else if breaks_holder_rule(core, event) {
        4
    } else if breaks_place_rule(core, event) {
        5
    } else if breaks_need_rule(core, event) {
        6
    } else if breaks_excess_rule(core, event) {
        7
    } else if breaks_target_rule(core, event) {
        8
    } else {
        0
    }
}
