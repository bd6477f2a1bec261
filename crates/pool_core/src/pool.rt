//! A pool as plain data, and one event after another.
ghost use Rattle.std.specs.Prelude.{◌≡◌, ◌+◌, ◌<◌, ◌≤◌, true, ltb, length, map, slice_set, IfOk, IfErr, OnOk, MatchOption};
ghost use Rattle.pool_core.specs.StateWords.{is_well_formed, IsWordOf};
ghost use Rattle.pool_core.specs.PoolCore.{PoolCore, seat_at, word_at, opening_core};
ghost use Rattle.pool_core.specs.EventEffects.{core_after, closed_seat};
ghost use Rattle.pool_core.specs.RefusalRules.{refusal_of};
ghost use Rattle.pool_core.specs.Lawful.{Lawful};
ghost use Rattle.pool_core.specs.Runs.{Refuses};

use crate::events::Event;
use crate::refusals::{Unlawful, refusal_of};
use crate::seats::{Seat, Stage};
use crate::words::{StateWord, Target, pack};
use std::alloc::{AllocError, Global};
use std::marker::Model;
use thiserror::Error;

/// A pool as plain data. Between any two events it is lawful.
#[derive(Debug, Drop)]
pub struct Core {
    words: Vec<StateWord>,
    seats: Vec<Seat>,
    warm: u64,
    awaiting: u64,
    clock: u64,
    limit: u64,
}

impl Model for Core {
    ghost use Rattle.pool_core.specs.PoolCore.{PoolCore, core_of};

    ghost Value = { PoolCore };

    ghost use Rattle.pool_core.specs.Lawful.{Lawful};

    ghost view = { λ c. core_of c.words.items c.seats.items c.warm c.awaiting c.clock c.limit };

    ghost invariant = { λ c. Lawful (core_of c.words.items c.seats.items c.warm c.awaiting c.clock c.limit) };
}

/// No memory was left.
#[derive(Clone, Copy, PartialEq, Eq, Debug, Drop, Error)]
#[error("out of memory")]
pub struct NoMemory;

impl From<AllocError> for NoMemory {
    fn from(_error: AllocError) -> NoMemory {
        NoMemory
    }
}

// A place past the list stays.
fn put_seat(seats: &mut Vec<Seat>, at: u32, seat: Seat)
    ensures { seats.new.items ≡ slice_set seats.old.items at seat }
{
    let i = at as usize;
    if i < seats.len() {
        seats[i] = seat;
    }
}

// A place past the list stays.
fn put_word(words: &mut Vec<StateWord>, at: u32, word: StateWord)
    ensures { words.new.items ≡ slice_set words.old.items at word }
{
    let i = at as usize;
    if i < words.len() {
        words[i] = word;
    }
}

#[tactic(auto, using(std::proofs::lemmas::List::Edits::map_over_more))]
fn close_all(seats: &mut Vec<Seat>)
    ensures { seats.new.items ≡ map closed_seat seats.old.items }
{
    for seat in seats.iter_mut() {
        *seat = seat.closed();
    }
}

impl Core {
    /// A pool of so many slots, all cold and free, of which at most `warm` may be warm, with room for so many seats, of which the first is live.
    ///
    /// # Errors
    ///
    /// [`NoMemory`]: no memory was left.
    pub fn new(alloc: Global, slots: u32, warm: u32, seats: u32) -> Result<Core, NoMemory>
        requires { 1 ≤ seats }
        ensures { IfOk result (λ c. c ≡ opening_core slots warm seats) }
    {
        let words = Vec::from_elem(alloc, StateWord::COLD, slots as usize)?;
        let mut all = Vec::from_elem(alloc, Seat::idle(Stage::Unmade), seats as usize)?;
        all[0].stage = Stage::Live;
        Ok(Core {
            words,
            seats: all,
            warm: 0,
            awaiting: 0,
            clock: 0,
            limit: u64::from(warm),
        })
    }

    /// The word of the slot n as 64 bits, or `None` where the pool has no such slot.
    pub fn word(&self, n: u32) -> Option<u64>
        ensures { MatchOption result (length self.now.words ≤ n) (λ bits. (n < length self.now.words) × IsWordOf bits (word_at self.now n)) }
    {
        if !self.has_slot(n) {
            return None;
        }
        let word = self.word_at(n);
        Some(pack(word.target, word.held))
    }

    /// The count of warm slots: those free and warm, and each permit and refusal.
    pub fn warm(&self) -> u64
        ensures { result ≡ self.now.warm }
    {
        self.warm
    }

    /// The count of awaiting slots: those free and awaiting, and each await mark.
    pub fn awaiting(&self) -> u64
        ensures { result ≡ self.now.awaiting }
    {
        self.awaiting
    }

    /// The clock: how many stamps were taken, modulo 2^64.
    pub fn clock(&self) -> u64
        ensures { result ≡ self.now.clock }
    {
        self.clock
    }

    pub(crate) fn stays_lawful(&self)
        ensures { Lawful self.now }
    {
        let _ = &self.limit;
    }

    pub(crate) fn has_slot(&self, slot: u32) -> bool
        ensures { result ≡ ltb slot (length self.now.words) }
    {
        (slot as usize) < self.words.len()
    }

    pub(crate) fn has_seat(&self, seat: u32) -> bool
        ensures { result ≡ ltb seat (length self.now.seats) }
    {
        (seat as usize) < self.seats.len()
    }

    pub(crate) fn seat_at(&self, seat: u32) -> Seat
        ensures { result ≡ seat_at self.now seat }
    {
        match self.seats.get(seat as usize) {
            Some(found) => *found,
            None => Seat::idle(Stage::Unmade),
        }
    }

    pub(crate) fn word_at(&self, slot: u32) -> StateWord
        ensures is { result ≡ word_at self.now slot }
        ensures well_formed { is_well_formed result.target ≡ true }
    {
        match self.words.get(slot as usize) {
            Some(word) => *word,
            None => StateWord::COLD,
        }
    }

    fn claim(&mut self, seat: u32, slot: u32)
        requires { refusal_of self.old (Event.Claim seat slot) ≡ 0 }
        ensures { self.new ≡ core_after self.old (Event.Claim seat slot) }
    {
        let word = self.word_at(slot);
        if word.held {
            return;
        }
        let winner = self.seat_at(seat).winning(slot, word);
        put_word(&mut self.words, slot, StateWord { held: true, ..word });
        put_seat(&mut self.seats, seat, winner);
    }

    fn take_out(&mut self, seat: u32, slot: u32)
        requires { refusal_of self.old (Event.Out seat slot) ≡ 0 }
        ensures { self.new ≡ core_after self.old (Event.Out seat slot) }
    {
        let changed = Seat {
            out: true,
            ..self.seat_at(seat)
        };
        put_seat(&mut self.seats, seat, changed);
    }

    fn bring_home(&mut self, seat: u32, slot: u32)
        requires { refusal_of self.old (Event.Home seat slot) ≡ 0 }
        ensures { self.new ≡ core_after self.old (Event.Home seat slot) }
    {
        let changed = Seat {
            out: false,
            ..self.seat_at(seat)
        };
        put_seat(&mut self.seats, seat, changed);
    }

    fn release(&mut self, seat: u32, slot: u32, to: Target)
        requires { refusal_of self.old (Event.Release seat slot to) ≡ 0 }
        ensures { self.new ≡ core_after self.old (Event.Release seat slot to) }
    {
        let idle = Seat::idle(self.seat_at(seat).stage);
        let word = StateWord {
            target: to,
            held: false,
        };
        put_word(&mut self.words, slot, word);
        put_seat(&mut self.seats, seat, idle);
    }

    fn split(&mut self, seat: u32, new: u32)
        requires { refusal_of self.old (Event.Split seat new) ≡ 0 }
        ensures { self.new ≡ core_after self.old (Event.Split seat new) }
    {
        put_seat(&mut self.seats, new, Seat::idle(Stage::Live));
    }

    fn join(&mut self, seat: u32, other: u32)
        requires { refusal_of self.old (Event.Join seat other) ≡ 0 }
        ensures { self.new ≡ core_after self.old (Event.Join seat other) }
    {
        put_seat(&mut self.seats, other, Seat::idle(Stage::Joined));
    }

    fn close(&mut self, seat: u32)
        requires { refusal_of self.old (Event.Close seat) ≡ 0 }
        ensures { self.new ≡ core_after self.old (Event.Close seat) }
    {
        close_all(&mut self.seats);
    }

    fn warm_up(&mut self, seat: u32)
        requires { refusal_of self.old (Event.WarmUp seat) ≡ 0 }
        ensures { self.new ≡ core_after self.old (Event.WarmUp seat) }
    {
        let below = self.warm < self.limit;
        let changed = Seat {
            permit: below,
            refusal: !below,
            ..self.seat_at(seat)
        };
        put_seat(&mut self.seats, seat, changed);
        self.warm += 1;
    }

    fn warm_down(&mut self, seat: u32)
        requires { refusal_of self.old (Event.WarmDown seat) ≡ 0 }
        ensures { self.new ≡ core_after self.old (Event.WarmDown seat) }
    {
        let changed = Seat {
            permit: false,
            refusal: false,
            ..self.seat_at(seat)
        };
        put_seat(&mut self.seats, seat, changed);
        self.warm -= 1;
    }

    fn stamp(&mut self, seat: u32)
        requires { refusal_of self.old (Event.Stamp seat) ≡ 0 }
        ensures { self.new ≡ core_after self.old (Event.Stamp seat) }
    {
        self.clock = self.clock.wrapping_add(1);
    }

    fn await_up(&mut self, seat: u32)
        requires { refusal_of self.old (Event.AwaitUp seat) ≡ 0 }
        ensures { self.new ≡ core_after self.old (Event.AwaitUp seat) }
    {
        let changed = Seat {
            mark: true,
            ..self.seat_at(seat)
        };
        put_seat(&mut self.seats, seat, changed);
        self.awaiting += 1;
    }

    fn await_down(&mut self, seat: u32)
        requires { refusal_of self.old (Event.AwaitDown seat) ≡ 0 }
        ensures { self.new ≡ core_after self.old (Event.AwaitDown seat) }
    {
        let changed = Seat {
            mark: false,
            ..self.seat_at(seat)
        };
        put_seat(&mut self.seats, seat, changed);
        self.awaiting -= 1;
    }

    fn apply(&mut self, event: Event)
        requires { refusal_of self.old event ≡ 0 }
        ensures { self.new ≡ core_after self.old event }
    {
        match event {
            Event::Load(..) | Event::WarmLoad(_) | Event::AwaitLoad(_) => {}
            Event::Claim(seat, slot) => self.claim(seat, slot),
            Event::Out(seat, slot) => self.take_out(seat, slot),
            Event::Home(seat, slot) => self.bring_home(seat, slot),
            Event::Release(seat, slot, to) => self.release(seat, slot, to),
            Event::Split(seat, new) => self.split(seat, new),
            Event::Join(seat, other) => self.join(seat, other),
            Event::Close(seat) => self.close(seat),
            Event::WarmUp(seat) => self.warm_up(seat),
            Event::WarmDown(seat) => self.warm_down(seat),
            Event::Stamp(seat) => self.stamp(seat),
            Event::AwaitUp(seat) => self.await_up(seat),
            Event::AwaitDown(seat) => self.await_down(seat),
        }
    }
}

/// Applies one event.
///
/// # Errors
///
/// [`Unlawful`] exactly where a rule refuses the event, with the least such rule; the pool is then as before.
pub fn step(core: &mut Core, event: Event) -> Result<(), Unlawful>
    ensures ok { OnOk result ((refusal_of core.old event ≡ 0) × (core.new ≡ core_after core.old event)) }
    ensures err { IfErr result (λ u. (core.new ≡ core.old) × Refuses core.old event u.rule u.number) }
{
    let rule = refusal_of(core, event);
    if rule > 0 {
        return Err(Unlawful {
            rule,
            number: event.number(),
        });
    }
    core.apply(event);
    Ok(())
}
