//! What can happen to a pool.
ghost use Rattle.std.specs.Prelude.{◌≡◌};
ghost use Rattle.pool_core.specs.RefusalRules.{seat_of, number_of};

use crate::words::Target;

/// One atomic event of a pool. The first number is the seat that makes it.
#[derive(Clone, Copy, PartialEq, Eq, Debug, Drop)]
pub enum Event {
    /// Reads the word of a slot: `Load(seat, slot)`.
    Load(u32, u32),
    /// Takes a slot, unless it is held: `Claim(seat, slot)`.
    Claim(u32, u32),
    /// Moves the value of the held slot out to the caller: `Out(seat, slot)`.
    Out(u32, u32),
    /// Moves that value back into the slot: `Home(seat, slot)`.
    Home(u32, u32),
    /// Gives the held slot back as the target says: `Release(seat, slot, to)`.
    Release(u32, u32, Target),
    /// Makes a new seat: `Split(seat, new)`.
    Split(u32, u32),
    /// Ends another seat: `Join(seat, other)`.
    Join(u32, u32),
    /// Ends all seats.
    Close(u32),
    /// Reads the count of warm slots.
    WarmLoad(u32),
    /// Counts one more warm slot: a permit below the limit, else a refusal.
    WarmUp(u32),
    /// Takes a permit or a refusal back.
    WarmDown(u32),
    /// Moves the clock on.
    Stamp(u32),
    /// Counts one more awaiting slot: an await mark.
    AwaitUp(u32),
    /// Takes the await mark back.
    AwaitDown(u32),
    /// Reads the count of awaiting slots.
    AwaitLoad(u32),
}

impl Event {
    /// The seat that makes the event.
    pub fn seat(self) -> u32
        ensures { result ≡ seat_of self }
    {
        match self {
            Event::Load(seat, _)
            | Event::Claim(seat, _)
            | Event::Out(seat, _)
            | Event::Home(seat, _)
            | Event::Release(seat, _, _)
            | Event::Split(seat, _)
            | Event::Join(seat, _)
            | Event::Close(seat)
            | Event::WarmLoad(seat)
            | Event::WarmUp(seat)
            | Event::WarmDown(seat)
            | Event::Stamp(seat)
            | Event::AwaitUp(seat)
            | Event::AwaitDown(seat)
            | Event::AwaitLoad(seat) => seat,
        }
    }

    /// The slot that the event names, or its seat where it names none.
    pub fn number(self) -> u32
        ensures { result ≡ number_of self }
    {
        match self {
            Event::Load(_, slot)
            | Event::Claim(_, slot)
            | Event::Out(_, slot)
            | Event::Home(_, slot)
            | Event::Release(_, slot, _) => slot,
            _ => self.seat(),
        }
    }
}
