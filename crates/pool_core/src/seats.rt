//! One caller's part of a pool.
ghost use Rattle.std.specs.Prelude.{◌≡◌, ◌+◌};
ghost use Rattle.pool_core.specs.PoolCore.{idle_seat, is_live, is_unmade, is_idle, is_holding};
ghost use Rattle.pool_core.specs.EventEffects.{closed_seat, winning_seat};

use crate::words::StateWord;

/// What has become of a seat so far.
#[derive(Clone, Copy, PartialEq, Eq, Debug, Drop)]
pub enum Stage {
    /// Not made yet.
    Unmade,
    /// It may make events.
    Live,
    /// Joined into another seat.
    Joined,
    /// Live as the pool was closed.
    Closed,
}

/// One caller's part of a pool: the slot that it holds, and what it owes the shared counts.
#[derive(Clone, Copy, PartialEq, Eq, Debug, Drop)]
pub struct Seat {
    pub stage: Stage,
    /// The number of the slot that it holds.
    pub holds: Option<u32>,
    /// The value of that slot is with the caller, and not in the slot.
    pub out: bool,
    /// It counts as one warm slot, and may release its slot warm.
    pub permit: bool,
    /// It raised the count of warm slots at the limit, and has to lower it again.
    pub refusal: bool,
    /// It counts as one awaiting slot, and may release its slot awaiting.
    pub mark: bool,
}

impl Seat {
    pub(crate) fn idle(stage: Stage) -> Seat
        ensures { result ≡ idle_seat stage }
    {
        Seat {
            stage,
            holds: None,
            out: false,
            permit: false,
            refusal: false,
            mark: false,
        }
    }

    pub(crate) fn is_live(&self) -> bool
        ensures { result ≡ is_live self.now.stage }
    {
        matches!(self.stage, Stage::Live)
    }

    pub(crate) fn is_unmade(&self) -> bool
        ensures { result ≡ is_unmade self.now.stage }
    {
        matches!(self.stage, Stage::Unmade)
    }

    pub(crate) fn is_idle(&self) -> bool
        ensures { result ≡ is_idle self.now }
    {
        self.holds.is_none() && !self.permit && !self.refusal && !self.mark
    }

    pub(crate) fn is_holding(&self, number: u32) -> bool
        ensures { result ≡ is_holding self.now.holds number }
    {
        match self.holds {
            Some(held) => held == number,
            None => false,
        }
    }

    /// The seat once it has won the number, whose word was this.
    pub(crate) fn winning(self, number: u32, word: StateWord) -> Seat
        ensures { result ≡ winning_seat self number word }
    {
        Seat {
            holds: Some(number),
            out: false,
            permit: word.target.state.is_warm(),
            refusal: false,
            mark: word.target.state.is_awaiting(),
            ..self
        }
    }

    /// The seat once the pool is closed.
    pub(crate) fn closed(self) -> Seat
        ensures { result ≡ closed_seat self }
    {
        if self.is_live() {
            Seat {
                stage: Stage::Closed,
                ..self
            }
        } else {
            self
        }
    }
}
