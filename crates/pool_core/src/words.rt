//! What a slot's word says, and the 64 bits that carry it.
ghost use Rattle.std.specs.Prelude.{◌≡◌, true};
ghost use Rattle.pool_core.specs.StateWords.{is_cold, is_warm, is_awaiting, is_well_formed, state_code, unpacked, IsWordOf};

use crate::limits::{STAMP_LIMIT, TAG_LIMIT};

// What the lowest bit of each field stands for, and what the state's code stays below.
const STATE_UNIT: u64 = 1 << 1;

const STATE_LIMIT: u64 = 1 << 2;

const TAG_UNIT: u64 = 1 << 3;

const STAMP_UNIT: u64 = TAG_UNIT * TAG_LIMIT as u64;

/// What the value in a slot was left as.
#[derive(Clone, Copy, PartialEq, Eq, Debug, Drop)]
pub enum State {
    /// Zero everywhere, and of no module.
    Cold,
    /// Restored to the image of the module that the tag names.
    Warm,
    /// Used by the module that the tag names, and not restored since.
    Awaiting,
}

/// What a release writes into a slot's word.
#[derive(Clone, Copy, PartialEq, Eq, Debug, Drop)]
pub struct Target {
    pub state: State,
    /// The module's tag, below [`TAG_LIMIT`], and 0 where the state is cold.
    pub tag: u32,
    /// When the slot was last given back, by the pool's clock, below [`STAMP_LIMIT`], and 0 where the state is cold.
    pub stamp: u64,
}

/// One slot's word.
#[derive(Clone, Copy, PartialEq, Eq, Debug, Drop)]
pub struct StateWord {
    pub target: Target,
    /// A seat holds the slot.
    pub held: bool,
}

impl State {
    pub(crate) fn is_cold(self) -> bool
        ensures { result ≡ is_cold self }
    {
        matches!(self, State::Cold)
    }

    pub(crate) fn is_warm(self) -> bool
        ensures { result ≡ is_warm self }
    {
        matches!(self, State::Warm)
    }

    pub(crate) fn is_awaiting(self) -> bool
        ensures { result ≡ is_awaiting self }
    {
        matches!(self, State::Awaiting)
    }

    fn code(self) -> u64
        ensures { result ≡ state_code self }
    {
        match self {
            State::Cold => 0,
            State::Warm => 1,
            State::Awaiting => 2,
        }
    }
}

impl Target {
    /// The target of a slot that belongs to no module.
    pub const COLD: Target = Target {
        state: State::Cold,
        tag: 0,
        stamp: 0,
    };

    pub(crate) fn is_well_formed(self) -> bool
        ensures { result ≡ is_well_formed self }
    {
        self.tag < TAG_LIMIT
            && self.stamp < STAMP_LIMIT
            && (!self.state.is_cold() || (self.tag == 0 && self.stamp == 0))
    }
}

impl StateWord {
    pub(crate) const COLD: StateWord = StateWord {
        target: Target::COLD,
        held: false,
    };
}

/// The 64 bits of a slot's word, from the lowest on: one bit says that it is held, two are the state (0 cold, 1 warm, 2 awaiting), twenty the tag and the others the stamp.
pub fn pack(word: Target, held: bool) -> u64
    requires { is_well_formed word ≡ true }
    ensures { IsWordOf result (record { target = word; held = held }) }
{
    u64::from(held)
        + STATE_UNIT * word.state.code()
        + TAG_UNIT * u64::from(word.tag)
        + STAMP_UNIT * word.stamp
}

/// What the 64 bits of a slot's word say: its target, and whether it is held.
pub fn unpack(word: u64) -> (Target, bool)
    requires { (w : StateWord) × IsWordOf word w }
    ensures said { (w : StateWord) → IsWordOf word w → (result.0 ≡ w.target) × (result.1 ≡ w.held) }
    ensures target { result.0 ≡ (unpacked word).target }
    ensures held { result.1 ≡ (unpacked word).held }
{
    let state = match word / STATE_UNIT % STATE_LIMIT {
        0 => State::Cold,
        1 => State::Warm,
        _ => State::Awaiting,
    };
    let target = Target {
        state,
        tag: (word / TAG_UNIT % u64::from(TAG_LIMIT)) as u32,
        stamp: word / STAMP_UNIT,
    };
    (target, word % 2 == 1)
}
