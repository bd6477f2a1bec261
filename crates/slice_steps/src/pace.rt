//! How a worker turns to other things, whose calls find no slots or for whom nothing goes round.
ghost use Rattle.std.specs.Prelude.{◌≡◌, false, true};
ghost use Rattle.slice_steps.specs.Slices.{ends_of};

use std::sync::Wait;
use std::sync::atomic::AtomicU64;
use std::time::Duration;

// The most slices of others between two tries to begin a call.
const MOST_OTHERS: u64 = 63;

// So often a worker for whom nothing goes round only leaves its turn to others.
const YIELDS: u64 = 8;

// In microseconds: the first sleep, by which each one is longer than the one before, and how many there are up to the longest.
const SLEEP: u64 = 50;

const LONGEST: u64 = 16;

/// What came to a worker.
#[derive(Clone, Copy)]
pub(crate) enum Came {
    /// Nothing went round.
    Nothing,
    /// An idle pass, which it keeps: a call gave its slots back.
    Pass,
    /// A call, of which it made a slice.
    Slice,
    /// A call that was answered then.
    Answer,
    /// It was told to end.
    End,
}

impl Came {
    /// Whether the worker was told to end.
    pub(crate) fn is_end(self) -> bool
        ensures yes { (result ≡ true) → ends_of self ≡ 1 }
        ensures no { (result ≡ false) → ends_of self ≡ 0 }
    {
        match self {
            Came::End => true,
            Came::Nothing => false,
            Came::Pass => false,
            Came::Slice => false,
            Came::Answer => false,
        }
    }
}

/// The more often a try was in vain, the more slices of others come before the next one. The more often nothing went round, the longer
/// is the sleep.
#[derive(Clone, Copy)]
pub(crate) struct Pace {
    others: u64,
    idle: u64,
}

impl Pace {
    /// Nothing was in vain yet.
    pub(crate) fn new() -> Pace {
        Pace { others: 0, idle: 0 }
    }

    /// How many slices of others are to be made before the next try: twice as many as before the last one, and one more.
    pub(crate) fn others(&mut self) -> u64 {
        self.others = self
            .others
            .saturating_mul(2)
            .saturating_add(1)
            .min(MOST_OTHERS);
        self.others
    }

    /// Takes note of what came, and sleeps where nothing did. Answers whether it is time for the next try: nothing goes round, or slots
    /// were given back.
    pub(crate) fn note<R: Wait>(&mut self, rt: &R, came: Came) -> bool {
        match came {
            Came::Nothing => {
                self.rest(rt);
                true
            }
            Came::Slice => {
                self.idle = self.idle.saturating_sub(1);
                false
            }
            _ => {
                self.idle = self.idle.saturating_sub(1);
                self.others = 0;
                true
            }
        }
    }

    // Sleeps, if nothing went round often enough.
    fn rest<R: Wait>(&mut self, rt: &R) {
        self.idle = self.idle.saturating_add(1).min(YIELDS + LONGEST);
        let times = self.idle.saturating_sub(YIELDS);
        if times > 0 {
            let sleep = Duration::from_micros(times.saturating_mul(SLEEP));
            AtomicU64::new(0).park_timeout(rt, 0, sleep);
        }
    }
}
