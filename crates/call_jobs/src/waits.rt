//! The waits of a worker whose calls find a kind full.
ghost use Rattle.std.specs.Prelude.{◌≡◌};
ghost use Rattle.call_jobs.specs.Waits.{longer, no_wait, waits_after};

use crate::turns::TurnsLeft;
use pool_host::Answer;

// In turns.
const SHORT_WAIT: u64 = 1 << 18;

/// How long a worker waits before it takes its next call: not at all, unless the last one found a kind full. While the next ones
/// do too each wait is twice as long as the one before, up to a short one and to an eighth of all that it waited, whichever is
/// more.
#[derive(Clone, Copy)]
pub struct Waits {
    // In turns that are left to other threads.
    next: u64,
    // All of them since a call last found its slots.
    waited: u64,
}

impl Waits {
    /// None yet.
    pub fn none() -> Waits
        ensures { result ≡ no_wait }
    {
        Waits { next: 0, waited: 0 }
    }

    /// The waits after a call that was answered so.
    pub fn after(self, answer: Option<Answer>) -> Waits
        ensures { result ≡ waits_after self answer }
    {
        match answer {
            Some(Answer::Full(_)) => self.longer(),
            _ => Waits::none(),
        }
    }

    fn longer(self) -> Waits
        ensures { result ≡ longer self }
    {
        let most = SHORT_WAIT.max(self.waited / 8);
        let next = self.next.saturating_mul(2).max(1).min(most);
        Waits {
            next,
            waited: self.waited.saturating_add(next),
        }
    }

    /// How many turns the next wait has.
    pub fn turns(self) -> u64
        ensures { result ≡ self.next }
    {
        self.next
    }

    /// Waits once: leaves so many turns to other threads.
    pub fn wait(self) -> TurnsLeft
        ensures { result.count ≡ self.next }
    {
        let mut left = TurnsLeft::none();
        for _ in 0..self.next {
            left.leave_one();
        }
        left
    }
}
