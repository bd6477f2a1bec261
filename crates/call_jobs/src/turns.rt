//! Turns that a thread leaves to others.
ghost use Rattle.std.specs.Prelude.{◌≡◌, ◌+◌, ◌-◌, ◌^◌, ◌<◌};

use std::thread;

/// How many turns were left to other threads. Nothing but leaving one counts.
#[derive(Clone, Copy, Debug)]
pub struct TurnsLeft {
    count: u64,
}

impl TurnsLeft {
    // None so far.
    pub(crate) fn none() -> TurnsLeft
        ensures { result.count ≡ 0 }
    {
        TurnsLeft { count: 0 }
    }

    // Leaves one more.
    pub(crate) fn leave_one(&mut self)
        requires { self.old.count < 2 ^ 64 - 1 }
        ensures { self.new.count ≡ self.old.count + 1 }
    {
        thread::yield_now();
        self.count += 1;
    }
}
