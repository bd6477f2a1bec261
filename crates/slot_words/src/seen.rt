//! Room for a scan.
ghost use Rattle.std.specs.Prelude.{◌≡◌, ℕ, [], take};

use pool_core::MOST_SLOTS;
use std::marker::Model;

/// The state words that the last scan read, by slot number.
#[derive(Drop)]
pub struct Seen {
    pub(crate) words: [u64; MOST_SLOTS],
    pub(crate) count: usize,
}

impl Model for Seen {
    ghost use Rattle.std.specs.Prelude.{List, ℕ, ◌≤◌, take};
    ghost use Rattle.pool_core.specs.declared.limits.TheConstants.{MOST_SLOTS};

    ghost Value = { List ℕ };

    ghost view = { λ s. take s.count s.words };

    ghost invariant = { λ s. s.count ≤ MOST_SLOTS };
}

impl Seen {
    /// Nothing seen yet, and room for the words of any pool.
    pub fn new() -> Seen
        ensures { result ≡ [] }
    {
        Seen {
            words: [0; MOST_SLOTS],
            count: 0,
        }
    }

    /// The words of the last scan.
    pub fn words(&self) -> &[u64]
        ensures { result.now ≡ self.now }
    {
        &self.words[..self.count]
    }
}
