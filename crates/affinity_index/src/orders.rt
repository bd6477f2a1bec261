//! The numbers of the slots that are claimed.
ghost use Rattle.std.specs.Prelude.{◌≡◌};

use arrayvec::ArrayVec;
use pool_core::MOST_SLOTS;
use std::marker::Model;

/// Slot numbers, the one that is claimed first at the front.
#[derive(Drop)]
pub struct Order {
    pub(crate) numbers: ArrayVec<u32, MOST_SLOTS>,
}

impl Model for Order {
    ghost use Rattle.std.specs.Prelude.{List, ℕ};

    ghost Value = { List ℕ };

    ghost view = { λ o. o.numbers.items };
}

impl Order {
    /// The numbers, the one that is claimed first at the front.
    pub fn numbers(&self) -> &[u32]
        ensures { result.now ≡ self.now }
    {
        self.numbers.as_slice()
    }
}
