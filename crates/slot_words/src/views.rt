//! What is known of a pass. No value of these types is ever made, but of [`Pass`].
use atomic_table::Seat as TableSeat;
use pool_core::Seat;
use std::collections::LinkedList;

/// One operation on a word: the slot's number where it has one, then the number that it read. A release has the number that it stored.
pub enum Operation {
    Load(u32, u64),
    Claim(u32, u64),
    Release(u32, u64),
    WarmLoad(u64),
    WarmUp(u64),
    WarmDown(u64),
    Stamp(u64),
    AwaitUp(u64),
    AwaitDown(u64),
    AwaitLoad(u64),
}

/// What one pass did: the number of its seat, and its operations on words so far.
pub struct SeatTrail {
    pub seat: u64,
    pub trail: LinkedList<Operation>,
}

/// What a `Words` is told once, as it opens, and what holds of it for good.
#[derive(Clone, Copy, Debug)]
pub struct Bounds {
    /// The most slots that may be warm.
    pub limit: u64,
    /// How many passes are handed out.
    pub passes: u64,
}

/// What a pass knows.
pub struct PassView {
    /// The number of its seat.
    pub number: u64,
    /// Its seat in the core. The seat's `out` stays false: whether the value is out is seen in the pass's slot.
    pub seat: Seat,
    pub bounds: Bounds,
    /// How many seats may still be split off from it. It is 0 from `Words::open` on.
    pub unsplit: u64,
    /// How many of the passes of `Words::open` it stands for.
    pub share: u64,
    /// Its operations on words so far.
    pub trail: LinkedList<Operation>,
    /// The trails of the passes that were joined into it.
    pub joined: LinkedList<SeatTrail>,
}

/// One seat at a [`Words`](crate::Words) of values `V`. It has no bytes.
///
/// An idle pass that is needed no more is joined into another: `Words::close` then knows its trail.
pub type Pass<V> = TableSeat<Option<V>, PassView>;
