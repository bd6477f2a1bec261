//! The numbers of a configuration, and the range of each.
ghost use Rattle.std.specs.Prelude.{◌≡◌};
ghost use Rattle.pool_limits.specs.Ranges.{bad_number, is_outside, least_total, ranged, ranges};

use thiserror::Error;

/// What the pools have, and what a module may ask for.
#[derive(Clone, Copy, Debug, PartialEq, Eq)]
pub struct Numbers {
    /// Threads that make calls, from 1 to 16.
    pub workers: u32,
    /// Slots for instances, from 1 to 1,024; from 2 where there are several workers.
    pub instances: u32,
    /// Slots for memories, from 1 to 1,024; from 2 where there are several workers.
    pub memories: u32,
    /// Slots for tables, from 1 to 1,024; from 2 where there are several workers.
    pub tables: u32,
    /// Slots of the memories, and of the tables, that may be warm while no call has them, from 0 to 1,024.
    pub warm: u32,
    /// Memory slots that await their decommit together, from 1 to 1,024.
    pub batch: u32,
    /// The most pages of 65,536 bytes that a memory may have, from 1 to 256.
    pub pages: u32,
    /// The most elements that a table may have, from 0 to 65,536.
    pub elements: u32,
    /// The most calls within one another, from 1 to 1,000.
    pub depth: u32,
    /// The most entries that the frame of one function may have, from 1 to 4,096.
    pub frame: u32,
}

/// One of the numbers, by its name.
#[derive(Clone, Copy, Debug, PartialEq, Eq)]
pub enum Setting {
    Workers,
    Instances,
    Memories,
    Tables,
    Warm,
    Batch,
    Pages,
    Elements,
    Depth,
    Frame,
}

/// A number that is out of its range.
#[derive(Clone, Copy, Debug, PartialEq, Eq, Error)]
#[error("the number {value} of {which:?} is out of range")]
pub struct BadNumber {
    pub which: Setting,
    pub value: u32,
}

// A number, and the least and the greatest that it may be.
#[derive(Clone, Copy)]
struct Ranged {
    pub which: Setting,
    pub value: u32,
    pub least: u32,
    pub most: u32,
}

impl Ranged {
    fn new(which: Setting, value: u32, least: u32, most: u32) -> Ranged
        ensures { result ≡ ranged which value least most }
    {
        Ranged {
            which,
            value,
            least,
            most,
        }
    }

    fn is_outside(&self) -> bool
        ensures { result ≡ is_outside self.now }
    {
        self.value < self.least || self.most < self.value
    }
}

impl Default for Numbers {
    ghost use Rattle.std.specs.Prelude.{◌≡◌};
    ghost use Rattle.pool_limits.specs.Ranges.{default_numbers};

    ghost is_default = { λ numbers. numbers ≡ default_numbers };

    /// Those of `poolhost run` where no option is given. Takes no memory.
    fn default() -> Numbers {
        Numbers {
            workers: 1,
            instances: 4,
            memories: 4,
            tables: 4,
            warm: 2,
            batch: 4,
            pages: 32,
            elements: 1_024,
            depth: 128,
            frame: 1_024,
        }
    }
}

impl Numbers {
    // Where there are several workers, one slot of each kind is not shared.
    fn least_total(&self) -> u32
        ensures { result ≡ least_total self.now }
    {
        if self.workers < 2 { 1 } else { 2 }
    }

    // Each number with its range.
    fn ranges(&self) -> [Ranged; 10]
        ensures { result ≡ ranges self.now }
    {
        let total = self.least_total();
        [
            Ranged::new(Setting::Workers, self.workers, 1, 16),
            Ranged::new(Setting::Instances, self.instances, total, 1_024),
            Ranged::new(Setting::Memories, self.memories, total, 1_024),
            Ranged::new(Setting::Tables, self.tables, total, 1_024),
            Ranged::new(Setting::Warm, self.warm, 0, 1_024),
            Ranged::new(Setting::Batch, self.batch, 1, 1_024),
            Ranged::new(Setting::Pages, self.pages, 1, 256),
            Ranged::new(Setting::Elements, self.elements, 0, 65_536),
            Ranged::new(Setting::Depth, self.depth, 1, 1_000),
            Ranged::new(Setting::Frame, self.frame, 1, 4_096),
        ]
    }
    // The first number that is out of its range.
    pub(crate) fn first_outside(&self) -> Option<BadNumber>
        ensures { result ≡ bad_number self.now }
    {
        let ranges = self.ranges();
        let outside = ranges.iter().find(|r| r.is_outside());
        outside.map(|r| BadNumber {
            which: r.which,
            value: r.value,
        })
    }
}
