//! Numbers of a configuration, at the ends of their ranges and past them.
use pool_limits::{BadNumber, Numbers, PoolConfig, Setting};

const USUAL: Numbers = Numbers {
    workers: 1,
    instances: 4,
    memories: 4,
    tables: 4,
    warm: 2,
    batch: 4,
    pages: 32,
    elements: 1_024,
    depth: 128,
    frame: 1_024,
};

// The least and the greatest that a number may be where there is one worker, and two that it may not be.
const RANGES: [(Setting, [u32; 2], [u32; 2]); 10] = [
    (Setting::Workers, [1, 16], [0, 17]),
    (Setting::Instances, [1, 1_024], [0, 1_025]),
    (Setting::Memories, [1, 1_024], [0, 1_025]),
    (Setting::Tables, [1, 1_024], [0, 1_025]),
    (Setting::Warm, [0, 1_024], [1_025, u32::MAX]),
    (Setting::Batch, [1, 1_024], [0, 1_025]),
    (Setting::Pages, [1, 256], [0, 257]),
    (Setting::Elements, [0, 65_536], [65_537, u32::MAX]),
    (Setting::Depth, [1, 1_000], [0, 1_001]),
    (Setting::Frame, [1, 4_096], [0, 4_097]),
];

// Of two numbers the second is refused.
const PAIRS: [((Setting, u32), (Setting, u32)); 4] = [
    ((Setting::Batch, 0), (Setting::Workers, 17)),
    ((Setting::Workers, 2), (Setting::Instances, 1)),
    ((Setting::Workers, 2), (Setting::Memories, 1)),
    ((Setting::Workers, 2), (Setting::Tables, 1)),
];

fn with(mut numbers: Numbers, (which, value): (Setting, u32)) -> Numbers {
    match which {
        Setting::Workers => numbers.workers = value,
        Setting::Instances => numbers.instances = value,
        Setting::Memories => numbers.memories = value,
        Setting::Tables => numbers.tables = value,
        Setting::Warm => numbers.warm = value,
        Setting::Batch => numbers.batch = value,
        Setting::Pages => numbers.pages = value,
        Setting::Elements => numbers.elements = value,
        Setting::Depth => numbers.depth = value,
        Setting::Frame => numbers.frame = value,
    }
    numbers
}

// The number that is refused where two of the usual ones are changed so, if one is.
fn refused(one: (Setting, u32), other: (Setting, u32)) -> Option<(Setting, u32)> {
    match PoolConfig::new(with(with(USUAL, one), other)) {
        Ok(_) => None,
        Err(BadNumber { which, value }) => Some((which, value)),
    }
}

// Whether the number is taken.
fn is_taken(number: (Setting, u32)) -> bool {
    refused(number, number).is_none()
}

// Whether it is refused where another number is this one.
fn is_refused(other: (Setting, u32), number: (Setting, u32)) -> bool {
    refused(other, number) == Some(number)
}

// Whether a number is taken at both ends of its range, and refused outside.
fn has_range(which: Setting, within: [u32; 2], outside: [u32; 2]) -> bool {
    is_taken((which, within[0]))
        && is_taken((which, within[1]))
        && is_refused((which, outside[0]), (which, outside[0]))
        && is_refused((which, outside[1]), (which, outside[1]))
}

// The place of the first range that isn't so, or how many there are.
fn ranges_kept() -> usize {
    for (place, (which, within, outside)) in RANGES.iter().enumerate() {
        if !has_range(*which, *within, *outside) {
            return place;
        }
    }
    RANGES.len()
}

// The place of the first pair that isn't so, or how many there are.
fn pairs_kept() -> usize {
    for (place, (other, number)) in PAIRS.iter().enumerate() {
        if !is_refused(*other, *number) {
            return place;
        }
    }
    PAIRS.len()
}

#[test]
fn each_number_has_its_range_and_the_first_outside_is_named(rt: HostRuntime) {
    assert_eq!(rt; [ranges_kept(), pairs_kept()], [10, 4]);
}
