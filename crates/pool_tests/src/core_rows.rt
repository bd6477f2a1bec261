//! Lists of events from a pool's opening, and the 64 bits of a slot's word.
use pool_core::Event::{
    AwaitDown, AwaitLoad, AwaitUp, Claim, Home, Join, Load, Out, Release, Split, Stamp, WarmDown,
    WarmUp,
};
use pool_core::{Core, Event, ReplayFault, State, Target, Unlawful, pack, replay, step};
use std::alloc::Global;
use std::process::Abort;

const COLD: Target = Target::COLD;

const COLD_1: Target = Target {
    state: State::Cold,
    tag: 1,
    stamp: 0,
};

const WARM_1: Target = Target {
    state: State::Warm,
    tag: 1,
    stamp: 0,
};

const WARM_5: Target = Target {
    state: State::Warm,
    tag: 5,
    stamp: 0,
};

const WARM_6: Target = Target {
    state: State::Warm,
    tag: 6,
    stamp: 0,
};

const AWAITING_5: Target = Target {
    state: State::Awaiting,
    tag: 5,
    stamp: 0,
};

const AWAITING_6: Target = Target {
    state: State::Awaiting,
    tag: 6,
    stamp: 0,
};

const GREATEST: Target = Target {
    state: State::Awaiting,
    tag: 1_048_575,
    stamp: 2_199_023_255_551,
};

const PAST_TAGS: Target = Target {
    state: State::Awaiting,
    tag: 1_048_576,
    stamp: 0,
};

const PAST_STAMPS: Target = Target {
    state: State::Awaiting,
    tag: 0,
    stamp: 2_199_023_255_552,
};

// A list of events, the first that is refused, and the words and the warm, await and clock counts after all that are not.
struct Row {
    // How many slots, how many of them warm, and how many seats.
    opening: [u32; 3],
    events: &'static [Event],
    refused: Option<ReplayFault>,
    words: [Option<u64>; 3],
    counts: [u64; 3],
}

static ROWS: [Row; 11] = [
    // A claim of a held slot changes nothing, and gives no leave to release it.
    Row {
        opening: [1, 1, 2],
        events: &[Split(0, 1), Claim(0, 0), Claim(1, 0), Release(1, 0, COLD)],
        refused: Some(ReplayFault::Unlawful {
            at: 3,
            rule: 4,
            number: 0,
        }),
        words: [Some(1), None, None],
        counts: [0, 0, 0],
    },
    // A slot is left awaiting, claimed again, and left warm.
    Row {
        opening: [1, 1, 1],
        events: &[
            Claim(0, 0),
            Out(0, 0),
            AwaitUp(0),
            Stamp(0),
            Home(0, 0),
            Release(0, 0, AWAITING_5),
            AwaitLoad(0),
            Load(0, 0),
            Claim(0, 0),
            AwaitDown(0),
            Out(0, 0),
            WarmUp(0),
            Home(0, 0),
            Release(0, 0, WARM_5),
        ],
        refused: None,
        words: [Some(42), None, None],
        counts: [1, 0, 1],
    },
    // Only an idle seat joins another.
    Row {
        opening: [2, 0, 2],
        events: &[Split(0, 1), Claim(0, 0), Claim(1, 1), Join(0, 1)],
        refused: Some(ReplayFault::Unlawful {
            at: 3,
            rule: 3,
            number: 0,
        }),
        words: [Some(1), Some(1), None],
        counts: [0, 0, 0],
    },
    // A warm release needs a permit.
    Row {
        opening: [1, 1, 1],
        events: &[Claim(0, 0), Release(0, 0, WARM_5)],
        refused: Some(ReplayFault::Unlawful {
            at: 1,
            rule: 6,
            number: 0,
        }),
        words: [Some(1), None, None],
        counts: [0, 0, 0],
    },
    // At the limit a slot is left cold.
    Row {
        opening: [2, 1, 1],
        events: &[
            Claim(0, 0),
            WarmUp(0),
            Release(0, 0, WARM_5),
            Claim(0, 1),
            WarmUp(0),
            WarmDown(0),
            Release(0, 1, COLD),
        ],
        refused: None,
        words: [Some(42), Some(0), None],
        counts: [1, 0, 0],
    },
    // A refusal is no permit.
    Row {
        opening: [2, 1, 1],
        events: &[
            Claim(0, 0),
            WarmUp(0),
            Release(0, 0, WARM_5),
            Claim(0, 1),
            WarmUp(0),
            Release(0, 1, WARM_6),
        ],
        refused: Some(ReplayFault::Unlawful {
            at: 5,
            rule: 6,
            number: 1,
        }),
        words: [Some(42), Some(1), None],
        counts: [2, 0, 0],
    },
    // An awaiting slot is claimed in mid-flush, and the loser may not release it.
    Row {
        opening: [1, 1, 2],
        events: &[
            Split(0, 1),
            Claim(0, 0),
            AwaitUp(0),
            Release(0, 0, AWAITING_5),
            Load(0, 0),
            Claim(1, 0),
            Claim(0, 0),
            AwaitDown(1),
            AwaitUp(1),
            Stamp(1),
            Release(1, 0, AWAITING_6),
            Release(0, 0, COLD),
        ],
        refused: Some(ReplayFault::Unlawful {
            at: 11,
            rule: 4,
            number: 0,
        }),
        words: [Some(52), None, None],
        counts: [0, 1, 1],
    },
    // A refusal keeps the count at the limit, though no permit stands.
    Row {
        opening: [3, 1, 3],
        events: &[
            Split(0, 1),
            Split(0, 2),
            Claim(0, 0),
            Claim(1, 1),
            Claim(2, 2),
            WarmUp(0),
            WarmUp(1),
            WarmDown(0),
            WarmUp(2),
            Release(2, 2, WARM_1),
        ],
        refused: Some(ReplayFault::Unlawful {
            at: 9,
            rule: 6,
            number: 2,
        }),
        words: [Some(1), Some(1), Some(1)],
        counts: [2, 0, 0],
    },
    // A tag or a stamp that is one too great is refused, and the greatest are not.
    Row {
        opening: [1, 0, 1],
        events: &[
            Claim(0, 0),
            AwaitUp(0),
            Release(0, 0, PAST_TAGS),
            Release(0, 0, GREATEST),
        ],
        refused: Some(ReplayFault::Unlawful {
            at: 2,
            rule: 8,
            number: 0,
        }),
        words: [Some(18446744073709551612), None, None],
        counts: [0, 1, 0],
    },
    Row {
        opening: [1, 0, 1],
        events: &[Claim(0, 0), AwaitUp(0), Release(0, 0, PAST_STAMPS)],
        refused: Some(ReplayFault::Unlawful {
            at: 2,
            rule: 8,
            number: 0,
        }),
        words: [Some(1), None, None],
        counts: [0, 1, 0],
    },
    // A cold slot has no tag.
    Row {
        opening: [1, 0, 1],
        events: &[Claim(0, 0), Release(0, 0, COLD_1)],
        refused: Some(ReplayFault::Unlawful {
            at: 1,
            rule: 8,
            number: 0,
        }),
        words: [Some(1), None, None],
        counts: [0, 0, 0],
    },
];

// Applies each event, and gives the first fault.
fn stepped(core: &mut Core, events: &[Event]) -> Option<ReplayFault> {
    let mut first = None;
    for (at, event) in events.iter().enumerate() {
        if let Err(Unlawful { rule, number }) = step(core, *event) {
            first = first.or(Some(ReplayFault::Unlawful { at, rule, number }));
        }
    }
    first
}

fn check_row(rt: &impl Abort, alloc: Global, place: usize, row: &Row) {
    let [slots, warm, seats] = row.opening;
    assert!(rt; seats >= 1);
    let mut core = Core::new(alloc, slots, warm, seats).expect(rt, "memory");
    let refused = stepped(&mut core, row.events);
    let words = [core.word(0), core.word(1), core.word(2)];
    let counts = [core.warm(), core.awaiting(), core.clock()];
    let end = (refused, words, counts);
    assert!(rt; end == (row.refused, row.words, row.counts), "row {place}");
    let replayed = replay(alloc, slots, warm, seats, row.events);
    assert!(rt; replayed.err() == row.refused, "row {place}, replayed");
}

#[test]
fn events_are_refused_by_the_least_rule_or_end_as_worked(rt: HostRuntime) {
    for (place, row) in ROWS.iter().enumerate() {
        check_row(&rt, rt.alloc(), place, row);
    }
}

#[test]
fn words_are_packed_as_the_layout_says(rt: HostRuntime) {
    let target = Target {
        state: State::Warm,
        tag: 7,
        stamp: 12,
    };
    let packed = [pack(target, false), pack(target, true), pack(WARM_5, false)];
    assert_eq!(rt; packed, [100663354, 100663355, 42]);
}
