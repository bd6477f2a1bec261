//! Whole runs whose gate counts what it is told, or holds a call.
use crate::harness::{Run, SOUND, check, over};
use host_edge::Gate;
use std::alloc::Global;
use std::process::Abort;
use std::sync::Wait;
use std::sync::atomic::{AtomicU64, Ordering};
use std::thread::Threads;

const CALLS: &[u8] = b"# calls of an addition
module add 0061736d0100000001070160027f7f017f030201000707010361646400000a09010700200020016a0b
call add add 100 i32:2147483647 i32:1
call add add 100 i32:4294967295 i32:1
call add add 3 i32:2 i32:3
call add add 2 i32:2 i32:3
call add add 0 i32:2 i32:3
call add add 100 i32:2
call add sub 9 i32:1
";

const CALLS_REPORT: &[u8] =
    b"module add ok\n1 ok i32:-2147483648\n2 ok i32:0\n3 ok i32:5\n4 fuel\n5 fuel\n6 refused args\n7 refused export\n";

// A gate that counts what it is told: hex digit K of each number says how often it was told of call K.
#[derive(Drop)]
struct CountingGate {
    entered: AtomicU64,
    answered: AtomicU64,
}

fn count(digits: &AtomicU64, call: u64) {
    digits.fetch_add(1 << (call % 16 * 4), Ordering::SeqCst);
}

impl Gate for CountingGate {
    fn entered(&self, call: u64) {
        count(&self.entered, call);
    }

    fn answered(&self, call: u64) {
        count(&self.answered, call);
    }
}

static COUNTED: [&str; 5] = [
    "poolhost run",
    "poolhost run --workers 2 --instances 3 --memories 3 --tables 3",
    "poolhost run --workers 4 --instances 5 --memories 5 --tables 5",
    "poolhost run --workers 2 --slice 1 --instances 5 --memories 5 --tables 5",
    "poolhost run --workers 4 --slice 1 --instances 9 --memories 9 --tables 9",
];

// Where there are slots for each call that is under way, and the lane's, no call is answered twice, in slices of one as well.
#[test]
fn the_gate_is_told_of_each_call_and_of_each_that_begins(rt: HostRuntime) {
    for &line in &COUNTED {
        let gate = CountingGate {
            entered: AtomicU64::new(0),
            answered: AtomicU64::new(0),
        };
        let run = Run {
            line,
            bytes: CALLS,
            ends: SOUND,
            status: 0,
            written: CALLS_REPORT,
        };
        check(&rt, rt.alloc(), &run, &gate);
        assert_eq!(rt; gate.entered.load(Ordering::SeqCst), 0x11_1110, "{line}");
        assert_eq!(rt; gate.answered.load(Ordering::SeqCst), 0x1111_1110, "{line}");
    }
}

// The most turns for which a gate holds a call.
pub(crate) const MOST_TURNS: u64 = 2_000_000_000;

const BUMPS: &str =
    "module bump 0061736d010000000105016000017f0302010005030100010708010462756d7000000a160114004100410028020041016a36020041002802000b
call bump bump 100
call bump bump 100
";

const TWO_CALLS: &str = "call bump bump 100\ncall bump bump 100\n";

// A gate that holds one call as it enters, until so many calls were answered or it has waited for long enough.
#[derive(Drop)]
struct HoldingGate {
    // its number, or 0 for whichever enters first
    held: u64,
    until: u64,
    entered: AtomicU64,
    answered: AtomicU64,
    // how many were answered when it went on
    seen: AtomicU64,
}

impl HoldingGate {
    fn hold(&self) {
        for _ in 0..MOST_TURNS {
            let answered = self.answered.load(Ordering::SeqCst);
            self.seen.store(answered, Ordering::SeqCst);
            if answered >= self.until {
                return;
            }
        }
    }
}

impl Gate for HoldingGate {
    fn entered(&self, call: u64) {
        let first = self.entered.fetch_add(1, Ordering::SeqCst) == 0;
        if call == self.held || (first && self.held == 0) {
            self.hold();
        }
    }

    fn answered(&self, _call: u64) {
        self.answered.fetch_add(1, Ordering::SeqCst);
    }
}

// A run over the parts of a file, in which a call is held until so many others were answered: the words of its line, the parts, the
// number of the call, or 0 for whichever enters first, how many others, what is written, and how many calls are answered in all.
#[derive(Clone, Copy)]
struct Held {
    line: &'static str,
    parts: &'static [&'static str],
    held: u64,
    until: u64,
    written: &'static str,
    answered: u64,
}

// Such a run writes this, and as many calls are answered while one is held, and in all.
fn check_held<R: Abort + Threads + Wait + Sync>(rt: &R, alloc: Global, run: &Held) {
    let gate = HoldingGate {
        held: run.held,
        until: run.until,
        entered: AtomicU64::new(0),
        answered: AtomicU64::new(0),
        seen: AtomicU64::new(0),
    };
    let text = run.parts.join(alloc, "").expect(rt, "memory");
    let made = over(run.line, text.as_str(), run.written);
    check(rt, alloc, &made, &gate);
    assert_eq!(rt; gate.seen.load(Ordering::SeqCst), run.until, "{}", run.line);
    assert_eq!(rt;
        gate.answered.load(Ordering::SeqCst),
        run.answered,
        "{}",
        run.line
    );
}

// One memory is shared: while the first call is held the others are answered Full, and the lane makes them again.
static ON_THE_LANE: [Held; 2] = [
    Held {
        line: "poolhost run --workers 2 --memories 2",
        parts: &[BUMPS],
        held: 0,
        until: 1,
        written: "module bump ok\n1 ok i32:1\n2 ok i32:1\n",
        answered: 3,
    },
    Held {
        line: "poolhost run --workers 4 --memories 2",
        parts: &[BUMPS, TWO_CALLS],
        held: 0,
        until: 3,
        written: "module bump ok\n1 ok i32:1\n2 ok i32:1\n3 ok i32:1\n4 ok i32:1\n",
        answered: 7,
    },
];

#[test]
fn a_call_that_finds_no_slot_is_made_again_on_the_lane(rt: HostRuntime) {
    for run in &ON_THE_LANE {
        check_held(&rt, rt.alloc(), run);
    }
}

// Two memories are shared: the second call runs while the first is held, and no call is made twice.
static AT_THE_SAME_TIME: Held = Held {
    line: "poolhost run --workers 2 --memories 3 --instances 3 --tables 2",
    parts: &[BUMPS],
    held: 1,
    until: 1,
    written: "module bump ok\n1 ok i32:1\n2 ok i32:1\n",
    answered: 2,
};

#[test]
fn two_calls_run_at_the_same_time(rt: HostRuntime) {
    check_held(&rt, rt.alloc(), &AT_THE_SAME_TIME);
}

// One tenant has a memory: while its first call is held its others are answered Full, and the other tenant's call is not.
static FULL_TENANT: Held = Held {
    line: "poolhost run --workers 2 --memories 4 --instances 5 --tables 4",
    parts: &[
        "profile 4\ntenant flood 2 1 1 0\ntenant quiet 1 1 1 0\nfor flood\n",
        BUMPS,
        "call bump bump 100\nfor quiet\ncall bump bump 100\n",
    ],
    held: 1,
    until: 3,
    written: "module bump ok\n1 ok i32:1\n2 ok i32:1\n3 ok i32:1\n4 ok i32:1\n",
    answered: 6,
};

#[test]
fn a_full_tenant_leaves_the_other_its_slots(rt: HostRuntime) {
    check_held(&rt, rt.alloc(), &FULL_TENANT);
}

// One memory is shared: while the first call is held the others are answered Full, and the lane makes them again before the line.
static MADE_AGAIN: [Held; 2] = [
    Held {
        line: "poolhost run --workers 2 --memories 2",
        parts: &["profile 5\n", BUMPS, "retire bump\ncall bump bump 100\n"],
        held: 0,
        until: 1,
        written: "module bump ok\n1 ok i32:1\n2 ok i32:1\nretire bump done\n3 refused retired\n",
        answered: 4,
    },
    Held {
        line: "poolhost run --workers 4 --memories 2",
        parts: &[
            "profile 5\n",
            BUMPS,
            TWO_CALLS,
            "retire bump\ncall bump bump 100\n",
        ],
        held: 0,
        until: 3,
        written: "module bump ok\n1 ok i32:1\n2 ok i32:1\n3 ok i32:1\n4 ok i32:1\nretire bump done\n5 refused retired\n",
        answered: 8,
    },
];

#[test]
fn a_full_call_is_made_again_before_its_module_is_retired(rt: HostRuntime) {
    for run in &MADE_AGAIN {
        check_held(&rt, rt.alloc(), run);
    }
}

// One tenant has a memory: its calls that find it held are made again before the line, and the other tenant's call stands behind it.
static SERVED_BEFORE: Held = Held {
    line: "poolhost run --workers 2 --memories 4 --instances 5 --tables 4",
    parts: &[
        "profile 5\ntenant flood 2 1 1 0\ntenant quiet 1 1 1 0\nfor flood\n",
        BUMPS,
        "call bump bump 100\nretire bump\nfor quiet\ncall bump bump 100\n",
    ],
    held: 0,
    until: 2,
    written: "module bump ok\n1 ok i32:1\n2 ok i32:1\n3 ok i32:1\nretire bump done\n4 refused retired\n",
    answered: 6,
};

#[test]
fn a_full_tenant_is_served_before_its_module_is_retired(rt: HostRuntime) {
    check_held(&rt, rt.alloc(), &SERVED_BEFORE);
}
