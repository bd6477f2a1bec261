//! Whole runs whose gate tells how the calls were made: how many entered, and how many were under way at the same time.
use crate::gates::MOST_TURNS;
use crate::harness::{ended, over};
use host_edge::Gate;
use std::alloc::Global;
use std::process::Abort;
use std::sync::Wait;
use std::sync::atomic::{AtomicU64, Ordering};
use std::thread::Threads;

// A module that counts up in its memory, and eight calls of it.
const BUMPS: &str =
    "module bump 0061736d010000000105016000017f0302010005030100010708010462756d7000000a160114004100410028020041016a36020041002802000b
call bump bump 100
call bump bump 100
call bump bump 100
call bump bump 100
call bump bump 100
call bump bump 100
call bump bump 100
call bump bump 100
";

// One that counts its argument down to 0, without a memory, and eight calls of it.
const COUNTS: &str =
    "module cnt 0061736d0100000001060160017f017f03020100070501016300000a120110000340200041016b22000d000b20000b
call cnt c 2000 i32:100
call cnt c 2000 i32:100
call cnt c 2000 i32:100
call cnt c 2000 i32:100
call cnt c 2000 i32:100
call cnt c 2000 i32:100
call cnt c 2000 i32:100
call cnt c 2000 i32:100
";

// A call on each side of a retire line of its module.
const RETIRED: &str = "profile 5
module bump 0061736d010000000105016000017f0302010005030100010708010462756d7000000a160114004100410028020041016a36020041002802000b
call bump bump 100
retire bump
call bump bump 100
";

// Calls of two modules, of which the one is retired between them.
const BEHIND: &str = "profile 5
module cnt 0061736d0100000001060160017f017f03020100070501016300000a120110000340200041016b22000d000b20000b
module bump 0061736d010000000105016000017f0302010005030100010708010462756d7000000a160114004100410028020041016a36020041002802000b
call cnt c 100 i32:3
retire cnt
call bump bump 100
call bump bump 100
";

// Notes how many calls entered, which of them are under way, by a bit for each, and how many were so at the most. Each from a number on
// waits as it enters until so many have, or for long enough.
#[derive(Drop)]
struct Meeting {
    from: u64,
    wanted: u64,
    entered: AtomicU64,
    inside: AtomicU64,
    most: AtomicU64,
}

impl Gate for Meeting {
    fn entered(&self, call: u64) {
        let bit = 1 << (call % 64);
        let inside = self.inside.fetch_or(bit, Ordering::SeqCst) | bit;
        let count = u64::from(inside.count_ones());
        self.most.fetch_max(count, Ordering::SeqCst);
        self.entered.fetch_add(1, Ordering::SeqCst);
        for _ in 0..MOST_TURNS {
            if call < self.from || self.entered.load(Ordering::SeqCst) >= self.wanted {
                return;
            }
        }
    }

    fn answered(&self, call: u64) {
        let bit: u64 = 1 << (call % 64);
        self.inside.fetch_and(!bit, Ordering::SeqCst);
    }
}

// A run over a file, in which each call from a number on waits until so many entered: the words of its line, the file, both numbers.
type Met = (&'static str, &'static str, u64, u64);

// How many calls of such a run entered, and how many were under way at the most.
fn met<R: Abort + Threads + Wait + Sync>(rt: &R, alloc: Global, run: &Met) -> (u64, u64) {
    let (line, text, from, wanted) = *run;
    let gate = Meeting {
        from,
        wanted,
        entered: AtomicU64::new(0),
        inside: AtomicU64::new(0),
        most: AtomicU64::new(0),
    };
    let (status, _sink) = ended(rt, alloc, &over(line, text, ""), &gate);
    assert_eq!(rt; status, 0, "{line}");
    let entered = gate.entered.load(Ordering::SeqCst);
    (entered, gate.most.load(Ordering::SeqCst))
}

static NEVER_ENTERED: [Met; 4] = [
    ("poolhost run", RETIRED, 1, 0),
    ("poolhost run --workers 2", RETIRED, 1, 0),
    ("poolhost run --workers 4", RETIRED, 1, 0),
    ("poolhost run --workers 4 --slice 1", RETIRED, 1, 0),
];

// Of a call on each side of a retire line only the first enters, also where slices are asked for.
#[test]
fn a_call_behind_a_retire_line_never_enters(rt: HostRuntime) {
    for run in &NEVER_ENTERED {
        let (entered, _most) = met(&rt, rt.alloc(), run);
        assert_eq!(rt; entered, 1, "{}", run.0);
    }
}

static AT_ONCE: [Met; 5] = [
    ("poolhost run", BUMPS, 1, 1),
    ("poolhost run --workers 2", BUMPS, 1, 2),
    ("poolhost run --workers 3", BUMPS, 1, 3),
    ("poolhost run --workers 4", BUMPS, 1, 3),
    (
        "poolhost run --workers 4 --memories 5 --instances 5 --tables 5",
        BUMPS,
        1,
        4,
    ),
];

// As many calls as there are workers, and slots for them, are under way at once, with the usual totals too: these are 4, and one slot
// of each kind is the lane's.
#[test]
fn all_workers_are_in_calls_at_once(rt: HostRuntime) {
    for run in &AT_ONCE {
        let (_entered, most) = met(&rt, rt.alloc(), run);
        assert_eq!(rt; most, run.3, "{}", run.0);
    }
}

// So are they behind a retire line: calls 2 and 3, when call 1 has entered too.
#[test]
fn two_workers_are_in_calls_behind_a_retire_line(rt: HostRuntime) {
    let run = ("poolhost run --workers 2", BEHIND, 2, 3);
    let (_entered, most) = met(&rt, rt.alloc(), &run);
    assert_eq!(rt; most, 2);
}

// Runs in slices, and how many workers each has.
static IN_SLICES: [(Met, u64); 2] = [
    (
        (
            "poolhost run --workers 2 --slice 10 --memories 5 --instances 5 --tables 5",
            COUNTS,
            1,
            0,
        ),
        2,
    ),
    (
        (
            "poolhost run --workers 4 --slice 10 --memories 9 --instances 9 --tables 9",
            COUNTS,
            1,
            0,
        ),
        4,
    ),
];

// With slices more calls are under way than there are workers.
#[test]
fn workers_are_in_more_calls_in_slices(rt: HostRuntime) {
    for (run, workers) in &IN_SLICES {
        let (_entered, most) = met(&rt, rt.alloc(), run);
        assert!(rt; most > *workers, "{}: {most}", run.0);
    }
}
