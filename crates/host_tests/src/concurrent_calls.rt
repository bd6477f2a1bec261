//! Calls that are made at the same time.
ghost use Rattle.std.specs.Prelude.{◌<◌};
ghost use Rattle.module_store.specs.Names.{Bears};
ghost use Rattle.pool_host.specs.Hosts.{IsHostPass};

use crate::callers::{BUMP, ONE, bump, close_two, open, register, two_callers};
use host_edge::{Gate, OpenGate};
use module_store::{Desk, ModuleRef, ModuleStore, Naming, Opened};
use pool_host::{Answer, Host, HostPass, Kind};
use std::alloc::Global;
use std::marker::Brand;
use std::process::Abort;
use std::sync::Wait;
use std::sync::atomic::{AtomicBool, Ordering};
use std::thread;
use std::thread::Threads;
use wasm_values::{Outcome, Profile, Val};

static ADD: [u8; 41] =
    *b"\0asm\x01\0\0\0\x01\x07\x01\x60\x02\x7f\x7f\x01\x7f\x03\x02\x01\0\x07\x07\x01\x03add\0\0\x0a\x09\x01\x07\0\x20\0\x20\x01\x6a\x0b";

// Holds call 1 as it enters until call 2 was answered, and lets the others begin then; both for so many turns at most.
#[derive(Drop)]
pub(crate) struct HoldingGate {
    pub(crate) entered: AtomicBool,
    answered: AtomicBool,
    // call 2 was answered while call 1 was held
    seen: AtomicBool,
}

const MOST_TURNS: u64 = 2_000_000_000;

pub(crate) fn wait_for(flag: &AtomicBool) -> bool {
    for _ in 0..MOST_TURNS {
        if flag.load(Ordering::SeqCst) {
            return true;
        }
    }
    false
}

impl HoldingGate {
    pub(crate) fn new() -> HoldingGate {
        HoldingGate {
            entered: AtomicBool::new(false),
            answered: AtomicBool::new(false),
            seen: AtomicBool::new(false),
        }
    }
}

impl Gate for HoldingGate {
    fn entered(&self, call: u64) {
        if call == 1 {
            self.entered.store(true, Ordering::SeqCst);
            self.seen.store(wait_for(&self.answered), Ordering::SeqCst);
        }
    }

    fn answered(&self, call: u64) {
        if call == 2 {
            self.answered.store(true, Ordering::SeqCst);
        }
    }
}

// Call 2: of `bump`, or where there is a desk an addition of a module that is registered now.
fn second<N: Naming, R: Abort + Wait>(
    rt: &R,
    alloc: Global,
    host: &Host<N>,
    mut pass: HostPass<N>,
    store: &ModuleStore<N>,
    module: &ModuleRef<N>,
    desk: Option<Desk<N>>,
    gate: &HoldingGate,
) -> (Answer, HostPass<N>)
    requires { IsHostPass host.now pass }
    ensures { IsHostPass host.now result.1 }
{
    wait_for(&gate.entered);
    let Some(mut desk) = desk else {
        return bump(host, pass, store, module, 2, gate);
    };
    let module = register(rt, alloc, store, &mut desk, Profile::One, ADD.as_slice());
    let args = [Val::I32(2), Val::I32(3)];
    let answer = host.call(&mut pass, store, &module, b"add", &args, 100, 2, gate);
    (answer, pass)
}

// Makes call 1 and call 2, on two threads.
fn both<N: Naming + Send + Sync, R: Abort + Threads + Wait + Sync>(
    rt: &R,
    alloc: Global,
    host: &Host<N>,
    one: HostPass<N>,
    two: HostPass<N>,
    store: &ModuleStore<N>,
    module: &ModuleRef<N>,
    desk: Option<Desk<N>>,
) -> ((Answer, HostPass<N>), (Answer, HostPass<N>))
    requires { IsHostPass host.now one × IsHostPass host.now two }
    ensures { IsHostPass host.now result.0.1 × IsHostPass host.now result.1.1 }
{
    let gate = HoldingGate::new();
    let answers = thread::join(
        rt,
        || -> (Answer, HostPass<N>)
            requires { IsHostPass host.now one }
            ensures { IsHostPass host.entry.now result.1 }
        { bump(host, one, store, module, 1, &gate) },
        || -> (Answer, HostPass<N>)
            requires { IsHostPass host.now two }
            ensures { IsHostPass host.entry.now result.1 }
        { second(rt, alloc, host, two, store, module, desk, &gate) },
    );
    assert!(rt; gate.seen.load(Ordering::SeqCst));
    answers
}

// What call 1 and call 2 are answered, and call 2 of `bump` when call 1 is over; and how many slots of each kind are held in the end.
fn held<N: Naming + Send + Sync, R: Abort + Threads + Wait + Sync>(
    rt: &R,
    alloc: Global,
    opened: Opened,
    memories: u32,
    adds: bool,
) -> ([Answer; 3], [u32; 3])
    requires bears { Bears opened N.shelves N.config N.most }
    requires memories { 0 < memories × memories < 5 }
{
    let (store, mut desk) = opened.named::<N>();
    let module = register(rt, alloc, &store, &mut desk, Profile::One, BUMP.as_slice());
    let (host, one, two) = two_callers(rt, alloc, &store, memories);
    let desk = if adds { Some(desk) } else { None };
    let ((first, one), (second, two)) = both(rt, alloc, &host, one, two, &store, &module, desk);
    let (again, two) = bump(&host, two, &store, &module, 2, &OpenGate);
    let counts = close_two(rt, alloc, host, one, two);
    (
        [first, second, again],
        [counts.instance.held, counts.memory.held, counts.table.held],
    )
}

const DONE: Answer = Answer::Done(ONE);

const FIVE: Answer = Answer::Done(Outcome::Done(Some(Val::I32(5))));

// Of one memory, which call 1 has; of two; and of two, where call 2 is of a module that is registered beside call 1.
static ROWS: [(u32, bool, Answer); 3] = [
    (1, false, Answer::Full(Kind::Memory)),
    (2, false, DONE),
    (2, true, FIVE),
];

#[test]
fn a_call_is_made_or_finds_no_memory_beside_a_held_call(rt: HostRuntime) {
    let alloc = rt.alloc();
    for &(memories, adds, second) in &ROWS {
        let opened = open(&rt, alloc, 2, 4);
        let ends = held::<Brand, HostRuntime>(&rt, alloc, opened, memories, adds);
        assert!(rt;
            ends == ([DONE, second, DONE], [0, 0, 0]),
            "{memories}, {adds}"
        );
    }
}
