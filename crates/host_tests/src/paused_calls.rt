//! Calls that are paused: how they end, which slots they have, and what a gate is told of them.
ghost use Rattle.module_store.specs.Names.{Bears};
ghost use Rattle.pool_host.specs.Hosts.{IsHostPass};
ghost use Rattle.pool_host.specs.Pausing.{IsOfHost};

use crate::callers::{BUMP, ONE, bump, close_one, one_module, open, two_callers};
use host_edge::Gate;
use module_store::{ModuleRef, ModuleStore, Naming, Opened};
use pool_host::{Answer, Begun, Host, HostPass, Kind, Paused, Turned};
use std::alloc::Global;
use std::marker::Brand;
use std::process::Abort;
use std::sync::Wait;
use std::sync::atomic::{AtomicU64, Ordering};
use wasm_values::{Outcome, Val};

// Counts its argument down in a loop: six turns for each, and one.
static COUNTING: [u8; 47] =
    *b"\0asm\x01\0\0\0\x01\x06\x01\x60\x01\x7f\x01\x7f\x03\x02\x01\0\x07\x05\x01\x01c\0\0\x0a\x12\x01\x10\0\x03\x40\x20\0\x41\x01\x6b\x22\0\x0d\0\x0b\x20\0\x0b";

// Notes what it is told, a hex digit each: K where call K entered, and 8 more where it was answered.
#[derive(Drop)]
struct NotingGate {
    told: AtomicU64,
}

impl NotingGate {
    fn new() -> NotingGate {
        NotingGate {
            told: AtomicU64::new(0),
        }
    }

    fn note(&self, digit: u64) {
        let told = self.told.load(Ordering::SeqCst);
        self.told.store(told << 4 | digit, Ordering::SeqCst);
    }
}

impl Gate for NotingGate {
    fn entered(&self, call: u64) {
        self.note(call % 8);
    }

    fn answered(&self, call: u64) {
        self.note(call % 8 + 8);
    }
}

// What is asked of a module, and the number of the call.
#[derive(Clone, Copy)]
struct Asked<'a> {
    export: &'a str,
    args: &'a [Val],
    fuel: u64,
    number: u64,
}

// A call of `bump` with this number.
fn bumping<'a>(number: u64) -> Asked<'a> {
    Asked {
        export: "bump",
        args: &[],
        fuel: 100,
        number,
    }
}

// A call that has its slots.
fn begun<N: Naming, R: Abort>(
    rt: &R,
    host: &Host<N>,
    pass: HostPass<N>,
    store: &ModuleStore<N>,
    module: &ModuleRef<N>,
    asked: Asked<'_>,
    gate: &NotingGate,
) -> Paused<N>
    requires { IsHostPass host.now pass }
    ensures { IsOfHost host.now result }
{
    let Asked {
        export,
        args,
        fuel,
        number,
    } = asked;
    let export = export.as_bytes();
    match host.begin(pass, store, module, export, args, fuel, number, gate) {
        Begun::Ready(paused) => paused,
        _ => panic!(rt; "call {number} did not begin"),
    }
}

// Why a call does not begin, and its pass.
fn refused<N: Naming, R: Abort>(
    rt: &R,
    host: &Host<N>,
    pass: HostPass<N>,
    store: &ModuleStore<N>,
    module: &ModuleRef<N>,
    asked: Asked<'_>,
    gate: &NotingGate,
) -> (Answer, HostPass<N>)
    requires { IsHostPass host.now pass }
    ensures { IsHostPass host.now result.1 }
{
    let Asked {
        export,
        args,
        fuel,
        number,
    } = asked;
    let export = export.as_bytes();
    match host.begin(pass, store, module, export, args, fuel, number, gate) {
        Begun::NoExport(pass) => (Answer::NoExport, pass),
        Begun::BadArgs(pass) => (Answer::BadArgs, pass),
        Begun::Retired(pass) => (Answer::Retired, pass),
        Begun::Full(pass, kind) => (Answer::Full(kind), pass),
        Begun::Ready(_) => panic!(rt; "call {number} began"),
    }
}

// Makes a slice of a call that has more turns to make after it.
fn again<N: Naming, R: Abort>(
    rt: &R,
    host: &Host<N>,
    store: &ModuleStore<N>,
    paused: Paused<N>,
    slice: u64,
    gate: &NotingGate,
) -> Paused<N>
    requires { IsOfHost host.now paused }
    ensures { IsOfHost host.now result }
{
    match paused.resume(host, store, slice, gate) {
        Turned::Again(paused) => paused,
        Turned::Done(..) => panic!(rt; "the call was over after {slice} turns more"),
    }
}

// Makes the last slice of a call.
fn ended<N: Naming, R: Abort>(
    rt: &R,
    host: &Host<N>,
    store: &ModuleStore<N>,
    paused: Paused<N>,
    slice: u64,
    gate: &NotingGate,
) -> (Outcome, HostPass<N>)
    requires { IsOfHost host.now paused }
    ensures { IsHostPass host.now result.1 }
{
    match paused.resume(host, store, slice, gate) {
        Turned::Again(_) => panic!(rt; "the call has more turns to make after {slice} more"),
        Turned::Done(outcome, pass) => (outcome, pass),
    }
}

// The fuel of a call that counts down from 3, its slices, the last one, how it ends, and what it leaves of its fuel.
type Sliced = (u64, &'static [u64], u64, Outcome, u64);

static ROWS: [Sliced; 5] = [
    (19, &[5, 5, 5], 5, Outcome::Done(Some(Val::I32(0))), 0),
    (19, &[0, 18], 1, Outcome::Done(Some(Val::I32(0))), 0),
    (25, &[5, 5, 5], 9, Outcome::Done(Some(Val::I32(0))), 6),
    (25, &[18], 100, Outcome::Done(Some(Val::I32(0))), 6),
    (18, &[], 18, Outcome::Fuel, 0),
];

// Such a call ends as its row says. Gives its pass back.
fn in_slices<N: Naming, R: Abort>(
    rt: &R,
    host: &Host<N>,
    pass: HostPass<N>,
    store: &ModuleStore<N>,
    module: &ModuleRef<N>,
    row: &Sliced,
) -> HostPass<N>
    requires { IsHostPass host.now pass }
    ensures { IsHostPass host.now result }
{
    let (fuel, slices, last, outcome, left) = *row;
    let gate = NotingGate::new();
    let asked = Asked {
        export: "c",
        args: &[Val::I32(3)],
        fuel,
        number: 1,
    };
    let mut paused = begun(rt, host, pass, store, module, asked, &gate);
    for slice in slices {
        paused = again(rt, host, store, paused, *slice, &gate);
    }
    let (end, pass) = ended(rt, host, store, paused, last, &gate);
    assert!(rt;
        end == outcome && pass.left() == left,
        "fuel {fuel}, last {last}"
    );
    pass
}

fn check_slices<N: Naming, R: Abort + Wait>(rt: &R, alloc: Global, opened: Opened)
    requires { Bears opened N.shelves N.config N.most }
{
    let (store, module) = one_module::<N, R>(rt, alloc, opened, COUNTING.as_slice());
    let (host, mut pass, _other) = two_callers(rt, alloc, &store, 1);
    for row in &ROWS {
        pass = in_slices(rt, &host, pass, &store, &module, row);
    }
}

#[test]
fn a_call_in_slices_ends_as_at_once(rt: HostRuntime) {
    let opened = open(&rt, rt.alloc(), 1, 1);
    check_slices::<Brand, HostRuntime>(&rt, rt.alloc(), opened);
}

// Why calls 1 and 2 do not begin.
fn refused_twice<N: Naming, R: Abort>(
    rt: &R,
    host: &Host<N>,
    pass: HostPass<N>,
    store: &ModuleStore<N>,
    module: &ModuleRef<N>,
    gate: &NotingGate,
) -> ([Answer; 2], HostPass<N>)
    requires { IsHostPass host.now pass }
    ensures { IsHostPass host.now result.1 }
{
    let other = Asked {
        export: "other",
        ..bumping(1)
    };
    let (missing, pass) = refused(rt, host, pass, store, module, other, gate);
    let many = Asked {
        args: &[Val::I32(0)],
        ..bumping(2)
    };
    let (bad, pass) = refused(rt, host, pass, store, module, many, gate);
    ([missing, bad], pass)
}

const FULL: Answer = Answer::Full(Kind::Memory);

const DONE: Answer = Answer::Done(ONE);

// Calls 1 to 4 with the first pass and the second, and call 5 with the second, when call 3, which is paused beside call 4, is given up.
// A refused call leaves all its fuel, and one that is given up leaves what its turns have not used.
fn check_given_up<N: Naming, R: Abort>(
    rt: &R,
    host: &Host<N>,
    first: HostPass<N>,
    second: HostPass<N>,
    store: &ModuleStore<N>,
    module: &ModuleRef<N>,
    gate: &NotingGate,
) -> (HostPass<N>, HostPass<N>)
    requires { IsHostPass host.now first × IsHostPass host.now second }
    ensures { IsHostPass host.now result.0 × IsHostPass host.now result.1 }
{
    let ([missing, bad], first) = refused_twice(rt, host, first, store, module, gate);
    let unspent = first.left();
    let paused = begun(rt, host, first, store, module, bumping(3), gate);
    let paused = again(rt, host, store, paused, 7, gate);
    let (full, second) = refused(rt, host, second, store, module, bumping(4), gate);
    let first = paused.cancel(host, store, gate);
    let (done, second) = bump(host, second, store, module, 5, gate);
    let answers = [missing, bad, full, done];
    assert_eq!(rt; [unspent, first.left(), second.left()], [100, 93, 92]);
    assert!(rt; answers == [Answer::NoExport, Answer::BadArgs, FULL, DONE]);
    (first, second)
}

// Call 6 with the first pass, in two slices, call 7, whose memory stays held since it is dropped, and call 8 with the second pass.
fn check_dropped<N: Naming, R: Abort>(
    rt: &R,
    host: &Host<N>,
    first: HostPass<N>,
    second: HostPass<N>,
    store: &ModuleStore<N>,
    module: &ModuleRef<N>,
    gate: &NotingGate,
) -> HostPass<N>
    requires { IsHostPass host.now first × IsHostPass host.now second }
    ensures { IsHostPass host.now result }
{
    let paused = begun(rt, host, first, store, module, bumping(6), gate);
    let paused = again(rt, host, store, paused, 7, gate);
    let number = paused.number();
    let (outcome, first) = ended(rt, host, store, paused, 1, gate);
    let _ = begun(rt, host, first, store, module, bumping(7), gate);
    let (full, second) = bump(host, second, store, module, 8, gate);
    assert!(rt; (number, outcome, full) == (6, ONE, FULL));
    second
}

fn check_slots<N: Naming, R: Abort + Wait>(rt: &R, alloc: Global, opened: Opened)
    requires { Bears opened N.shelves N.config N.most }
{
    let (store, module) = one_module::<N, R>(rt, alloc, opened, BUMP.as_slice());
    let (host, first, second) = two_callers(rt, alloc, &store, 1);
    let gate = NotingGate::new();
    let (first, second) = check_given_up(rt, &host, first, second, &store, &module, &gate);
    let second = check_dropped(rt, &host, first, second, &store, &module, &gate);
    let held = close_one(rt, alloc, host, second).memory.held;
    let told = gate.told.load(Ordering::SeqCst);
    assert_eq!(rt; (held, told), (1, 0x9a3_cb5d_6e78));
}

#[test]
fn a_paused_call_has_its_slots_until_it_ends_or_is_given_up(rt: HostRuntime) {
    let opened = open(&rt, rt.alloc(), 1, 1);
    check_slots::<Brand, HostRuntime>(&rt, rt.alloc(), opened);
}
