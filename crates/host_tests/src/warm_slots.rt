//! Which slots stay warm after calls, and which await their cleaning.
ghost use Rattle.module_store.specs.Names.{Bears};
ghost use Rattle.pool_host.specs.Hosts.{IsHostPass};

use crate::callers::{BUMP, ONE, close_one, one_caller, open, register};
use host_edge::OpenGate;
use memory_counts::TakeCounts;
use module_store::{Naming, Opened};
use pool_host::Answer;
use slot_words::KindCounts;
use std::alloc::Global;
use std::marker::Brand;
use std::process::Abort;
use std::sync::Wait;
use wasm_values::Profile;

fn kinds(cold: u32, warm: u32, awaiting: u32) -> KindCounts {
    KindCounts {
        cold,
        warm,
        awaiting,
        held: 0,
    }
}

fn takes(warm: u64, cold: u64, flushes: u64) -> TakeCounts {
    TakeCounts {
        warm,
        cold,
        flushes,
        full: 0,
    }
}

// The states of three memories after calls of these modules, each of which counts in its memory, and how these took their memories.
fn memories_after<N: Naming, R: Abort + Wait>(
    rt: &R,
    alloc: Global,
    opened: Opened,
    calls: &[usize],
) -> (KindCounts, TakeCounts)
    requires { Bears opened N.shelves N.config N.most }
{
    let (store, mut desk) = opened.named::<N>();
    let modules = [
        register(rt, alloc, &store, &mut desk, Profile::One, BUMP.as_slice()),
        register(rt, alloc, &store, &mut desk, Profile::One, BUMP.as_slice()),
        register(rt, alloc, &store, &mut desk, Profile::One, BUMP.as_slice()),
    ];
    let (host, mut pass) = one_caller(rt, alloc, &store, 3);
    for call in calls {
        let module = &modules[call % 3];
        let answer = host.call(&mut pass, &store, module, b"bump", &[], 100, 1, &OpenGate);
        assert!(rt; answer == Answer::Done(ONE));
    }
    let seen = host.look(&mut pass);
    let takes = pass.takes();
    let counts = close_one(rt, alloc, host, pass);
    assert!(rt; seen == counts);
    (counts.memory, takes)
}

#[test]
fn memories_are_warm_up_to_the_limit_and_await_up_to_a_batch(rt: HostRuntime) {
    let alloc = rt.alloc();
    let rows = [
        (3, 2, [0].as_slice(), kinds(2, 0, 1), takes(0, 1, 0)),
        (3, 2, [0, 1].as_slice(), kinds(1, 2, 0), takes(0, 2, 1)),
        (
            2,
            1,
            [0, 1, 0, 2].as_slice(),
            kinds(1, 2, 0),
            takes(1, 3, 4),
        ),
        (0, 1, [0, 1].as_slice(), kinds(3, 0, 0), takes(0, 2, 2)),
    ];
    for (warm, batch, calls, left, taken) in rows {
        let opened = open(&rt, alloc, warm, batch);
        let counts = memories_after::<Brand, HostRuntime>(&rt, alloc, opened, calls);
        assert!(rt; counts == (left, taken), "{calls:?}");
    }
}
