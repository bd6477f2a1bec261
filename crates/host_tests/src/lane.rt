//! A call of one caller.
ghost use Rattle.module_store.specs.Names.{Bears};

use crate::callers::{BUMP, ONE, one_module, open};
use host_edge::OpenGate;
use module_store::{Naming, Opened};
use pool_host::{LaneAnswer, LaneHost};
use pool_limits::Share;
use std::alloc::Global;
use std::marker::Brand;
use std::process::Abort;
use std::sync::Wait;

const SHARE: Share = Share {
    instances: 1,
    memories: 1,
    tables: 1,
};

// What a call of eight turns is answered, and what it leaves of its fuel.
fn called<N: Naming, R: Abort + Wait>(rt: &R, alloc: Global, opened: Opened) -> (LaneAnswer, u64)
    requires { Bears opened N.shelves N.config N.most }
{
    let (store, module) = one_module::<N, R>(rt, alloc, opened, BUMP.as_slice());
    let mut lane = LaneHost::open(alloc, &store, SHARE).expect(rt, "opened");
    let answer = lane.call(&store, &module, b"bump", &[], 10, 1, &OpenGate);
    (answer, lane.left())
}

#[test]
fn a_lane_makes_a_call(rt: HostRuntime) {
    let opened = open(&rt, rt.alloc(), 1, 1);
    let answer = called::<Brand, HostRuntime>(&rt, rt.alloc(), opened);
    assert!(rt; answer == (LaneAnswer::Done(ONE), 2));
}
