//! The stores, hosts and callers of the tests. Each store has its name from the test that opens it.
ghost use Rattle.std.specs.Prelude.{◌<◌};
ghost use Rattle.module_store.specs.Names.{Bears};
ghost use Rattle.pool_host.specs.Hosts.{IsHostPass};

use host_edge::Gate;
use module_store::{Desk, ModuleRef, ModuleStore, Naming, Opened};
use pool_host::{Answer, Host, HostPass, PoolCounts};
use pool_limits::{Numbers, PoolConfig, Share};
use std::alloc::Global;
use std::process::Abort;
use std::sync::Wait;
use wasm_values::{Outcome, Profile, Val};

// Counts in its memory, in eight turns.
pub(crate) static BUMP: [u8; 58] =
    *b"\0asm\x01\0\0\0\x01\x05\x01\x60\0\x01\x7f\x03\x02\x01\0\x05\x03\x01\0\x01\x07\x08\x01\x04bump\0\0\x0a\x16\x01\x14\0\x41\0\x41\0\x28\x02\0\x41\x01\x6a\x36\x02\0\x41\0\x28\x02\0\x0b";

pub(crate) const ONE: Outcome = Outcome::Done(Some(Val::I32(1)));

// A store for hosts whose memories and tables are at most so many warm, and whose memories are cleaned so many at once.
pub(crate) fn open<R: Abort>(rt: &R, alloc: Global, warm: u32, batch: u32) -> Opened {
    let config = PoolConfig::new(Numbers {
        workers: 1,
        instances: 4,
        memories: 4,
        tables: 4,
        warm,
        batch,
        pages: 4,
        elements: 8,
        depth: 16,
        frame: 16,
    })
    .expect(rt, "in range");
    Opened::open(alloc, config).expect(rt, "memory")
}

pub(crate) fn register<N: Naming, R: Abort + Wait>(
    rt: &R,
    alloc: Global,
    store: &ModuleStore<N>,
    desk: &mut Desk<N>,
    profile: Profile,
    bytes: &[u8],
) -> ModuleRef<N> {
    store
        .register(rt, alloc, desk, profile, bytes)
        .expect(rt, "registered")
}

// A store, and the module of these bytes in it.
pub(crate) fn one_module<N: Naming, R: Abort + Wait>(
    rt: &R,
    alloc: Global,
    opened: Opened,
    bytes: &[u8],
) -> (ModuleStore<N>, ModuleRef<N>)
    requires { Bears opened N.shelves N.config N.most }
{
    let (store, mut desk) = opened.named::<N>();
    let module = register(rt, alloc, &store, &mut desk, Profile::One, bytes);
    (store, module)
}

// Opens a host of so many memories, and gives its one pass.
pub(crate) fn one_caller<N: Naming, R: Abort>(
    rt: &R,
    alloc: Global,
    store: &ModuleStore<N>,
    memories: u32,
) -> (Host<N>, HostPass<N>)
    requires { 0 < memories × memories < 5 }
    ensures { IsHostPass result.0 result.1 }
{
    let share = Share {
        instances: 1,
        memories,
        tables: 1,
    };
    let (host, mut passes) = Host::open(alloc, store, share, 1).expect(rt, "opened");
    let pass = passes.pop().unwrap();
    (host, pass)
}

// Opens a host of two tickets and so many memories, and gives its two passes.
pub(crate) fn two_callers<N: Naming, R: Abort>(
    rt: &R,
    alloc: Global,
    store: &ModuleStore<N>,
    memories: u32,
) -> (Host<N>, HostPass<N>, HostPass<N>)
    requires { 0 < memories × memories < 5 }
    ensures { IsHostPass result.0 result.1 × IsHostPass result.0 result.2 }
{
    let share = Share {
        instances: 2,
        memories,
        tables: 1,
    };
    let (host, mut passes) = Host::open(alloc, store, share, 2).expect(rt, "opened");
    let first = passes.pop().unwrap();
    let second = passes.pop().unwrap();
    (host, first, second)
}

// The slots of a host that is closed with its one pass.
pub(crate) fn close_one<N: Naming, R: Abort>(
    rt: &R,
    alloc: Global,
    host: Host<N>,
    pass: HostPass<N>,
) -> PoolCounts
    requires { IsHostPass host pass }
{
    let mut passes = Vec::new(alloc);
    passes.push(pass).expect(rt, "room");
    host.close(passes)
}

// The slots of a host that is closed with two passes.
pub(crate) fn close_two<N: Naming, R: Abort>(
    rt: &R,
    alloc: Global,
    host: Host<N>,
    first: HostPass<N>,
    second: HostPass<N>,
) -> PoolCounts
    requires { IsHostPass host first × IsHostPass host second }
{
    let mut passes = Vec::new(alloc);
    passes.push(first).expect(rt, "room");
    passes.push(second).expect(rt, "room");
    host.close(passes)
}

// Calls `bump` with a pass of the host, and gives the pass back.
pub(crate) fn bump<N: Naming, G: Gate>(
    host: &Host<N>,
    mut pass: HostPass<N>,
    store: &ModuleStore<N>,
    module: &ModuleRef<N>,
    number: u64,
    gate: &G,
) -> (Answer, HostPass<N>)
    requires { IsHostPass host.now pass }
    ensures { IsHostPass host.now result.1 }
{
    let answer = host.call(&mut pass, store, module, b"bump", &[], 100, number, gate);
    (answer, pass)
}
