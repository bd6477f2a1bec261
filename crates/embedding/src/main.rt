//! The smallest program on the library: a store with one module, a host with two passes, and a call by each, on two threads where
//! they can be had.
#![tactic(auto)]

ghost use Rattle.std.specs.Prelude.{◌≡◌, IfOk};
ghost use Rattle.module_store.specs.Names.{Bears};
ghost use Rattle.pool_host.specs.Hosts.{IsHostPass};
ghost use Rattle.embedding.specs.Doubling.{HaveDoubled, IsDoubled};

use anyhow::Error;
use host_edge::OpenGate;
use module_store::{Desk, ModuleRef, ModuleStore, Naming, Opened};
use pool_host::{Answer, Host, HostPass};
use pool_limits::{PoolConfig, Share};
use std::alloc::Global;
use std::marker::Brand;
use std::sync::Wait;
use std::thread::{self, Threads};
use wasm_values::{Profile, Val};

// A module of profile 1 that exports `add`, of two i32.
const ADD: [u8; 41] =
    *b"\0asm\x01\0\0\0\x01\x07\x01\x60\x02\x7f\x7f\x01\x7f\x03\x02\x01\0\x07\x07\x01\x03add\0\0\x0a\x09\x01\x07\0\x20\0\x20\x01\x6a\x0b";

// The slots of the host: a ticket for each of two calls at the same time.
const SHARE: Share = Share {
    instances: 2,
    memories: 1,
    tables: 1,
};

// The most modules of the store.
const MOST_MODULES: u32 = 16;

const FUEL: u64 = 100;

// Adds a number to itself with a pass of the host.
fn doubled<N: Naming>(
    host: &Host<N>,
    mut pass: HostPass<N>,
    store: &ModuleStore<N>,
    module: &ModuleRef<N>,
    number: u32,
) -> (Answer, HostPass<N>)
    requires pass { IsHostPass host.now pass }
    ensures own { IsHostPass host.now result.1 }
    ensures answer { IsDoubled N.config «module».now.tree number result.0 result.1.answer }
{
    let args = [Val::I32(number), Val::I32(number)];
    let call = u64::from(number);
    let answer = host.call(
        &mut pass, store, module, b"add", &args, FUEL, call, &OpenGate,
    );
    (answer, pass)
}

// What two calls are answered that are made at the same time, if threads can be had.
fn both<N: Naming + Send + Sync, R: Threads>(
    rt: &R,
    host: &Host<N>,
    one: HostPass<N>,
    two: HostPass<N>,
    store: &ModuleStore<N>,
    module: &ModuleRef<N>,
) -> (Answer, Answer)
    requires one { IsHostPass host.now one }
    requires two { IsHostPass host.now two }
    ensures answers { HaveDoubled N.config «module».now.tree result.0 result.1 }
{
    let ((first, _), (second, _)) = thread::join(
        rt,
        || -> (Answer, HostPass<N>)
            requires { IsHostPass host.now one }
            ensures { IsDoubled N.config «module».entry.now.tree 1 result.0 result.1.answer }
        { doubled(host, one, store, module, 1) },
        || -> (Answer, HostPass<N>)
            requires { IsHostPass host.now two }
            ensures { IsDoubled N.config «module».entry.now.tree 2 result.0 result.1.answer }
        { doubled(host, two, store, module, 2) },
    );
    (first, second)
}

// Opens a host for the module, on which the two calls are made.
fn on_host<N: Naming + Send + Sync, R: Threads>(
    rt: &R,
    alloc: Global,
    store: &ModuleStore<N>,
    module: &ModuleRef<N>,
) -> Result<(Answer, Answer), Error>
    ensures { IfOk result (λ answers. HaveDoubled N.config «module».now.tree answers.0 answers.1) }
{
    let (host, mut passes) = Host::open(alloc, store, SHARE, 2)?;
    let one = passes.pop().unwrap();
    let two = passes.pop().unwrap();
    Ok(both(rt, &host, one, two, store, module))
}

// Registers the module, for which a host is opened.
fn on_module<N: Naming + Send + Sync, R: Threads + Wait>(
    rt: &R,
    alloc: Global,
    store: &ModuleStore<N>,
    desk: &mut Desk<N>,
) -> Result<(Answer, Answer), Error> {
    let module = store.register(rt, alloc, desk, Profile::One, ADD.as_slice())?;
    on_host(rt, alloc, store, &module)
}

// Has the store, in which the module is registered.
fn on_store<N: Naming + Send + Sync, R: Threads + Wait>(
    rt: &R,
    alloc: Global,
    opened: Opened,
) -> Result<(Answer, Answer), Error>
    requires { Bears opened N.shelves N.config N.most }
{
    let (store, mut desk) = opened.named::<N>();
    on_module(rt, alloc, &store, &mut desk)
}

fn main(rt: HostRuntime) -> Result<(), Error> {
    let opened = Opened::open_for(rt.alloc(), PoolConfig::default(), MOST_MODULES)?;
    let (one, two) = on_store::<Brand, HostRuntime>(&rt, rt.alloc(), opened)?;
    println!(rt; "{one:?}")?;
    println!(rt; "{two:?}")?;
    Ok(())
}
