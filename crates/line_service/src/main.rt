//! A service: each line of standard input is a call of a module, and its answer is written before the next line is read. Behind the
//! last line the slots of the host are counted.
#![tactic(auto)]

mod counts;
mod lines;

ghost use Rattle.module_store.specs.Names.{Bears};

use crate::counts::write_counts;
use crate::lines::answer_lines;
use anyhow::Error;
use module_store::{Desk, ModuleRef, ModuleStore, Naming, Opened};
use pool_host::Host;
use pool_limits::{Numbers, PoolConfig, Share};
use std::alloc::Global;
use std::io;
use std::marker::Brand;
use std::sync::Wait;
use wasm_values::Profile;

// A module of profile 3. It exports `echo`, which answers its request, `trap`, `spin`, which does not end, and `add`, of two i32.
static MODULE: [u8; 150] =
    *b"\0asm\x01\0\0\0\x01\x15\x04\x60\0\x01\x7f\x60\x03\x7f\x7f\x7f\x01\x7f\x60\x02\x7f\x7f\x01\x7f\x60\0\0\x02\x25\x03\x04host\x03len\0\0\x04host\x04read\0\x01\x04host\x05write\0\x02\x03\x05\x04\0\x03\x03\x02\x05\x03\x01\0\x01\x07\x1c\x04\x04echo\0\x03\x04trap\0\x04\x04spin\0\x05\x03add\0\x06\x0a\x24\x04\x0e\0\x41\0\x41\0\x41\0\x10\0\x10\x01\x10\x02\x0b\x03\0\0\x0b\x07\0\x03\x40\x0c\0\x0b\x0b\x07\0\x20\0\x20\x01\x6a\x0b";

const NUMBERS: Numbers = Numbers {
    workers: 1,
    instances: 1,
    memories: 1,
    tables: 1,
    warm: 1,
    batch: 1,
    pages: 1,
    elements: 0,
    depth: 16,
    frame: 64,
};

const SHARE: Share = Share {
    instances: 1,
    memories: 1,
    tables: 1,
};

// Opens a host for the module, answers the lines on it, and closes it.
fn on_host<N: Naming, R: AllocGlobal + Input + Print>(
    rt: &R,
    alloc: Global,
    store: &ModuleStore<N>,
    module: &ModuleRef<N>,
) -> Result<(), Error> {
    let (host, mut passes) = Host::open(alloc, store, SHARE, 1)?;
    let mut pass = passes.pop().unwrap();
    let mut out = io::writer(rt);
    let answered = answer_lines(
        alloc,
        &host,
        &mut pass,
        store,
        module,
        rt.reader(),
        &mut out,
    );
    passes.push_reserved(pass);
    let counts = host.close(passes);
    answered?;
    write_counts(&mut out, &counts)?;
    Ok(())
}

// Registers the module, for which a host is opened.
fn on_module<N: Naming, R: AllocGlobal + Input + Print + Wait>(
    rt: &R,
    alloc: Global,
    store: &ModuleStore<N>,
    desk: &mut Desk<N>,
) -> Result<(), Error> {
    let module = store.register(rt, alloc, desk, Profile::Three, MODULE.as_slice())?;
    on_host(rt, alloc, store, &module)
}

// Has the store, in which the module is registered.
fn on_store<N: Naming, R: AllocGlobal + Input + Print + Wait>(
    rt: &R,
    alloc: Global,
    opened: Opened,
) -> Result<(), Error>
    requires { Bears opened N.shelves N.config N.most }
{
    let (store, mut desk) = opened.named::<N>();
    on_module(rt, alloc, &store, &mut desk)
}

fn main(rt: HostRuntime) -> Result<(), Error> {
    let config = PoolConfig::new(NUMBERS)?;
    let opened = Opened::open_for(rt.alloc(), config, 1)?;
    on_store::<Brand, HostRuntime>(&rt, rt.alloc(), opened)
}
