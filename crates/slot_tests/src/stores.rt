//! The stores of the tests, and modules in them. Each store has its name from the test that opens it.
use module_store::{Desk, ModuleRef, ModuleStore, Naming, Opened};
use pool_limits::{Numbers, PoolConfig};
use std::alloc::Global;
use std::process::Abort;
use std::sync::Wait;
use wasm_values::Profile;

// Adds two numbers; counts at address 0 of its memory; stores at an address.
pub(crate) static ADD: [u8; 41] =
    *b"\0asm\x01\0\0\0\x01\x07\x01\x60\x02\x7f\x7f\x01\x7f\x03\x02\x01\0\x07\x07\x01\x03add\0\0\x0a\x09\x01\x07\0\x20\0\x20\x01\x6a\x0b";

pub(crate) static BUMP: [u8; 58] =
    *b"\0asm\x01\0\0\0\x01\x05\x01\x60\0\x01\x7f\x03\x02\x01\0\x05\x03\x01\0\x01\x07\x08\x01\x04bump\0\0\x0a\x16\x01\x14\0\x41\0\x41\0\x28\x02\0\x41\x01\x6a\x36\x02\0\x41\0\x28\x02\0\x0b";

pub(crate) static POKE: [u8; 48] =
    *b"\0asm\x01\0\0\0\x01\x06\x01\x60\x02\x7f\x7f\0\x03\x02\x01\0\x05\x03\x01\0\x01\x07\x08\x01\x04poke\0\0\x0a\x0b\x01\x09\0\x20\0\x20\x01\x36\x02\0\x0b";

// A store for memories of so many pages, of which so many are cleaned at once.
pub(crate) fn open(alloc: Global, batch: u32, pages: u32) -> Option<Opened> {
    let config = PoolConfig::new(Numbers {
        workers: 1,
        instances: 4,
        memories: 4,
        tables: 4,
        warm: 2,
        batch,
        pages,
        elements: 1_024,
        depth: 128,
        frame: 1_024,
    });
    Opened::open(alloc, config.ok()?).ok()
}

pub(crate) fn register<N: Naming, R: Abort + Wait>(
    rt: &R,
    alloc: Global,
    store: &ModuleStore<N>,
    desk: &mut Desk<N>,
    bytes: &[u8],
) -> ModuleRef<N> {
    store
        .register(rt, alloc, desk, Profile::One, bytes)
        .expect(rt, "registered")
}
