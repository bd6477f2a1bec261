//! Memories that are taken and given back, again and again.
ghost use Rattle.slot_words.specs.Passes.{IsIdle, IsSamePass};
ghost use Rattle.slot_words.specs.Owned.{IsNewPassOf, IsPassOf};
ghost use Rattle.module_store.specs.Names.{Bears};

use crate::stores::{open, register};
use memory_slots::{MemSlot, MemoryPool};
use module_store::{ModuleRef, ModuleStore, Naming, Opened};
use slot_words::Pass;
use std::alloc::{AllocError, Global};
use std::marker::Brand;
use std::process::Abort;
use std::sync::Wait;

// A pool of three memories, of which two may be warm, and its one pass.
fn pool_of_three<N: Naming, R: Abort>(
    rt: &R,
    alloc: Global,
    store: &ModuleStore<N>,
) -> (MemoryPool<N>, Pass<MemSlot<N>>)
    ensures { IsNewPassOf result.0 result.1 }
{
    let (pool, mut passes) = MemoryPool::open(alloc, store, 3, 2, 1).expect(rt, "opened");
    let pass = passes.pop().unwrap();
    (pool, pass)
}

// What is told of a pool that has no memory free.
const FULL: u32 = 1_024;

// The number of the memory that is taken for the module and given back, at the last of so many times.
fn last_of<N: Naming>(
    pool: &MemoryPool<N>,
    pass: &mut Pass<MemSlot<N>>,
    store: &ModuleStore<N>,
    module: &ModuleRef<N>,
    times: u32,
) -> u32
    requires own { IsPassOf pool.now pass.old }
    requires idle { IsIdle pass.old }
    ensures same { IsSamePass pass.old pass.new }
    ensures idle { IsIdle pass.new }
{
    let mut last = FULL;
    for _ in 0..times {
        let Ok(lease) = pool.take(pass, store, module) else {
            return FULL;
        };
        last = lease.number();
        pool.give(pass, lease, store);
    }
    last
}

// The memories of a module, another, the first again and a third, and that of the first at the last of many more visits.
fn numbers<N: Naming>(
    pool: &MemoryPool<N>,
    pass: &mut Pass<MemSlot<N>>,
    store: &ModuleStore<N>,
    first: &ModuleRef<N>,
    second: &ModuleRef<N>,
    third: &ModuleRef<N>,
) -> [u32; 5]
    requires own { IsPassOf pool.now pass.old }
    requires idle { IsIdle pass.old }
    ensures same { IsSamePass pass.old pass.new }
    ensures idle { IsIdle pass.new }
{
    [
        last_of(pool, pass, store, first, 1),
        last_of(pool, pass, store, second, 1),
        last_of(pool, pass, store, first, 1),
        last_of(pool, pass, store, third, 1),
        last_of(pool, pass, store, first, 100_000),
    ]
}

// These numbers, and how many memories are cold, warm and awaiting then.
fn numbers_and_kinds<N: Naming, R: Abort + Wait>(
    rt: &R,
    alloc: Global,
    opened: Opened,
    bytes: &[u8],
) -> ([u32; 5], [u32; 3])
    requires { Bears opened N.shelves N.config N.most }
{
    let (store, mut desk) = opened.named::<N>();
    let first = register(rt, alloc, &store, &mut desk, bytes);
    let second = register(rt, alloc, &store, &mut desk, bytes);
    let third = register(rt, alloc, &store, &mut desk, bytes);
    let (pool, mut pass) = pool_of_three(rt, alloc, &store);
    let numbers = numbers(&pool, &mut pass, &store, &first, &second, &third);
    let left = pool.close(pass);
    (numbers, [left.cold, left.warm, left.awaiting])
}

// A module of 256 pages, with a byte of data in each of their 4,096 blocks.
fn data_in_each_block(alloc: Global) -> Result<Vec<u8>, AllocError> {
    let mut bytes = Vec::from_slice(
        alloc,
        b"\0asm\x01\0\0\0\x05\x04\x01\0\x80\x02\x0b\x82\xa0\x02\x80\x20",
    )?;
    for block in 0..4_096u32 {
        // where the block begins, in four bytes of LEB128
        let second = (block % 4 * 32 + 128) as u8;
        let third = (block / 4 % 128 + 128) as u8;
        let fourth = (block / 512) as u8;
        bytes.extend_from_slice(&[0, 0x41, 0x80, second, third, fourth, 0x0b, 1, b'a'])?;
    }
    Ok(bytes)
}

// Of a memory that its module has and left clean, a take and a give write no block. If they wrote all, the many visits would take minutes,
// and a test has one.
#[test]
fn modules_come_back_to_their_memories_which_are_not_written_again(rt: HostRuntime) {
    let opened = open(rt.alloc(), 1, 256).expect(&rt, "opened");
    let bytes = data_in_each_block(rt.alloc()).expect(&rt, "room");
    let got = numbers_and_kinds::<Brand, HostRuntime>(&rt, rt.alloc(), opened, bytes.as_slice());
    assert_eq!(rt; got, ([0, 1, 0, 1, 0], [1, 2, 0]));
}
