//! How many blocks of its memory a call marks.
ghost use Rattle.std.specs.Prelude.{◌≡◌, ◌<◌, true, Some, length, take};
ghost use Rattle.wasm_spec.specs.Store.{fresh_store};
ghost use Rattle.slot_words.specs.Owned.{IsNewPassOf};
ghost use Rattle.module_store.specs.Names.{Bears};
ghost use Rattle.pool_model.specs.Contents.{needs};
ghost use Rattle.pool_model.specs.declared.kinds.Kind.TheVariants.{Memory};
ghost use Rattle.instance_calls.specs.Instances.{HasFreshMemory};
ghost use Rattle.instance_calls.specs.Parts.{memory_slot};

use crate::callers::{BUMP, ONE, open, register};
use call_payload::{AnswerBuf, Call};
use instance_calls::{Instance, find_function, needs_memory, needs_table};
use instance_slots::{Ticket, TicketPool};
use memory_slots::{LeftMemory, MemSlot, MemoryPool};
use module_store::{LoadedModule, ModuleRef, ModuleStore, Naming, Opened};
use slot_words::{Lease, Pass};
use std::alloc::Global;
use std::marker::Brand;
use std::process::Abort;
use std::sync::Wait;
use wasm_values::{Outcome, Profile, Val};

// A store at an address, a memory that is grown and written to, one that is only grown, and a fill.
static POKE: [u8; 48] =
    *b"\0asm\x01\0\0\0\x01\x06\x01\x60\x02\x7f\x7f\0\x03\x02\x01\0\x05\x03\x01\0\x01\x07\x08\x01\x04poke\0\0\x0a\x0b\x01\x09\0\x20\0\x20\x01\x36\x02\0\x0b";

static GROWN: [u8; 86] =
    *b"\0asm\x01\0\0\0\x01\x08\x02\x60\0\0\x60\0\x01\x7f\x03\x03\x02\0\x01\x05\x03\x01\0\x01\x07\x10\x02\x05dirty\0\0\x04look\0\x01\x0a\x26\x02\x15\0\x41\x01\x40\0\x1a\x41\xff\xff\x07\x41\x7f\x3a\0\0\x03\x40\x0c\0\x0b\x0b\x0e\0\x41\x01\x40\0\x1a\x41\xff\xff\x07\x2d\0\0\x0b";

static GROW: [u8; 45] =
    *b"\0asm\x01\0\0\0\x01\x06\x01\x60\x01\x7f\x01\x7f\x03\x02\x01\0\x05\x03\x01\0\x01\x07\x08\x01\x04grow\0\0\x0a\x08\x01\x06\0\x20\0\x40\0\x0b";

static FILL: [u8; 47] =
    *b"\0asm\x01\0\0\0\x01\x06\x01\x60\x02\x7f\x7f\0\x03\x02\x01\0\x05\x03\x01\0\x01\x07\x05\x01\x01f\0\0\x0a\x0d\x01\x0b\0\x20\0\x41\x07\x20\x01\xfc\x0b\0\x0b";

// A pool of one memory, which may be warm, and its one pass.
fn pool_of_one<N: Naming, R: Abort>(
    rt: &R,
    alloc: Global,
    store: &ModuleStore<N>,
) -> (MemoryPool<N>, Pass<MemSlot<N>>)
    ensures { IsNewPassOf result.0 result.1 }
{
    let (pool, mut passes) = MemoryPool::open(alloc, store, 1, 1, 1).expect(rt, "opened");
    let pass = passes.pop().unwrap();
    (pool, pass)
}

// The ticket with which an instance of the module begins.
fn take_ticket<N: Naming, R: Abort>(
    rt: &R,
    alloc: Global,
    store: &ModuleStore<N>,
    module: &ModuleRef<N>,
) -> Lease<Ticket<N>>
    ensures { take (length «module».now.tree.globals) result.value.globals ≡ (fresh_store «module».now.tree).globals }
{
    let (tickets, mut passes) = TicketPool::open(alloc, store, 1, 0, 1).expect(rt, "opened");
    let mut pass = passes.pop().unwrap();
    match tickets.take(&mut pass, store, module) {
        Ok(lease) => lease,
        Err(_) => panic!(rt; "a new pool is full"),
    }
}

// Makes a call of the module, which has no table, on its fresh memory. Tells how it ends, and gives the memory back.
fn call_on<'a, N: Naming, R: Abort>(
    rt: &R,
    alloc: Global,
    store: &'a ModuleStore<N>,
    module: &'a ModuleRef<N>,
    memory: Lease<MemSlot<N>>,
    call: &Call<'_>,
) -> (Outcome, Lease<MemSlot<N>>)
    requires { needs Memory «module».now.tree ≡ true → HasFreshMemory N.config «module».now.tree (Some memory) }
    ensures { memory_slot (Some result.1) ≡ memory_slot (Some memory) }
{
    let found = store.find(module);
    let loaded = LoadedModule {
        store,
        module,
        found,
    };
    assert!(rt; needs_memory(&loaded) && !needs_table(&loaded));
    let mut instance = Instance {
        ticket: take_ticket(rt, alloc, store, module),
        memory: Some(memory),
        table: None,
    };
    let mut answer = AnswerBuf::open(alloc).expect(rt, "opened");
    let function = find_function(&loaded, call).expect(rt, "found");
    let end = instance.run(&loaded, function, call, &mut answer);
    let Instance {
        ticket: _,
        memory,
        table: _,
    } = instance;
    match memory {
        Some(memory) => (end.outcome, memory),
        None => panic!(rt; "the instance has no memory"),
    }
}

// How a call ends, how many blocks of its memory it marks, and how many are marked when that is claimed after its give.
fn marked_by<N: Naming, R: Abort>(
    rt: &R,
    alloc: Global,
    store: &ModuleStore<N>,
    module: &ModuleRef<N>,
    export: &[u8],
    args: &[Val],
    fuel: u64,
) -> (Outcome, u32, u32) {
    let (pool, mut pass) = pool_of_one(rt, alloc, store);
    let Ok(memory) = pool.take(&mut pass, store, module) else {
        panic!(rt; "a new pool is full");
    };
    let call = Call {
        export,
        args,
        request: &[],
        fuel,
    };
    let (outcome, memory) = call_on(rt, alloc, store, module, memory, &call);
    let number = memory.number();
    let marked = memory.value.dirty();
    pool.give_left(&mut pass, LeftMemory::of(memory), store);
    match pool.words().claim(&mut pass, number) {
        Ok(memory) => (outcome, marked, memory.value.dirty()),
        Err(_) => panic!(rt; "the memory is held"),
    }
}

// The module's place, its export, how many of the two arguments, the first of them, the fuel, how the call ends, and the blocks.
type Row = (usize, &'static str, usize, u32, u64, Outcome, u32);

const NONE: Outcome = Outcome::Done(None);

static ROWS: [Row; 7] = [
    (0, "bump", 0, 0, 100, ONE, 1),
    (1, "poke", 2, 4094, 100, NONE, 2),
    (1, "poke", 2, 4092, 100, NONE, 1),
    (2, "dirty", 0, 0, 50, Outcome::Fuel, 1),
    (3, "grow", 1, 3, 100, ONE, 0),
    (4, "f", 2, 4092, 4, NONE, 2),
    (4, "f", 2, 4096, 4, NONE, 1),
];

// The place of the first row that isn't so, or how many rows there are. A flush of one memory writes it over as it is given back, and one
// that waits for two leaves its marks.
fn first_wrong<N: Naming, R: Abort>(
    rt: &R,
    alloc: Global,
    store: &ModuleStore<N>,
    modules: &[ModuleRef<N>; 5],
) -> usize {
    let batch = store.config().numbers().batch;
    for (place, row) in ROWS.iter().enumerate() {
        let (module, export, count, first, fuel, outcome, blocks) = *row;
        let module = &modules[module % 5];
        let args = [Val::I32(first), Val::I32(7)];
        let args = &args[..count.min(2)];
        let marked = marked_by(rt, alloc, store, module, export.as_bytes(), args, fuel);
        let left = if batch == 1 { 0 } else { blocks };
        if marked != (outcome, blocks, left) {
            return place;
        }
    }
    ROWS.len()
}

// The place of the first row that isn't so on a store with the modules of the rows, or how many rows there are.
fn first_wrong_of<N: Naming, R: Abort + Wait>(rt: &R, alloc: Global, opened: Opened) -> usize
    requires { Bears opened N.shelves N.config N.most }
{
    let (store, mut desk) = opened.named::<N>();
    let modules = [
        register(rt, alloc, &store, &mut desk, Profile::One, BUMP.as_slice()),
        register(rt, alloc, &store, &mut desk, Profile::One, POKE.as_slice()),
        register(rt, alloc, &store, &mut desk, Profile::One, GROWN.as_slice()),
        register(rt, alloc, &store, &mut desk, Profile::One, GROW.as_slice()),
        register(rt, alloc, &store, &mut desk, Profile::Two, FILL.as_slice()),
    ];
    first_wrong(rt, alloc, &store, &modules)
}

#[test]
fn a_call_marks_the_blocks_that_it_writes_until_a_flush(rt: HostRuntime) {
    for batch in [1, 2] {
        let opened = open(&rt, rt.alloc(), 2, batch);
        let place = first_wrong_of::<Brand, HostRuntime>(&rt, rt.alloc(), opened);
        assert_eq!(rt; place, ROWS.len(), "a batch of {batch}");
    }
}
