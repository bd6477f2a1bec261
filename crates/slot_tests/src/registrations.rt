//! What bytes are registered as, or why they are not.
ghost use Rattle.module_store.specs.Names.{Bears};

use crate::stores::{ADD, BUMP, POKE, open};
use initial_image::{Misfit, SegmentIndex};
use module_store::{Desk, LoadFault, MOST_MODULES, ModuleStore, Naming, Opened};
use pool_limits::{Measure, Over};
use std::alloc::Global;
use std::marker::Brand;
use std::sync::Wait;
use wasm_values::Profile;

// Bytes that are registered in this order: the number and tag of each, or why it is refused.
static ROWS: [(&[u8], Result<u32, LoadFault>); 7] = [
    (b"\0asm\x01\0\0\0", Ok(0)),
    // a float, and an addition with one operand
    (
        b"\0asm\x01\0\0\0\x01\x04\x01\x60\0\0\x03\x02\x01\0\x0a\x0a\x01\x08\0\x43\0\0\0\0\x1a\x0b",
        Err(LoadFault::Unsupported),
    ),
    (
        b"\0asm\x01\0\0\0\x01\x04\x01\x60\0\0\x03\x02\x01\0\x0a\x08\x01\x06\0\x41\x01\x6a\x1a\x0b",
        Err(LoadFault::Invalid),
    ),
    // two bytes at the last address of a page
    (
        b"\0asm\x01\0\0\0\x05\x03\x01\0\x01\x0b\x0a\x01\0\x41\xff\xff\x03\x0b\x02ab",
        Err(LoadFault::Segment(Misfit {
            which: SegmentIndex::Data(0),
            end: 65_537,
            size: 65_536,
        })),
    ),
    // 33 pages, and 4,294,967,295 locals
    (
        b"\0asm\x01\0\0\0\x05\x03\x01\0\x21",
        Err(LoadFault::OverLimit(Over {
            which: Measure::Pages,
            value: 33,
            limit: 32,
        })),
    ),
    (
        b"\0asm\x01\0\0\0\x01\x04\x01\x60\0\0\x03\x02\x01\0\x0a\x0a\x01\x08\x01\xff\xff\xff\xff\x0f\x7f\x0b",
        Err(LoadFault::OverLimit(Over {
            which: Measure::Frame(0),
            value: 4_294_967_296,
            limit: 1_024,
        })),
    ),
    (b"\0asm\x01\0\0\0", Ok(1)),
];

// The tag of the module that the bytes are registered as, which is its number too, or why they are not.
fn answer<N: Naming, R: Wait>(
    rt: &R,
    alloc: Global,
    store: &ModuleStore<N>,
    desk: &mut Desk<N>,
    bytes: &[u8],
) -> Result<u32, LoadFault> {
    let module = store.register(rt, alloc, desk, Profile::One, bytes)?;
    if module.number() != module.tag() as usize {
        return Err(LoadFault::TooMany);
    }
    Ok(module.tag())
}

// The place of the first row with another answer, or behind all rows.
fn first_wrong<N: Naming, R: Wait>(
    rt: &R,
    alloc: Global,
    store: &ModuleStore<N>,
    desk: &mut Desk<N>,
) -> u64 {
    for (place, (bytes, want)) in ROWS.iter().enumerate() {
        if answer(rt, alloc, store, desk, bytes) != *want {
            return place as u64;
        }
    }
    ROWS.len() as u64
}

// The lengths below its own at which the bytes of a module are registered, as bits, or none if another isn't malformed.
fn registered_lengths<N: Naming, R: Wait>(
    rt: &R,
    alloc: Global,
    store: &ModuleStore<N>,
    desk: &mut Desk<N>,
    bytes: &[u8],
) -> u64 {
    let mut lengths = 0;
    for length in 0..bytes.len() {
        match answer(rt, alloc, store, desk, &bytes[..length]) {
            Ok(_) => lengths |= 1u64 << (length % 64),
            Err(LoadFault::Malformed) => {}
            Err(_) => return 0,
        }
    }
    lengths
}

// How many modules a desk has registered that registers an empty one until there are too many.
fn fill<N: Naming, R: Wait>(
    rt: &R,
    alloc: Global,
    store: &ModuleStore<N>,
    desk: &mut Desk<N>,
) -> u64 {
    let mut registered = 0;
    for _ in 0..=MOST_MODULES {
        match answer(rt, alloc, store, desk, b"\0asm\x01\0\0\0") {
            Ok(tag) => registered = u64::from(tag) + 1,
            Err(LoadFault::TooMany) => return registered,
            Err(_) => return 0,
        }
    }
    0
}

// What is told of the rows, of the beginnings of three modules, and of a desk that is filled.
fn answers<N: Naming, R: Wait>(rt: &R, alloc: Global, opened: Opened) -> [u64; 5]
    requires { Bears opened N.shelves N.config N.most }
{
    let (store, mut desk) = opened.named::<N>();
    [
        first_wrong(rt, alloc, &store, &mut desk),
        registered_lengths(rt, alloc, &store, &mut desk, &ADD),
        registered_lengths(rt, alloc, &store, &mut desk, &BUMP),
        registered_lengths(rt, alloc, &store, &mut desk, &POKE),
        fill(rt, alloc, &store, &mut desk),
    ]
}

#[test]
fn bytes_are_registered_or_refused(rt: HostRuntime) {
    let opened = open(rt.alloc(), 1, 32).expect(&rt, "opened");
    let got = answers::<Brand, HostRuntime>(&rt, rt.alloc(), opened);
    let want = [
        ROWS.len() as u64,
        1 << 8 | 1 << 17,
        1 << 8 | 1 << 15,
        1 << 8 | 1 << 16,
        u64::from(MOST_MODULES),
    ];
    assert_eq!(rt; got, want);
}
