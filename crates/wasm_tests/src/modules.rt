//! Bytes that spell modules and bytes that spell none, modules that are valid and such that are refused, and a deep one.

use std::alloc::Global;
use std::fs;
use std::process::Abort;
use wasm_decode::{DecodeFault, decode};
use wasm_validate::{ValidFault, validate};
use wasm_values::Profile;

// What follows the magic bytes and the version, and whether node's engine takes the module in profile 1 and in profile 2.
static SPELLED: &[(&[u8], bool, bool)] = &[
    // custom sections; empty sections of every kind that has items; a padded size
    (b"\0\x02\x01a", true, true),
    (b"\0\x01\0\0\x03\x01bc", true, true),
    (
        b"\x01\x01\0\x02\x01\0\x03\x01\0\x04\x01\0\x05\x01\0\x06\x01\0\x07\x01\0\x09\x01\0\x0a\x01\0\x0b\x01\0",
        true,
        true,
    ),
    (b"\x01\x81\0\0", true, true),
    // no section but a byte, a size past the end, contents longer than the items, contents shorter
    (b"\x01", false, false),
    (b"\x01\x02\0", false, false),
    (b"\x01\x02\0\0", false, false),
    (b"\x01\x01\x01", false, false),
    // a custom section's name that isn't UTF-8, or doesn't fit
    (b"\0\x02\x01\xff", false, false),
    (b"\0\x01\x01", false, false),
    // ids that don't rise, the same one twice, and one that there isn't
    (b"\x03\x01\0\x01\x01\0", false, false),
    (b"\x01\x01\0\x01\x01\0", false, false),
    (b"\x7f\x01\0", false, false),
    // a count of five bytes; one of more than 32 bits
    (b"\x01\x05\x80\x80\x80\x80\0", true, true),
    (b"\x01\x05\x80\x80\x80\x80\x10", false, false),
    // a type; a function without code; code without a function
    (b"\x01\x04\x01\x60\0\0", true, true),
    (b"\x01\x04\x01\x60\0\0\x03\x02\x01\0", false, false),
    (b"\x01\x04\x01\x60\0\0\x0a\x04\x01\x02\0\x0b", false, false),
    // a body; one with a run of no locals; longer than its size, shorter, without an end; an opcode of no instruction
    (
        b"\x01\x04\x01\x60\0\0\x03\x02\x01\0\x0a\x04\x01\x02\0\x0b",
        true,
        true,
    ),
    (
        b"\x01\x04\x01\x60\0\0\x03\x02\x01\0\x0a\x06\x01\x04\x01\0\x7c\x0b",
        true,
        true,
    ),
    (
        b"\x01\x04\x01\x60\0\0\x03\x02\x01\0\x0a\x04\x01\x01\0\x0b",
        false,
        false,
    ),
    (
        b"\x01\x04\x01\x60\0\0\x03\x02\x01\0\x0a\x05\x01\x03\0\x0b\x0b",
        false,
        false,
    ),
    (
        b"\x01\x04\x01\x60\0\0\x03\x02\x01\0\x0a\x04\x01\x02\0\x6a",
        false,
        false,
    ),
    (
        b"\x01\x04\x01\x60\0\0\x03\x02\x01\0\x0a\x05\x01\x03\0\xff\x0b",
        false,
        false,
    ),
    // a block, an `if` with an `else` and one without, a `br_table`, a call by the table
    (
        b"\x01\x04\x01\x60\0\0\x03\x02\x01\0\x04\x04\x01\x70\0\x01\x0a\x1f\x01\x1d\0\x02\x40\x41\0\x04\x40\x01\x05\x01\x0b\x41\0\x04\x40\x0b\x41\0\x0e\x01\0\0\x0b\x41\0\x11\0\0\x0b",
        true,
        true,
    ),
    // an `else` outside an `if`, one twice, a block that isn't closed
    (
        b"\x01\x04\x01\x60\0\0\x03\x02\x01\0\x0a\x05\x01\x03\0\x05\x0b",
        false,
        false,
    ),
    (
        b"\x01\x04\x01\x60\0\0\x03\x02\x01\0\x0a\x0b\x01\x09\0\x41\0\x04\x40\x05\x05\x0b\x0b",
        false,
        false,
    ),
    (
        b"\x01\x04\x01\x60\0\0\x03\x02\x01\0\x0a\x06\x01\x04\0\x02\x40\x0b",
        false,
        false,
    ),
    // an export of the function, one whose name isn't UTF-8, one of a kind that there isn't
    (
        b"\x01\x04\x01\x60\0\0\x03\x02\x01\0\x07\x05\x01\x01f\0\0\x0a\x04\x01\x02\0\x0b",
        true,
        true,
    ),
    (
        b"\x01\x04\x01\x60\0\0\x03\x02\x01\0\x07\x05\x01\x01\xff\0\0\x0a\x04\x01\x02\0\x0b",
        false,
        false,
    ),
    (
        b"\x01\x04\x01\x60\0\0\x03\x02\x01\0\x07\x05\x01\x01f\x04\0\x0a\x04\x01\x02\0\x0b",
        false,
        false,
    ),
    // a count of items that the bytes can't hold
    (b"\x01\x05\xff\xff\xff\xff\x0f", false, false),
    // a data count section for one data segment: it says one, none, two
    (
        b"\x05\x03\x01\0\x01\x0c\x01\x01\x0b\x07\x01\0\x41\0\x0b\x01a",
        false,
        true,
    ),
    (
        b"\x05\x03\x01\0\x01\x0c\x01\0\x0b\x07\x01\0\x41\0\x0b\x01a",
        false,
        false,
    ),
    (
        b"\x05\x03\x01\0\x01\x0c\x01\x02\x0b\x07\x01\0\x41\0\x0b\x01a",
        false,
        false,
    ),
    // a padded number, a byte behind it, and no number
    (
        b"\x05\x03\x01\0\x01\x0c\x02\x81\0\x0b\x07\x01\0\x41\0\x0b\x01a",
        false,
        true,
    ),
    (b"\x0c\x02\0\0", false, false),
    (b"\x0c\0", false, false),
    // before the section 9, between 9 and 10, behind 10, behind 11, twice
    (b"\x0c\x01\0\x09\x01\0", false, false),
    (b"\x09\x01\0\x0c\x01\0\x0a\x01\0", false, true),
    (b"\x0a\x01\0\x0c\x01\0", false, false),
    (b"\x0b\x01\0\x0c\x01\0", false, false),
    (b"\x0c\x01\0\x0c\x01\0", false, false),
    // a fill, a copy, a copy with one zero byte, and a number behind the prefix that is none of theirs
    (
        b"\x01\x04\x01\x60\0\0\x03\x02\x01\0\x05\x03\x01\0\x01\x0a\x0d\x01\x0b\0\x41\0\x41\0\x41\0\xfc\x0b\0\x0b",
        false,
        true,
    ),
    (
        b"\x01\x04\x01\x60\0\0\x03\x02\x01\0\x05\x03\x01\0\x01\x0a\x0e\x01\x0c\0\x41\0\x41\0\x41\0\xfc\x0a\0\0\x0b",
        false,
        true,
    ),
    (
        b"\x01\x04\x01\x60\0\0\x03\x02\x01\0\x05\x03\x01\0\x01\x0a\x0d\x01\x0b\0\x41\0\x41\0\x41\0\xfc\x0a\0\x0b",
        false,
        false,
    ),
    (
        b"\x01\x04\x01\x60\0\0\x03\x02\x01\0\x05\x03\x01\0\x01\x0a\x0d\x01\x0b\0\x41\0\x41\0\x41\0\xfc\x09\0\x0b",
        false,
        false,
    ),
    // the first of the sign extensions, the last, and what would be one more
    (
        b"\x01\x04\x01\x60\0\0\x03\x02\x01\0\x0a\x08\x01\x06\0\x41\0\xc0\x1a\x0b",
        false,
        true,
    ),
    (
        b"\x01\x04\x01\x60\0\0\x03\x02\x01\0\x0a\x08\x01\x06\0\x42\0\xc4\x1a\x0b",
        false,
        true,
    ),
    (
        b"\x01\x04\x01\x60\0\0\x03\x02\x01\0\x0a\x08\x01\x06\0\x42\0\xc5\x1a\x0b",
        false,
        false,
    ),
];

// The magic bytes and the version, and what follows.
fn module<R: Abort>(rt: &R, alloc: Global, after: &[u8]) -> Vec<u8> {
    let mut bytes = Vec::from_slice(alloc, b"\0asm\x01\0\0\0").expect(rt, "memory");
    bytes.extend_from_slice(after).expect(rt, "memory");
    bytes
}

// Whether these bytes spell a module in a profile.
fn spells<R: Abort>(rt: &R, alloc: Global, profile: Profile, after: &[u8]) -> bool {
    let bytes = module(rt, alloc, after);
    match decode(alloc, profile, bytes.as_slice()).err() {
        None => true,
        Some(DecodeFault::Malformed) => false,
        Some(fault) => panic!(rt; "{fault}: {after:?}"),
    }
}

#[test]
fn bytes_are_modules_as_another_engine_says(rt: HostRuntime) {
    for (after, one, two) in SPELLED {
        let in_one = spells(&rt, rt.alloc(), Profile::One, after);
        let in_two = spells(&rt, rt.alloc(), Profile::Two, after);
        assert!(rt; in_one == *one && in_two == *two, "{after:?}");
    }
}

// The number behind a word of a text.
fn number_behind(text: &str, before: &str) -> Option<u64> {
    let mut words = text.split_whitespace();
    for word in words.by_ref() {
        if word == before {
            break;
        }
    }
    words.next()?.parse().ok()
}

// The most KiB of addresses that the process ever had at once.
fn most_addresses(rt: &HostRuntime) -> Option<u64> {
    let status = fs::read_to_string(rt, "/proc/self/status").ok()?;
    number_behind(status.as_str(), "VmPeak:")
}

// What follows the magic bytes and the version. It claims 4,294,967,295 types or labels, and has one or two.
static CLAIMED: &[&[u8]] = &[
    b"\x01\x08\xff\xff\xff\xff\x0f\x60\0\0",
    b"\x01\x0b\xff\xff\xff\xff\x0f\x60\0\0\x60\0\0",
    b"\x01\x04\x01\x60\0\0\x03\x02\x01\0\x0a\x0a\x01\x08\0\x0e\xff\xff\xff\xff\x0f\0",
    b"\x01\x04\x01\x60\0\0\x03\x02\x01\0\x0a\x0b\x01\x09\0\x0e\xff\xff\xff\xff\x0f\0\0",
];

// Memory for so many would be 4 GiB or more. A refusal would be an error, and what is had counts among the addresses.
#[test]
fn a_claimed_count_takes_no_memory(rt: HostRuntime) {
    for after in CLAIMED {
        let before = most_addresses(&rt).expect(&rt, "VmPeak");
        assert!(rt; !spells(&rt, rt.alloc(), Profile::One, after), "{after:?}");
        let peak = most_addresses(&rt).expect(&rt, "VmPeak");
        let more = peak.saturating_sub(before);
        assert!(rt; more < 1_048_576, "{more} KiB: {after:?}");
    }
}

// What follows the magic bytes and the version, and the need of the last function, or why the module is refused in profile 1.
static CHECKED: &[(&[u8], Result<u64, ValidFault>)] = &[
    // an addition, and a recursion
    (
        b"\x01\x07\x01\x60\x02\x7f\x7f\x01\x7f\x03\x02\x01\0\x07\x07\x01\x03add\0\0\x0a\x09\x01\x07\0\x20\0\x20\x01\x6a\x0b",
        Ok(5),
    ),
    (
        b"\x01\x06\x01\x60\x01\x7f\x01\x7f\x03\x02\x01\0\x07\x07\x01\x03rec\0\0\x0a\x14\x01\x12\0\x20\0\x45\x04\x7f\x41\0\x05\x20\0\x41\x01\x6b\x10\0\x0b\x0b",
        Ok(5),
    ),
    // what is not reached: an addition, and an i64 where an i32 is due
    (
        b"\x01\x05\x01\x60\0\x01\x7f\x03\x02\x01\0\x0a\x06\x01\x04\0\0\x6a\x0b",
        Ok(2),
    ),
    (
        b"\x01\x05\x01\x60\0\x01\x7f\x03\x02\x01\0\x0a\x07\x01\x05\0\0\x42\0\x0b",
        Err(ValidFault::Invalid),
    ),
    // an addition of one operand, a float, an import
    (
        b"\x01\x04\x01\x60\0\0\x03\x02\x01\0\x0a\x08\x01\x06\0\x41\x01\x6a\x1a\x0b",
        Err(ValidFault::Invalid),
    ),
    (
        b"\x01\x04\x01\x60\0\0\x03\x02\x01\0\x0a\x0a\x01\x08\0\x43\0\0\0\0\x1a\x0b",
        Err(ValidFault::Unsupported),
    ),
    (
        b"\x01\x04\x01\x60\0\0\x02\x07\x01\x01a\x01b\0\0",
        Err(ValidFault::Unsupported),
    ),
];

// The need of a module's last function, or why it is refused.
fn last_need<R: Abort>(rt: &R, alloc: Global, after: &[u8]) -> Result<u64, ValidFault> {
    let bytes = module(rt, alloc, after);
    let module = decode(alloc, Profile::One, bytes.as_slice()).expect(rt, "decoded");
    let valid = validate(alloc, Profile::One, module)?;
    Ok(valid.frame_needs().last().copied().unwrap_or(0))
}

#[test]
fn modules_are_valid_or_refused(rt: HostRuntime) {
    for (after, need) in CHECKED {
        assert!(rt; last_need(&rt, rt.alloc(), after) == *need, "{after:?}");
    }
}

// What follows the magic bytes and the version: a block around an `if` with an `else`, and behind it an `if` without one.
const BLOCKS: &[u8] =
    b"\x01\x04\x01\x60\0\0\x03\x02\x01\0\x0a\x15\x01\x13\0\x02\x40\x41\0\x04\x40\x01\x05\x01\x0b\x0b\x41\0\x04\x40\x01\x0b\x0b";

// How many sequences the body of a module's first function has.
fn sequences_of<R: Abort>(rt: &R, alloc: Global, after: &[u8]) -> Option<usize> {
    let bytes = module(rt, alloc, after);
    let module = decode(alloc, Profile::One, bytes.as_slice()).expect(rt, "decoded");
    let function = module.functions.as_slice().first()?;
    Some(function.body.sequences.len())
}

// One for the body and for the block, and two for each `if`.
#[test]
fn a_body_has_the_sequences_of_its_blocks_and_no_more(rt: HostRuntime) {
    assert_eq!(rt; sequences_of(&rt, rt.alloc(), BLOCKS), Some(6));
}

// 50,000 `if`s, each in the second arm of the one around it.
fn nested_arms<R: Abort>(rt: &R, alloc: Global) -> Vec<u8> {
    let opened = b"\x41\0\x04\x40\x05"
        .repeat(alloc, 50_000)
        .expect(rt, "memory");
    let closed = b"\x0b".repeat(alloc, 50_001).expect(rt, "memory");
    let mut after = Vec::from_slice(alloc, LONG_BODY).expect(rt, "memory");
    after
        .extend_from_slice(opened.as_slice())
        .expect(rt, "memory");
    after
        .extend_from_slice(closed.as_slice())
        .expect(rt, "memory");
    after
}

// A function of no parameters, and the beginning of its body, which has 300,002 bytes.
const LONG_BODY: &[u8] = b"\x01\x04\x01\x60\0\0\x03\x02\x01\0\x0a\xe6\xa7\x12\x01\xe2\xa7\x12\0";

// Nothing recurses on them.
#[test]
fn arms_may_be_nested_deep(rt: HostRuntime) {
    let after = nested_arms(&rt, rt.alloc());
    assert_eq!(rt; last_need(&rt, rt.alloc(), after.as_slice()), Ok(50_002));
}
