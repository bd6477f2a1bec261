//! Calls that may answer want of memory, where there is memory enough. (Those that decode and validate modules are in `modules`.)

use call_payload::{AnswerBuf, Payload, TooLong};
use initial_image::{Image, build};
use linear_memory::Memory;
use std::alloc::Global;
use std::process::Abort;
use wasm_decode::decode;
use wasm_machine::Stacks;
use wasm_validate::validate;
use wasm_values::{Items, Profile, Val};

#[test]
fn an_answer_takes_65536_bytes_and_no_more(rt: HostRuntime) {
    let most = b"\x07".repeat(rt.alloc(), 65_536).expect(&rt, "memory");
    let mut answer = AnswerBuf::open(rt.alloc()).expect(&rt, "memory");
    let told = [
        answer.append(&most),
        answer.append(b"a"),
        answer.append(b""),
    ];
    let (have, more) = (65_536, 1);
    assert!(rt; told == [Ok(65_536), Err(TooLong { have, more }), Ok(65_536)]);
}

#[test]
fn a_payload_is_copied(rt: HostRuntime) {
    let bytes = Items::new(Vec::from_slice(rt.alloc(), b"abc").expect(&rt, "memory"));
    let payload = Payload::new(bytes).expect(&rt, "not too long");
    let copy = payload.copy(rt.alloc()).expect(&rt, "memory");
    assert!(rt; copy.bytes() == b"abc".as_slice());
}

// A start function that does nothing, a global that is 5, and "ab" at address 63.
const INSTANCE: &[u8] =
    b"\0asm\x01\0\0\0\x01\x04\x01\x60\0\0\x03\x02\x01\0\x05\x03\x01\0\x01\x06\x06\x01\x7f\0\x41\x05\x0b\x08\x01\0\x0a\x04\x01\x02\0\x0b\x0b\x08\x01\0\x41\x3f\x0b\x02ab";

// The image of this module.
fn image<R: Abort>(rt: &R, alloc: Global) -> Image {
    let module = decode(alloc, Profile::One, INSTANCE).expect(rt, "decoded");
    let valid = validate(alloc, Profile::One, module).expect(rt, "valid");
    build(alloc, &valid).expect(rt, "built")
}

#[test]
fn an_image_is_built(rt: HostRuntime) {
    let image = image(&rt, rt.alloc());
    let mut bytes = [9; 4096];
    image.memory.copy_block(0, &mut bytes);
    assert!(rt; &bytes[62..66] == b"\0ab\0".as_slice());
    assert!(rt; image.globals.as_slice() == [Val::I32(5)].as_slice() && image.start == Some(0));
}

// How deep stacks are opened, and for frames of how many places: sizes of users.
static SIZES: [(u32, u32); 3] = [(1, 1), (128, 1_024), (1_000, 4_096)];

#[test]
fn memories_and_stacks_are_had(rt: HostRuntime) {
    let memory = Memory::zeroed(rt.alloc(), 2).expect(&rt, "memory");
    let sizes = (memory.bytes.len(), memory.marks.as_slice().len());
    assert!(rt; sizes == (131_072, 32) && memory.pages == 0);
    for &(depth, frame) in &SIZES {
        let _stacks = Stacks::open(rt.alloc(), depth, frame).expect(&rt, "memory");
    }
}
