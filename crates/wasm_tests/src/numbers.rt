//! Numbers against what node 22's engine reads in `i32.const`, `i64.const` and a memory access's offset.

use leb_read::{Cursor, Malformed};

#[derive(Clone, Copy)]
enum Number {
    U32,
    S32,
    S64,
}

use Number::{S32, S64, U32};

// These bytes spell no number.
const NONE: Result<i64, Malformed> = Err(Malformed { at: 0 });

// The bytes of a number, and its value, if they spell one. Others of that engine's are computed in `wasm_examples`.
static NUMBERS: &[(Number, &[u8], Result<i64, Malformed>)] = &[
    (U32, b"\0", Ok(0)),
    (U32, b"\x01", Ok(1)),
    (U32, b"\x80\0", Ok(0)),
    (U32, b"\xff\x7f", Ok(16383)),
    (U32, b"\x80\x80\0", Ok(0)),
    (U32, b"\x80\x80\x01", Ok(16384)),
    (U32, b"\xff\xff\x7f", Ok(2097151)),
    (U32, b"\x80\x80\x80\0", Ok(0)),
    (U32, b"\x80\x80\x80\x01", Ok(2097152)),
    (U32, b"\xff\xff\xff\x7f", Ok(268435455)),
    (U32, b"\xff\xff\xff\xff\0", Ok(268435455)),
    (U32, b"\xff\xff\xff\xff\x01", Ok(536870911)),
    (U32, b"\xff\xff\xff\xff\x0f", Ok(4294967295)),
    (U32, b"\xff\xff\xff\xff\x10", NONE),
    (U32, b"\x80\x80\x80\x80\x10", NONE),
    (U32, b"\xff\xff\xff\xff\x1f", NONE),
    (U32, b"\xff\xff\xff\xff\x40", NONE),
    (U32, b"\xff\xff\xff\xff\x7f", NONE),
    (U32, b"\x80\x80\x80\x80\x80\0", NONE),
    (S32, b"\0", Ok(0)),
    (S32, b"\x80\0", Ok(0)),
    (S32, b"\xff\x3f", Ok(8191)),
    (S32, b"\x80\x40", Ok(-8192)),
    (S32, b"\xff\x7f", Ok(-1)),
    (S32, b"\x80\x80\0", Ok(0)),
    (S32, b"\xff\xff\x3f", Ok(1048575)),
    (S32, b"\x80\x80\x40", Ok(-1048576)),
    (S32, b"\xff\xff\x7f", Ok(-1)),
    (S32, b"\x80\x80\x80\0", Ok(0)),
    (S32, b"\xff\xff\xff\x3f", Ok(134217727)),
    (S32, b"\x80\x80\x80\x40", Ok(-134217728)),
    (S32, b"\xff\xff\xff\x7f", Ok(-1)),
    (S32, b"\xff\xff\xff\xff\0", Ok(268435455)),
    (S32, b"\xff\xff\xff\xff\x08", NONE),
    (S32, b"\xff\xff\xff\xff\x0f", NONE),
    (S32, b"\xff\xff\xff\xff\x70", NONE),
    (S32, b"\xff\xff\xff\xff\x77", NONE),
    (S32, b"\xff\xff\xff\xff\x78", Ok(-1879048193)),
    (S32, b"\xff\xff\xff\xff\x7f", Ok(-1)),
    (S32, b"\xff\xff\xff\xff\x3f", NONE),
    (S32, b"\xff\xff\xff\xff\x40", NONE),
    (S32, b"\xff\xff\xff\xff\xff\x7f", NONE),
    (S32, b"\x80\x80\x80\x80\x80\0", NONE),
    (S64, b"\0", Ok(0)),
    (S64, b"\x3f", Ok(63)),
    (S64, b"\x40", Ok(-64)),
    (S64, b"\x7f", Ok(-1)),
    (S64, b"\x80\0", Ok(0)),
    (S64, b"\xff\x3f", Ok(8191)),
    (S64, b"\x80\x40", Ok(-8192)),
    (S64, b"\xff\x7f", Ok(-1)),
    (S64, b"\x80\x80\0", Ok(0)),
    (S64, b"\xff\xff\x3f", Ok(1048575)),
    (S64, b"\x80\x80\x40", Ok(-1048576)),
    (S64, b"\xff\xff\x7f", Ok(-1)),
    (S64, b"\x80\x80\x80\0", Ok(0)),
    (S64, b"\xff\xff\xff\x3f", Ok(134217727)),
    (S64, b"\x80\x80\x80\x40", Ok(-134217728)),
    (S64, b"\xff\xff\xff\x7f", Ok(-1)),
    (S64, b"\x80\x80\x80\x80\0", Ok(0)),
    (S64, b"\xff\xff\xff\xff\x3f", Ok(17179869183)),
    (S64, b"\x80\x80\x80\x80\x40", Ok(-17179869184)),
    (S64, b"\xff\xff\xff\xff\x7f", Ok(-1)),
    (S64, b"\x80\x80\x80\x80\x80\0", Ok(0)),
    (S64, b"\xff\xff\xff\xff\xff\x3f", Ok(2199023255551)),
    (S64, b"\x80\x80\x80\x80\x80\x40", Ok(-2199023255552)),
    (S64, b"\xff\xff\xff\xff\xff\x7f", Ok(-1)),
    (S64, b"\x80\x80\x80\x80\x80\x80\0", Ok(0)),
    (S64, b"\xff\xff\xff\xff\xff\xff\x3f", Ok(281474976710655)),
    (S64, b"\x80\x80\x80\x80\x80\x80\x40", Ok(-281474976710656)),
    (S64, b"\xff\xff\xff\xff\xff\xff\x7f", Ok(-1)),
    (S64, b"\x80\x80\x80\x80\x80\x80\x80\0", Ok(0)),
    (
        S64,
        b"\xff\xff\xff\xff\xff\xff\xff\x3f",
        Ok(36028797018963967),
    ),
    (
        S64,
        b"\x80\x80\x80\x80\x80\x80\x80\x40",
        Ok(-36028797018963968),
    ),
    (S64, b"\xff\xff\xff\xff\xff\xff\xff\x7f", Ok(-1)),
    (S64, b"\x80\x80\x80\x80\x80\x80\x80\x80\0", Ok(0)),
    (
        S64,
        b"\xff\xff\xff\xff\xff\xff\xff\xff\x3f",
        Ok(4611686018427387903),
    ),
    (
        S64,
        b"\x80\x80\x80\x80\x80\x80\x80\x80\x40",
        Ok(-4611686018427387904),
    ),
    (S64, b"\xff\xff\xff\xff\xff\xff\xff\xff\x7f", Ok(-1)),
    (S64, b"\xff\xff\xff\xff\xff\xff\xff\xff\xff\x01", NONE),
    (S64, b"\xff\xff\xff\xff\xff\xff\xff\xff\xff\x7e", NONE),
    (S64, b"\xff\xff\xff\xff\xff\xff\xff\xff\xff\x7f", Ok(-1)),
    (S64, b"\xff\xff\xff\xff\xff\xff\xff\xff\xff\x3f", NONE),
    (S64, b"\xff\xff\xff\xff\xff\xff\xff\xff\xff\x40", NONE),
    (
        S64,
        b"\x80\x80\x80\x80\x80\x80\x80\x80\x80\x7f",
        Ok(-9223372036854775808),
    ),
    (S64, b"\x80\x80\x80\x80\x80\x80\x80\x80\x80\x80\0", NONE),
    (U32, b"", NONE),
    (U32, b"\x80\x80\x80\x80", NONE),
    (S32, b"", NONE),
    (S32, b"\x80", NONE),
    (S32, b"\x80\x80\x80\x80", NONE),
    (S64, b"", NONE),
    (S64, b"\x80", NONE),
    (S64, b"\x80\x80\x80\x80\x80\x80\x80\x80\x80", NONE),
];

// The number that all of these bytes spell.
fn value_of(number: Number, bytes: &[u8]) -> Result<i64, Malformed> {
    let mut cursor = Cursor::new(bytes);
    let value = match number {
        U32 => i64::from(cursor.u32()?),
        S32 => i64::from(cursor.s32()?),
        S64 => cursor.s64()?,
    };
    if cursor.is_at_end() {
        Ok(value)
    } else {
        Err(Malformed { at: bytes.len() })
    }
}

#[test]
fn numbers_at_every_boundary(rt: HostRuntime) {
    for (kind, bytes, value) in NUMBERS {
        assert!(rt; value_of(*kind, bytes) == *value, "{bytes:?}");
    }
}
