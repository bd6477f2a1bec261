//! The conversions between integers of 32 and of 64 bits, and those that read the lowest bits as a signed number.
//!
//! Source: WebAssembly Core Specification 1.0, section 4.3.4; for the latter version 2.0, section 4.3.2.

ghost use Rattle.std.specs.Prelude.{◌≡◌};
ghost use Rattle.wasm_spec.specs.Operators.{extend_s, wrap};
ghost use Rattle.wasm_numeric.specs.Operators.{extend_low};

/// The lowest 32 digits. Standard: `wrap`.
pub fn i32_wrap_i64(a: u64) -> u32
    ensures { result ≡ wrap 32 a }
{
    (a % 0x1_0000_0000) as u32
}

/// The same signed number, in 64 bits. Standard: `extend_s`.
pub fn i64_extend_i32_s(a: u32) -> u64
    ensures { result ≡ extend_s 32 64 a }
{
    i64::from(a.cast_signed()).cast_unsigned()
}

/// The same number, in 64 bits. Standard: `extend_u`.
pub fn i64_extend_i32_u(a: u32) -> u64
    ensures { result ≡ a }
{
    u64::from(a)
}

/// The signed number that the lowest 8 digits are, in 32 bits. Standard: `iextend8_s`.
pub fn i32_extend8_s(a: u32) -> u32
    ensures { result ≡ extend_low 8 32 a }
{
    let low = (a % 0x100) as u8;
    i32::from(low.cast_signed()).cast_unsigned()
}

/// The signed number that the lowest 16 digits are, in 32 bits. Standard: `iextend16_s`.
pub fn i32_extend16_s(a: u32) -> u32
    ensures { result ≡ extend_low 16 32 a }
{
    let low = (a % 0x10000) as u16;
    i32::from(low.cast_signed()).cast_unsigned()
}

/// The signed number that the lowest 8 digits are, in 64 bits. Standard: `iextend8_s`.
pub fn i64_extend8_s(a: u64) -> u64
    ensures { result ≡ extend_low 8 64 a }
{
    let low = (a % 0x100) as u8;
    i64::from(low.cast_signed()).cast_unsigned()
}

/// The signed number that the lowest 16 digits are, in 64 bits. Standard: `iextend16_s`.
pub fn i64_extend16_s(a: u64) -> u64
    ensures { result ≡ extend_low 16 64 a }
{
    let low = (a % 0x10000) as u16;
    i64::from(low.cast_signed()).cast_unsigned()
}

/// The signed number that the lowest 32 digits are, in 64 bits. Standard: `iextend32_s`.
pub fn i64_extend32_s(a: u64) -> u64
    ensures { result ≡ extend_low 32 64 a }
{
    let low = (a % 0x1_0000_0000) as u32;
    i64::from(low.cast_signed()).cast_unsigned()
}
