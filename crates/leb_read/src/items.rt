//! Items at the front of bytes.

ghost use Rattle.std.specs.Prelude.{◌≡◌, ℕ, ℤ, pos, neg_ℤ, ◌<ℤ◌, ◌≤ℤ◌, ◌-◌, ◌<◌, ◌≤◌, ◌^◌, List, length, MatchOption, IfSome};
ghost use Rattle.wasm_spec.specs.Numbers.{TakesUnsigned, TakesSigned, TakesBytes, TakesName};

use simdutf8::is_utf8;

// An unsigned number of so many bits, and the bytes after it.
pub(crate) fn read_unsigned(bytes: &[u8], bits: u32) -> Option<(u32, &[u8])>
    requires { bits ≤ 32 }
    ensures small { IfSome result (λ p. p.0 < 2 ^ bits) }
    ensures reads { MatchOption result ((x : ℕ) (rest : List ℕ) → TakesUnsigned bits x bytes.now rest → ⊥) (λ p. TakesUnsigned bits p.0 bytes.now p.1.now) }
{
    match bytes {
        [] => None,
        [byte, rest @ ..] => {
            let byte = u32::from(*byte);
            if byte < 128 {
                if u64::from(byte) < 1 << bits {
                    Some((byte, rest))
                } else {
                    None
                }
            } else if bits > 7 {
                match read_unsigned(rest, bits - 7) {
                    Some((high, rest)) => Some((128 * high + (byte - 128), rest)),
                    None => None,
                }
            } else {
                None
            }
        }
    }
}

// A signed number of so many bits, and the bytes after it.
pub(crate) fn read_signed(bytes: &[u8], bits: u32) -> Option<(i64, &[u8])>
    requires some { 1 ≤ bits }
    requires most { bits ≤ 64 }
    ensures low { IfSome result (λ p. neg_ℤ (pos (2 ^ (bits - 1))) ≤ℤ p.0) }
    ensures high { IfSome result (λ p. p.0 <ℤ pos (2 ^ (bits - 1))) }
    ensures reads { MatchOption result ((x : ℤ) (rest : List ℕ) → TakesSigned bits x bytes.now rest → ⊥) (λ p. TakesSigned bits p.0 bytes.now p.1.now) }
{
    match bytes {
        [] => None,
        [byte, rest @ ..] => {
            let byte = *byte;
            let half: u64 = 1 << (bits - 1);
            if byte < 64 {
                if u64::from(byte) < half {
                    Some((i64::from(byte), rest))
                } else {
                    None
                }
            } else if byte < 128 {
                if 128 <= u64::from(byte) + half {
                    Some((i64::from(byte) - 128, rest))
                } else {
                    None
                }
            } else if bits > 7 {
                match read_signed(rest, bits - 7) {
                    Some((high, rest)) => Some((128 * high + i64::from(byte - 128), rest)),
                    None => None,
                }
            } else {
                None
            }
        }
    }
}

// A vector of bytes, and the bytes after it.
pub(crate) fn read_bytes(bytes: &[u8]) -> Option<(&[u8], &[u8])>
    ensures { MatchOption result ((xs rest : List ℕ) → TakesBytes xs bytes.now rest → ⊥) (λ p. TakesBytes p.0.now bytes.now p.1.now) }
{
    let (count, rest) = read_unsigned(bytes, 32)?;
    let count = count as usize;
    if count <= rest.len() {
        Some(rest.split_at(count))
    } else {
        None
    }
}

// A name, and the bytes after it.
pub(crate) fn read_name(bytes: &[u8]) -> Option<(&[u8], &[u8])>
    ensures { MatchOption result ((name rest : List ℕ) → TakesName name bytes.now rest → ⊥) (λ p. TakesName p.0.now bytes.now p.1.now) }
{
    let (name, rest) = read_bytes(bytes)?;
    if is_utf8(name) {
        Some((name, rest))
    } else {
        None
    }
}
