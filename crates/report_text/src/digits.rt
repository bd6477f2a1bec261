//! Bytes as hex digits.
ghost use Rattle.std.specs.Prelude.{◌≡◌, ◌*◌, ◌<◌, IfOk, length, slice_index};
ghost use Rattle.hex.specs.Hex.{encode_lower, lower_digits};

use std::alloc::{AllocError, Global};

// The digit of a value, of lower case.
fn lower_digit(value: u8) -> u8
    requires { value < 16 }
    ensures { result ≡ slice_index lower_digits value }
{
    if value < 10 {
        b'0' + value
    } else {
        b'a' + (value - 10)
    }
}

// Writes bytes as twice as many hex digits.
fn encode(bytes: &[u8], digits: &mut [u8])
    requires { length digits.old ≡ 2 * length bytes.now }
    ensures { digits.new ≡ encode_lower bytes.now }
{
    for place in 0..bytes.len() {
        let byte = bytes[place];
        digits[2 * place] = lower_digit(byte / 16);
        digits[2 * place + 1] = lower_digit(byte % 16);
    }
}

// Bytes as hex digits of lower case.
pub(crate) fn hex_digits(alloc: Global, bytes: &[u8]) -> Result<Vec<u8>, AllocError>
    ensures { IfOk result (λ digits. digits.items ≡ encode_lower bytes.now) }
{
    let mut digits = vec![in alloc; 0; 2 * bytes.len()]?;
    encode(bytes, &mut digits);
    Ok(digits)
}
