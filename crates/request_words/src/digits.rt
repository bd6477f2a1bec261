//! Hex digits, and the bytes that they spell.
ghost use Rattle.std.specs.Prelude.{◌≡◌, ◌*◌, IfOk, length, unwrap_or};
ghost use Rattle.std.specs.Option.{option_map};
ghost use Rattle.hex.specs.Hex.{hex_digit_value};
ghost use Rattle.request_words.specs.Digits.{Spells};
ghost use Rattle.request_words.specs.Words.{hex_bytes};

use std::alloc::{AllocError, Global};

// What a byte that is no hex digit is given as its value.
const NO_DIGIT: u8 = 255;

// The value of a hex digit of either case.
fn digit_value(digit: u8) -> u8
    ensures { result ≡ unwrap_or (hex_digit_value digit) NO_DIGIT }
{
    match digit {
        b'0'..=b'9' => digit - b'0',
        b'A'..=b'F' => digit - b'A' + 10,
        b'a'..=b'f' => digit - b'a' + 10,
        _ => NO_DIGIT,
    }
}

// Writes the bytes that twice as many hex digits spell, and says whether all are digits. None ends the loop early, so that it
// reads many in one step.
fn decode(digits: &[u8], bytes: &mut [u8]) -> bool
    requires { length digits.now ≡ 2 * length bytes.old }
    ensures { Spells digits.now bytes.new result }
{
    let mut all = true;
    for place in 0..bytes.len() {
        let high = digit_value(digits[2 * place]);
        let low = digit_value(digits[2 * place + 1]);
        all &= (high != NO_DIGIT) & (low != NO_DIGIT);
        bytes[place] = high % 16 * 16 + low % 16;
    }
    all
}

/// The bytes that hex digits of either case spell, two a byte, or none where a byte is no digit or one is left over.
///
/// # Errors
///
/// `AllocError` where memory is refused.
pub fn hex_bytes(alloc: Global, digits: &[u8]) -> Result<Option<Vec<u8>>, AllocError>
    ensures { IfOk result (λ bytes. option_map (λ b. b.items) bytes ≡ hex_bytes digits.now) }
{
    if digits.len() % 2 != 0 {
        return Ok(None);
    }
    let mut bytes = vec![in alloc; 0; digits.len() / 2]?;
    if decode(digits, &mut bytes) {
        Ok(Some(bytes))
    } else {
        Ok(None)
    }
}
