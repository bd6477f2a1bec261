//! What a word stands for: a fuel, an argument.
ghost use Rattle.std.specs.Prelude.{◌≡◌, ◌+◌, ◌-◌, ◌*◌, ◌^◌, ◌≤◌, true, IfSome, MatchOption};
ghost use Rattle.std.specs.Char.{is_ascii_digit};
ghost use Rattle.std.specs.List.{list_all};
ghost use Rattle.std.specs.Str.Parse.{digits_value};
ghost use Rattle.request_words.specs.FirstWords.{Reads, after_word, first_word};
ghost use Rattle.request_words.specs.Words.{number_up_to, fuel_of, integer_of, argument_of};

use wasm_values::Val;

// The number with one digit more behind it, if that is below 2^64.
fn with_digit(number: u64, digit: u8) -> Option<u64>
    requires { (48 ≤ digit) × (digit ≤ 57) }
    ensures { MatchOption result (2 ^ 64 ≤ number * 10 + (digit - 48)) (λ n. n ≡ number * 10 + (digit - 48)) }
{
    number.checked_mul(10)?.checked_add(u64::from(digit - b'0'))
}

// The number that a word of digits writes, if it is below 2^64. Each byte is looked at once.
fn number(word: &[u8]) -> Option<u64>
    ensures { MatchOption result (list_all is_ascii_digit word.now ≡ true → 2 ^ 64 ≤ digits_value 10 word.now)
        (λ n. (list_all is_ascii_digit word.now ≡ true) × (n ≡ digits_value 10 word.now)) }
{
    let mut number = 0;
    for byte in word {
        if !byte.is_ascii_digit() {
            return None;
        }
        number = with_digit(number, *byte)?;
    }
    Some(number)
}

// The number that the first word of a text writes, if it is one of digits below 2^64, and what follows it. Each byte is looked at once.
fn leading_number(text: &[u8]) -> Option<(u64, &[u8])>
    ensures { MatchOption result (list_all is_ascii_digit (first_word text.now) ≡ true → 2 ^ 64 ≤ digits_value 10 (first_word text.now))
        (λ r. (list_all is_ascii_digit (first_word text.now) ≡ true) × (r.0 ≡ digits_value 10 (first_word text.now)) × (r.1.now ≡ after_word text.now)) }
{
    let mut number = 0;
    for end in 0..text.len() {
        let byte = text[end];
        if byte == b' ' {
            return Some((number, &text[end..]));
        }
        if !byte.is_ascii_digit() {
            return None;
        }
        number = with_digit(number, byte)?;
    }
    Some((number, &text[text.len()..]))
}

/// The number that a word of digits alone writes, if it is at most `most`.
#[tactic(auto, unfolding(crate::specs::Words::number_up_to), using(crate::proofs::NumberLemmas::empty_is))]
pub fn number_up_to(most: u64, word: &[u8]) -> Option<u64>
    ensures value { result ≡ number_up_to most word.now }
    ensures within { IfSome result (λ n. n ≤ most) }
{
    if word.is_empty() {
        return None;
    }
    let number = number(word)?;
    if number <= most { Some(number) } else { None }
}

/// The fuel that a word gives.
#[inline(always)]
pub fn fuel(word: &[u8]) -> Option<u32>
    ensures { result ≡ fuel_of word.now }
{
    let number = number_up_to(u64::from(u32::MAX), word)?;
    Some(number as u32)
}

// The number that the first word of a text writes, if it is one of digits alone and at most `most`, and what follows it.
#[inline(always)]
fn leading_number_up_to(most: u64, text: &[u8]) -> Option<(u64, &[u8])>
    ensures number { Reads result (number_up_to most (first_word text.now)) text.now }
    ensures within { IfSome result (λ r. r.0 ≤ most) }
{
    let (number, rest) = leading_number(text)?;
    if rest.len() < text.len() && number <= most {
        Some((number, rest))
    } else {
        None
    }
}

/// The fuel that the first word of a text gives, and what follows it.
#[inline(always)]
pub fn leading_fuel(text: &[u8]) -> Option<(u32, &[u8])>
    ensures { Reads result (fuel_of (first_word text.now)) text.now }
{
    let (number, rest) = leading_number_up_to(u64::from(u32::MAX), text)?;
    Some((number as u32, rest))
}

// The number of an `i32` argument, from -2^31 to 2^32 - 1, modulo 2^32, and what follows it.
#[tactic(auto, unfolding(crate::specs::Words::integer_of))]
fn integer_32(text: &[u8]) -> Option<(u32, &[u8])>
    ensures { Reads result (integer_of 32 (first_word text.now)) text.now }
{
    match text.strip_prefix(b"-") {
        Some(digits) => {
            let (number, rest) = leading_number_up_to(1 << 31, digits)?;
            Some(((number as u32).wrapping_neg(), rest))
        }
        None => {
            let (number, rest) = leading_number_up_to(u64::from(u32::MAX), text)?;
            Some((number as u32, rest))
        }
    }
}

// The number of an `i64` argument, from -2^63 to 2^64 - 1, modulo 2^64, and what follows it.
#[tactic(auto, unfolding(crate::specs::Words::integer_of))]
fn integer_64(text: &[u8]) -> Option<(u64, &[u8])>
    ensures { Reads result (integer_of 64 (first_word text.now)) text.now }
{
    match text.strip_prefix(b"-") {
        Some(digits) => {
            let (number, rest) = leading_number_up_to(1 << 63, digits)?;
            Some((number.wrapping_neg(), rest))
        }
        None => leading_number_up_to(u64::MAX, text),
    }
}

/// The argument that the first word of a text gives, by its type and its number, and what follows it.
#[tactic(auto, unfolding(crate::specs::Words::argument_of))]
pub fn leading_argument(text: &[u8]) -> Option<(Val, &[u8])>
    ensures { Reads result (argument_of (first_word text.now)) text.now }
{
    if let Some(number) = text.strip_prefix(b"i32:") {
        let (number, rest) = integer_32(number)?;
        return Some((Val::I32(number), rest));
    }
    let number = text.strip_prefix(b"i64:")?;
    let (number, rest) = integer_64(number)?;
    Some((Val::I64(number), rest))
}
