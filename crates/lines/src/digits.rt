// Reads decimal numbers, hexadecimal values and hexadecimal byte strings.
ghost use Rattle.std.specs.Prelude.{◌≡◌, ◌<◌, ◌≤◌, ◌^◌, length, IfOk, IfSome, vec_items};
ghost use Rattle.std.specs.Option.{option_map};
ghost use Rattle.lines.specs.Digits.{byte_of, bytes_of, byte_string, digit_in, digit_of, number_of, numeral_of, value_of};

use std::alloc::{AllocError, Global};

// The value of an upper-case hexadecimal digit.
pub fn digit(b: u8) -> Option<u8>
    ensures { result ≡ digit_of b }
{
    match b {
        b'0'..=b'9' => Some(b - b'0'),
        b'A'..=b'F' => Some(b - b'A' + 10),
        _ => None,
    }
}

// The number that digits of a base write, the most significant first. Not the library's, which takes signs and small
// letters.
#[tactic(auto, using(crate::proofs::Reading::room_for_digit))]
fn numeral<const BASE: u64>(digits: &[u8]) -> Option<u64>
    requires some { 0 < BASE }
    requires few { BASE ^ length digits.now ≤ 2 ^ 64 }
    ensures value { result ≡ numeral_of BASE (digit_in BASE) 0 digits.now }
    ensures fits { IfSome result (λ n. n < BASE ^ length digits.now) }
{
    let mut value = 0;
    for b in digits {
        let digit = u64::from(digit(*b)?);
        if digit >= BASE {
            return None;
        }
        value = BASE * value + digit;
    }
    Some(value)
}

// A number has 1 to 9 decimal digits.
pub fn number(word: &[u8]) -> Option<u32>
    ensures { result ≡ number_of word.now }
{
    if word.is_empty() || word.len() > 9 {
        return None;
    }
    let number = numeral::<10>(word)?;
    Some(number as u32)
}

// A value has 16 hexadecimal digits.
pub fn value(word: &[u8]) -> Option<u64>
    ensures { result ≡ value_of word.now }
{
    if word.len() != 16 {
        return None;
    }
    numeral::<16>(word)
}

// A byte string has two digits for each byte, or is `-` where it has no bytes.
pub fn byte_string(heap: Global, word: &[u8]) -> Result<Option<Vec<u8>>, AllocError>
    ensures { IfOk result (λ o. option_map vec_items o ≡ byte_string word.now) }
{
    match word {
        [] => Ok(None),
        b"-" => Ok(Some(Vec::new(heap))),
        _ => digit_pairs(heap, word),
    }
}

// The byte of each two digits.
fn digit_pairs(heap: Global, digits: &[u8]) -> Result<Option<Vec<u8>>, AllocError>
    ensures { IfOk result (λ o. option_map vec_items o ≡ bytes_of digits.now) }
{
    let mut bytes = Vec::new(heap);
    let mut rest = digits;
    while let [high, low, after @ ..] = rest {
        let Some(b) = byte(*high, *low) else {
            return Ok(None);
        };
        bytes.push(b)?;
        rest = after;
    }
    Ok(rest.is_empty().then_some(bytes))
}

fn byte(high: u8, low: u8) -> Option<u8>
    ensures { result ≡ byte_of high low }
{
    Some(16 * digit(high)? + digit(low)?)
}
