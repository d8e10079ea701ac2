// What a word says, where a number or bytes are wanted.
ghost use Rattle.std.specs.Prelude.{◌≡◌, vec_items};
ghost use Rattle.script.specs.Values.{number_in, digit_in, byte_in, hex_in};
ghost use Rattle.script.specs.Reader.{Says};

use crate::error::ParseError;
use std::alloc::Global;

// The most digits that a number has, leading zeros among them.
const MOST_DIGITS: usize = 10;

// The number that a word is: one to ten digits, and no more than a u32 holds.
pub fn number(word: &[u8]) -> Option<u32>
    ensures { result ≡ number_in word.now }
{
    if word.is_empty() || word.len() > MOST_DIGITS {
        return None;
    }
    word.iter().try_fold(0u32, |n, c| match c {
        b'0'..=b'9' => n.checked_mul(10)?.checked_add(u32::from(c - b'0')),
        _ => None,
    })
}

// The worth of a capital hexadecimal digit. `char::to_digit` would take small letters too.
fn digit(c: u8) -> Option<u8>
    ensures { result ≡ digit_in c }
{
    match c {
        b'0'..=b'9' => Some(c - b'0'),
        b'A'..=b'F' => Some(c - b'A' + 10),
        _ => None,
    }
}

// The byte that two such digits write.
fn byte(high: u8, low: u8) -> Option<u8>
    ensures { result ≡ byte_in high low }
{
    Some(digit(high)? * 16 + digit(low)?)
}

// The bytes that a word writes, two digits a byte and at least one byte.
pub fn hex(heap: Global, word: &[u8]) -> Result<Vec<u8>, ParseError>
    ensures { Says vec_items result (hex_in word.now) }
{
    let (pairs, odd) = word.as_chunks::<2>();
    if word.is_empty() || !odd.is_empty() {
        return Err(ParseError::Unknown);
    }
    let mut bytes = Vec::new(heap);
    for [high, low] in pairs {
        bytes.push(byte(*high, *low).ok_or(ParseError::Unknown)?)?;
    }
    Ok(bytes)
}
