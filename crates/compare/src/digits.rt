// Bytes written as hexadecimal digits, two a byte, in capitals.
// Promises that bytes that are read have the text as their spelling, and that no text that spells bytes is refused for its form.
// Rests on nothing.
ghost use Rattle.std.specs.Prelude.{◌≡◌, ℕ, ◌/◌, ◌%◌, ◌<◌, MatchOption, MatchResult, ◌≢◌};
ghost use Rattle.compare.specs.Hex.{digit as digit_of, spelled, NoBytes};

use crate::fault::Fault;
use std::alloc::Global;

// The value of a digit. Crate hex reads small letters too, which the data files do not have.
fn digit(c: u8) -> Option<u8>
    ensures { MatchOption result ((d : ℕ) → d < 16 → c ≢ digit_of d) (λ d. (d < 16) × (c ≡ digit_of d)) }
{
    match c {
        b'0'..=b'9' => Some(c - b'0'),
        b'A'..=b'F' => Some(c - b'A' + 10),
        _ => None,
    }
}

// The byte of two digits.
fn byte(high: u8, low: u8) -> Option<u8>
    ensures { MatchOption result ((b : ℕ) → b < 256 → high ≡ digit_of (b / 16) → low ≢ digit_of (b % 16)) (λ b. (high ≡ digit_of (b / 16)) × (low ≡ digit_of (b % 16))) }
{
    Some(16 * digit(high)? + digit(low)?)
}

// The bytes that a text spells.
pub fn parse_hex(heap: Global, text: &str) -> Result<Vec<u8>, Fault>
    ensures { MatchResult result (λ v. spelled v.items ≡ text.now) (NoBytes text.now) }
{
    let (pairs, []) = text.as_bytes().as_chunks::<2>() else {
        return Err(Fault::Form("two digits for each byte"));
    };
    let mut bytes = Vec::with_capacity(heap, pairs.len()).map_err(Fault::Memory)?;
    for [high, low] in pairs {
        let byte = byte(*high, *low).ok_or(Fault::Form("hexadecimal digits in capitals"))?;
        bytes
            .push(byte)
            .map_err(|refused| Fault::Memory(refused.into()))?;
    }
    Ok(bytes)
}
