// Masks in hexadecimal, read.
ghost use Rattle.std.specs.Prelude.{◌≡◌, ◌^◌, ◌<◌, ℕ, List, Some, IfSome};
ghost use Rattle.std.specs.Result.{result_ok};
ghost use Rattle.bm_base.specs.Hex.{hex_digit_of, hex_of};
ghost use Rattle.bm_base.specs.Numeral.{hexadecimal};

use crate::strict::leads_well;
use crate::{BadNumber, MOST_MASK_DIGITS};

/// The value of a digit from `0` to `9` or from `a` to `f`.
fn hex_digit(byte: u8) -> Option<u8>
    ensures value { result ≡ hex_digit_of byte }
    ensures small { IfSome result (λ d. d < 16) }
{
    match byte {
        b'0'..=b'9' => Some(byte - b'0'),
        b'a'..=b'f' => Some(byte - b'a' + 10),
        _ => None,
    }
}

/// The number that 1 to 32 digits from `0` to `9` and `a` to `f` spell, without leading zeros but
/// in `0` alone. `BadNumber` exactly where the text is another.
pub fn hex(bytes: &[u8]) -> Result<u128, BadNumber>
    ensures { result_ok result ≡ hex_of bytes.now }
{
    if bytes.is_empty() || bytes.len() > MOST_MASK_DIGITS || !leads_well(bytes) {
        return Err(BadNumber);
    }
    let mut value: u128 = 0;
    for byte in bytes {
        match hex_digit(*byte) {
            None => return Err(BadNumber),
            Some(digit) => value = value * 16 + u128::from(digit),
        }
    }
    Ok(value)
}

/// One mask has one text, and what is written is read again.
pub fn laws_of_hexadecimal()
    ensures written { (n : ℕ) → n < 2 ^ 128 → hex_of (hexadecimal n) ≡ Some n }
    ensures texts { (bytes : List ℕ) (n : ℕ) → hex_of bytes ≡ Some n → (bytes ≡ hexadecimal n) × (n < 2 ^ 128) }
{}
