//! Decimal numbers as they are typed.
ghost use Rattle.std.specs.Prelude.{◌≡◌, ◌≤◌, IfSome};
ghost use Rattle.text.specs.Text.{number_within};

/// The most cells that a roster is opened with, and the most entries of a table.
const MOST: u64 = 1000;

// No `parse`: it takes text, and a sign before the digits.
/// The number that a word of digits writes; none where it is empty, a byte is no digit, or the number is above the limit.
pub fn number(word: &[u8], limit: u64) -> Option<u64>
    ensures value { result ≡ number_within limit word.now }
    ensures bound { IfSome result (λ n. n ≤ limit) }
{
    if word.is_empty() {
        return None;
    }
    let mut n = 0u64;
    for b in word {
        if !b.is_ascii_digit() {
            return None;
        }
        let next = n as u128 * 10 + (*b - b'0') as u128;
        if next > limit as u128 {
            return None;
        }
        n = next as u64;
    }
    Some(n)
}

// The next two are a line each: one over both types would have to say what its conversion gives.
/// A 32-bit number.
pub fn short_number(word: &[u8]) -> Option<u32>
    ensures { result ≡ number_within 4294967295 word.now }
{
    number(word, u32::MAX as u64).map(|n| n as u32)
}

/// A number of cells or of entries.
pub fn size(word: &[u8]) -> Option<usize>
    ensures { result ≡ number_within 1000 word.now }
{
    number(word, MOST).map(|n| n as usize)
}
