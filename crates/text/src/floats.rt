//! Floats as they are printed.
ghost use Rattle.std.specs.Prelude.{ℕ, IfOk, MatchOption, string_bytes};
ghost use Rattle.text.specs.Floats.{IsWhole, IsTextOf, AreSpacedTextsOf};

use ryu::Buffer;
use std::alloc::{AllocError, Global};
use std::num::{f64_to_bits_with_nan, saturating_f64_to_u64};

/// 2^53: a larger float is not printed as a whole number.
const MOST: u64 = 1 << 53;

/// The whole number up to 2^53 that a float is.
fn whole(x: f64) -> Option<u64>
    ensures { MatchOption result ((n : ℕ) → ¬ IsWhole x n) (λ n. IsWhole x n) }
{
    let n = saturating_f64_to_u64(x);
    // By their bits: negative zero is equal to zero.
    if n <= MOST && f64_to_bits_with_nan(n as f64) == f64_to_bits_with_nan(x) {
        return Some(n);
    }
    None
}

/// A whole number up to 2^53 in its digits, any other float as `ryu` writes it: a short text that reads back as it.
fn float_text(heap: Global, x: f64) -> Result<String, AllocError>
    ensures { IfOk result (λ s. IsTextOf x (string_bytes s)) }
{
    match whole(x) {
        Some(n) => n.to_string(heap),
        None => String::from_str(heap, Buffer::new().format(x)),
    }
}

/// The floats with a blank between.
// No `table_text`: it prints what has one text alone, and of what `ryu` writes it is said only that it reads back.
pub fn floats_text(heap: Global, floats: &[f64]) -> Result<String, AllocError>
    ensures { IfOk result (λ s. AreSpacedTextsOf floats.now (string_bytes s)) }
{
    let [first, rest @ ..] = floats else {
        return Ok(String::new(heap));
    };
    let mut text = float_text(heap, *first)?;
    for x in rest {
        text.push_str(" ")?;
        text.push_str(&float_text(heap, *x)?)?;
    }
    Ok(text)
}
