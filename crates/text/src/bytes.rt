//! Bytes, hex and records as text.
ghost use Rattle.std.specs.Prelude.{◌≡◌, ◌<◌, map, Some, IfSome, IfOk, vec_items, string_bytes};
ghost use Rattle.std.specs.Option.{option_map};
ghost use Rattle.text.specs.Text.{blank, echoed, echoed_words, hex_digit, hex_bytes, hex_text, fields_text};

use reply::Fields;
use std::alloc::{AllocError, Global};
use std::fmt;

pub fn is_blank(b: u8) -> bool
    ensures { result ≡ blank b }
{
    matches!(b, b' ' | b'\t' | b'\r')
}

fn echo(b: u8) -> u8
    ensures { result ≡ echoed b }
{
    if b.is_ascii_graphic() { b } else { b'?' }
}

/// Words as they are echoed, with a blank behind each.
pub fn echo_words(heap: Global, words: &[&[u8]]) -> Result<Vec<u8>, AllocError>
    ensures { IfOk result (λ text. text.items ≡ echoed_words (map (λ word. word.now) words.now)) }
{
    let mut echoed = Vec::new(heap);
    for word in words {
        echoed.extend(word.iter().map(|b| echo(*b)))?;
        echoed.push(b' ')?;
    }
    Ok(echoed)
}

pub fn hex_digit(c: u8) -> Option<u8>
    ensures value { result ≡ hex_digit c }
    ensures small { IfSome result (λ d. d < 16) }
{
    (c as char).to_digit(16).map(|digit| digit as u8)
}

/// The bytes that a word of hex digits writes.
pub fn hex_bytes(heap: Global, word: &[u8]) -> Result<Option<Vec<u8>>, AllocError>
    ensures { IfOk result (λ o. option_map vec_items o ≡ hex_bytes word.now) }
{
    let (pairs, []) = word.as_chunks::<2>() else {
        return Ok(None);
    };
    let mut bytes = Vec::new(heap);
    for [high, low] in pairs {
        let (Some(high), Some(low)) = (hex_digit(*high), hex_digit(*low)) else {
            return Ok(None);
        };
        bytes.push(high * 16 + low)?;
    }
    Ok(Some(bytes))
}

/// Bytes as hex digits, two for each, in lower case.
#[derive(Drop)]
pub struct Hex<'a>(pub &'a [u8]);

impl fmt::Display for Hex<'_> {
    ghost output = { λ h. Some (hex_text h.0.now) };

    fn fmt<W: fmt::Write>(&self, f: &mut fmt::Formatter<W>) -> fmt::Result {
        for &b in self.0 {
            write!(f, "{b:02x}")?;
        }
        Ok(())
    }
}

// No `Display`: the words are the program's, and `Fields` is a library's.
pub fn fields_text(heap: Global, f: &Fields) -> Result<String, AllocError>
    ensures { IfOk result (λ s. string_bytes s ≡ fields_text f.now) }
{
    let Fields {
        kind,
        question,
        refusal,
        k,
        lives,
        figure,
    } = *f;
    format!(in heap;
        "kind {kind} question {question} refusal {refusal} k {k} lives {lives} figure {figure}"
    )
}
