//! Lines and words of the input.
ghost use Rattle.std.specs.Prelude.{◌≡◌, ◌<◌, ◌≤◌, [], ◌∷◌, map, length, IfOk, IfSome, IfNone, OnSome, MatchOption};
ghost use Rattle.std.specs.Option.{option_map};
ghost use Rattle.text.specs.Reading.{left};
ghost use Rattle.text.specs.Text.{words_of, is_slash, around_slash, newline_at, first_line, other_lines, is_command, commands};

use crate::bytes::is_blank;
use std::alloc::{AllocError, Global};

/// The words of a line: what stands between blanks.
fn words<'a>(heap: Global, line: &'a [u8]) -> Result<Vec<&'a [u8]>, AllocError>
    ensures { IfOk result (λ words. map (λ word. word.now) words.items ≡ words_of line.now) }
{
    line.split(|b| is_blank(*b))
        .filter(|word| !word.is_empty())
        .collect(heap)
}

/// The lines that are still to be read.
#[derive(Drop)]
pub struct Lines<'a> {
    heap: Global,
    rest: &'a [u8],
}

impl<'a> Lines<'a> {
    pub fn new(heap: Global, input: &'a [u8]) -> Lines<'a>
        ensures { result.rest.now ≡ input.now }
    {
        Lines { heap, rest: input }
    }

    /// The next line, up to a newline or to the end of the input.
    fn next_line(&mut self) -> Option<&'a [u8]>
        ensures onward { left self.new ≤ left self.old }
        ensures read { OnSome result (left self.new < left self.old) }
        ensures line { IfSome result (λ l. l.now ≡ first_line self.old.rest.now) }
        ensures rest { self.new.rest.now ≡ other_lines self.old.rest.now }
        ensures end { IfNone result (self.old.rest.now ≡ []) }
    {
        if self.rest.is_empty() {
            return None;
        }
        let text = self.rest;
        let Some(end) = newline(text) else {
            self.rest = &text[text.len()..];
            return Some(text);
        };
        self.rest = &text[end + 1..];
        Some(&text[..end])
    }

    /// The words of the next line that has any and is no comment.
    pub fn next_command(&mut self) -> Result<Option<Vec<&'a [u8]>>, AllocError>
        ensures onward { left self.new ≤ left self.old }
        ensures read { IfOk result (λ o. OnSome o (left self.new < left self.old)) }
        ensures command { IfOk result (λ o. MatchOption o (commands self.old.rest.now ≡ []) (λ words. commands self.old.rest.now ≡ map (λ word. word.now) words.items ∷ commands self.new.rest.now)) }
        ensures end { IfOk result (λ o. IfNone o (self.new.rest.now ≡ [])) }
    {
        while let Some(line) = self.next_line() {
            let words = words(self.heap, line)?;
            if is_command(&words) {
                return Ok(Some(words));
            }
        }
        Ok(None)
    }
}

fn is_command(words: &[&[u8]]) -> bool
    ensures { result ≡ is_command (map (λ word. word.now) words.now) }
{
    !matches!(words, [] | [[b'#', ..], ..])
}

fn newline(text: &[u8]) -> Option<usize>
    ensures value { result ≡ newline_at text.now }
    ensures within { IfSome result (λ i. i < length text.now) }
{
    text.iter().position(|b| *b == b'\n')
}

fn is_slash(word: &[u8]) -> bool
    ensures { result ≡ is_slash word.now }
{
    matches!(word, [b'/'])
}

/// The words before the only slash, and those behind it; none where there is no slash, or more than one.
pub fn around_slash<'a, 'b>(words: &'a [&'b [u8]]) -> Option<(&'a [&'b [u8]], &'a [&'b [u8]])>
    ensures { option_map (λ parts. (map (λ word. word.now) parts.0.now, map (λ word. word.now) parts.1.now)) result ≡ around_slash (map (λ word. word.now) words.now) }
{
    let mut parts = words.split(|word| is_slash(word));
    match (parts.next(), parts.next(), parts.next()) {
        (Some(first), Some(second), None) => Some((first, second)),
        _ => None,
    }
}
