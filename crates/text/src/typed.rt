//! Figures in their plain form, as they are typed and printed.
ghost use Rattle.std.specs.Prelude.{◌≡◌, ℕ, ◌<◌, List, length, map, Any, IfSome, IfOk, IfErr, Err, Some, None, string_bytes, decimal, Option};
ghost use Rattle.text.specs.Text.{colon_at, number_within, slope, slope_text};
ghost use Rattle.text.specs.Understood.{FailsOnlyWhere};
ghost use Rattle.text.specs.declared.unanswered.Unanswered.TheVariants.{NotUnderstood};

use crate::numbers::{number, short_number};
use crate::unanswered::Unanswered;
use figures::Dual;
use std::alloc::{AllocError, Global};

// `show`, and no `Display`: how figures are printed is the program's, and a slope's type is a library's.
pub trait Typed: Copy {
    // The figure that a word writes, and the text that is printed for one.
    ghost reads: { List ℕ → Option Self };

    ghost text: { Self → List ℕ };

    fn read(word: &[u8]) -> Option<Self>
        ensures { result ≡ reads word.now };

    fn show(&self, heap: Global) -> Result<String, AllocError>
        ensures { IfOk result (λ s. string_bytes s ≡ text self.now) };
}

// An impl for each type: the gate refuses those that a macro of the repository writes.
/// A word, or scenarios.
impl Typed for u64 {
    ghost reads = { number_within 18446744073709551615 };

    ghost text = { decimal };

    fn read(word: &[u8]) -> Option<u64> {
        number(word, u64::MAX)
    }

    fn show(&self, heap: Global) -> Result<String, AllocError> {
        self.to_string(heap)
    }
}

/// A check figure.
impl Typed for u32 {
    ghost reads = { number_within 4294967295 };

    ghost text = { decimal };

    fn read(word: &[u8]) -> Option<u32> {
        short_number(word)
    }

    fn show(&self, heap: Global) -> Result<String, AllocError> {
        self.to_string(heap)
    }
}

/// A slope: two figures with a colon between.
impl<P: Typed> Typed for Dual<P> {
    ghost reads = { slope P.Typed.reads };

    ghost text = { slope_text P.Typed.text };

    fn read(word: &[u8]) -> Option<Dual<P>> {
        let colon = first_colon(word)?;
        let value = P::read(&word[..colon])?;
        let rate = P::read(&word[colon + 1..])?;
        Some(Dual { value, rate })
    }

    fn show(&self, heap: Global) -> Result<String, AllocError> {
        let value = self.value.show(heap)?;
        let rate = self.rate.show(heap)?;
        format!(in heap; "{value}:{rate}")
    }
}

fn first_colon(word: &[u8]) -> Option<usize>
    ensures value { result ≡ colon_at word.now }
    ensures within { IfSome result (λ i. i < length word.now) }
{
    word.iter().position(|b| *b == b':')
}

/// The list that words write, each as its type is typed.
pub fn typed_list<P: Typed>(heap: Global, words: &[&[u8]]) -> Result<Vec<P>, Unanswered>
    ensures read { IfOk result (λ v. map Some v.items ≡ map (λ word. P.Typed.reads word.now) words.now) }
    ensures wrong { Any (λ word. P.Typed.reads word.now ≡ None) words.now → result ≡ Err NotUnderstood }
    ensures unread { IfErr result (FailsOnlyWhere (Any (λ word. P.Typed.reads word.now ≡ None) words.now)) }
{
    // A wrong word is told whether or not there is memory for the others.
    if words.iter().any(|word| P::read(word).is_none()) {
        return Err(Unanswered::NotUnderstood);
    }
    let mut list = Vec::new(heap);
    for word in words {
        list.push(P::read(word).ok_or(Unanswered::NotUnderstood)?)?;
    }
    Ok(list)
}
