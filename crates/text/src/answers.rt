//! The texts of what is granted, and of what came of a roster's call.
ghost use Rattle.std.specs.Prelude.{◌≡◌, map, replicate, None, Err, IfOk, IfErr, MatchResult, string_bytes, codes};
ghost use Rattle.roster.specs.Refusals.{refusal_number};
ghost use Rattle.text.specs.Text.{spaced, answer_text};
ghost use Rattle.text.specs.declared.unanswered.Unanswered.TheVariants.{NoMemory, Refused};

use crate::typed::Typed;
use crate::unanswered::Unanswered;
use figures::Ring;
use roster::{Answer, Outcome};
use std::alloc::{AllocError, Global};

pub fn done(heap: Global) -> Result<String, AllocError>
    ensures { IfOk result (λ s. string_bytes s ≡ codes "done") }
{
    String::from_str(heap, "done")
}

/// The entries with a blank between.
// No `join`: it wants all the texts in memory first.
pub fn table_text<P: Typed>(heap: Global, table: &[P]) -> Result<String, AllocError>
    ensures { IfOk result (λ s. string_bytes s ≡ spaced (map P.Typed.text table.now)) }
{
    let [first, rest @ ..] = table else {
        return Ok(String::new(heap));
    };
    let mut text = first.show(heap)?;
    for entry in rest {
        text.push_str(" ")?;
        text.push_str(&entry.show(heap)?)?;
    }
    Ok(text)
}

/// A table of so many entries, all alike.
pub fn filled<P: Copy>(heap: Global, value: P, count: usize) -> Result<Vec<P>, AllocError>
    ensures { IfOk result (λ t. t.items ≡ replicate count value) }
{
    // Not `vec!`: it clones, and a proof does not know what a `Copy` type's clone is.
    let mut table = Vec::new(heap);
    table.resize_with(count, || value)?;
    Ok(table)
}

/// What came of a call of a roster.
pub fn outcome_text<F: Ring>(
    heap: Global,
    outcome: Outcome<F, F::Plain>,
) -> Result<String, Unanswered>
where
    F::Plain: Typed,
    ensures granted { IfOk outcome (λ answer. MatchResult result (λ s. string_bytes s ≡ answer_text F.Ring.plain F.Plain.text answer) (λ u. u ≡ NoMemory)) }
    ensures refused { IfErr outcome (λ r. result ≡ Err (Refused (record { number = refusal_number r.refusal; place = None }))) }
{
    let text = match outcome? {
        Answer::Done => done(heap),
        Answer::Figure(figure) => figure.to_plain().show(heap),
        Answer::Table(table) => table_text(heap, &table),
    };
    Ok(text?)
}
