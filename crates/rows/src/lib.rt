//! The row of two households, from the row of each.
#![tactic(auto)]

ghost use Rattle.std.specs.Prelude.{◌≡◌, ℕ, ◌+◌, ◌<◌, ◌++◌, List, map, length, drop, Ok, Err, IfOk, MatchResult, slice_index_or};
ghost use Rattle.algebra.specs.Ring.{semi};
ghost use Rattle.algebra.specs.Patterns.{Life};
ghost use Rattle.algebra.specs.Rows.{row};
ghost use Rattle.rows.specs.Answer.{answer, number, together};

use figures::Ring;

/// The most lives that two households hold together.
const MOST: usize = 64;

/// Why a row is refused.
#[derive(Clone, Copy, PartialEq, Eq, Debug)]
pub enum Refusal {
    /// A row has no entry.
    EmptyRow = 19,
    /// The two households hold over 64 lives together.
    TooManyTogether = 20,
    /// The output has too few entries for the row.
    ShortTable = 6,
}

impl Refusal {
    /// The refusal's number.
    // No `From`: the name says which number it is.
    pub fn number(self) -> u32
        ensures { result ≡ number self }
    {
        self as u32
    }
}

/// How many lives a row is for: one less than it has entries.
fn lives_of<P: Copy>(row: &[P]) -> Result<usize, Refusal>
    ensures { MatchResult result (λ n. length row.now ≡ n + 1) (λ e. (e ≡ Refusal.EmptyRow) × (length row.now ≡ 0)) }
{
    row.len().checked_sub(1).ok_or(Refusal::EmptyRow)
}

/// Adds to each entry of a row a factor times that of another, as long.
fn add_products<F: Ring>(row: &mut [F::Plain], factor: F, other: &[F::Plain])
    requires { length other.now ≡ length row.old }
    ensures { (j : ℕ) (e : F.Plain) → j < length row.old → slice_index_or row.new j e ≡ F.Ring.plain (F.Ring.ops.plus (F.Ring.figure (slice_index_or row.old j e)) (F.Ring.ops.times factor (F.Ring.figure (slice_index_or other.now j e)))) }
{
    // By index: a proof knows nothing of what is written through a zip.
    for (j, entry) in row.iter_mut().enumerate() {
        let here = F::from_plain(*entry);
        let there = F::from_plain(other[j]);
        // The entry so far as a product, since a kind may add two of them in one step.
        *entry = F::sum_of_products(here, F::one(), factor, there).to_plain();
    }
}

/// Fills a row with the convolution of two rows.
fn convolve<F: Ring>(first: &[F::Plain], second: &[F::Plain], row: &mut [F::Plain])
    requires { length row.old + 1 ≡ length first.now + length second.now }
    ensures { row.new ≡ together (semi F.Ring.ops) F.Ring.figure F.Ring.plain first.now second.now (length row.old) }
{
    let zero = F::zero().to_plain();
    // Not `fill`: it asks for a clone that cannot fail, which `Plain` does not promise.
    row.fill_with(|| zero);
    for (i, entry) in first.iter().enumerate() {
        let factor = F::from_plain(*entry);
        add_products::<F>(&mut row[i..i + second.len()], factor, second);
    }
}

/// The row of two households that were entered apart, from the row of each: exactly 0 to exactly n alive of all their
/// n lives. A row has one entry more than its household has lives. Entry k of the row of both is the sum, over i from 0
/// to k, of entry i of the first times entry k − i of the second, an entry past a row's end being zero: their
/// convolution, as of the distributions of two independent counts (Feller, "An Introduction to Probability Theory and
/// Its Applications", volume 1, chapter XI). It fills the front of the output, and the entries after it stay.
///
/// Refused, in this order: an empty row (19), over 64 lives together (20), an output with under n + 1 entries (6).
/// The output is then as it was.
pub fn households_row<F: Ring>(
    first: &[F::Plain],
    second: &[F::Plain],
    output: &mut [F::Plain],
) -> Result<(), Refusal>
    ensures answered { MatchResult result
        (λ _. answer (semi F.Ring.ops) F.Ring.figure F.Ring.plain first.now second.now output.old ≡ Ok output.new)
        (λ e. (answer (semi F.Ring.ops) F.Ring.figure F.Ring.plain first.now second.now output.old ≡ Err e) × (output.new ≡ output.old)) }
    ensures households { (ls ms : List (Life F))
        → map F.Ring.figure first.now ≡ row (semi F.Ring.ops) (length ls + 1) ls
        → map F.Ring.figure second.now ≡ row (semi F.Ring.ops) (length ms + 1) ms
        → IfOk result (λ _. output.new ≡ map F.Ring.plain (row (semi F.Ring.ops) (length ls + length ms + 1) (ls ++ ms)) ++ drop (length ls + length ms + 1) output.old) }
{
    // Rows may be so long that the sum of their lengths fits no number.
    let lives = lives_of(first)?.saturating_add(lives_of(second)?);
    if lives > MOST {
        return Err(Refusal::TooManyTogether);
    }
    if output.len() <= lives {
        return Err(Refusal::ShortTable);
    }
    convolve::<F>(first, second, &mut output[..=lives]);
    Ok(())
}
