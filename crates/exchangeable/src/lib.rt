//! Rows of exchangeable events, from a table of the weights that chosen events all occur.
#![tactic(auto)]

ghost use Rattle.std.specs.Prelude.{◌≡◌, ℕ, ◌+◌, ◌-◌, ◌^◌, ◌<◌, ◌≤◌, List, ◌∷◌, map, length, take, pos, ◌*ℤ◌, ◌≤ℤ◌, Ok, Err, MatchResult, slice_index, slice_index_or};
ghost use Rattle.algebra.specs.Binomial.{choose};
ghost use Rattle.exchangeable.specs.Answer.{Admitted, Answered, Refused, answer, number, place};
ghost use Rattle.exchangeable.specs.Events.{value, top};

/// The most coefficients that a table has.
const LENGTH: usize = 33;

/// The largest coefficient.
const LIMIT: u32 = 1 << 30;

/// Why a row is refused.
#[derive(Clone, Copy, PartialEq, Eq, Debug)]
pub enum Refusal {
    /// The table is empty, or has more than 33 coefficients.
    TableLength,
    /// The coefficient at `place` is above 2^30, or is the first and 0.
    Coefficient { place: usize },
    /// The row is past the table's last.
    RowAboveTable,
    /// The output has too few entries for the row.
    ShortOutput,
    /// No exchangeable events have the table: `place` is the first whose weight is negative.
    Impossible { place: usize },
}

impl Refusal {
    /// The refusal's number.
    // No `From`: the name says which number it is.
    pub fn number(self) -> u32
        ensures { result ≡ number self }
    {
        match self {
            Refusal::TableLength => 11,
            Refusal::Coefficient { place: _ } => 12,
            Refusal::RowAboveTable => 13,
            Refusal::ShortOutput => 14,
            Refusal::Impossible { place: _ } => 15,
        }
    }

    /// The place that the refusal names.
    pub fn place(self) -> Option<usize>
        ensures { result ≡ place self }
    {
        match self {
            Refusal::Coefficient { place } | Refusal::Impossible { place } => Some(place),
            Refusal::TableLength | Refusal::RowAboveTable | Refusal::ShortOutput => None,
        }
    }
}

/// A table within the limits.
#[derive(Drop)]
struct Table<'a> {
    coefficients: &'a [u32],
    ghost admitted: { Admitted coefficients.now },
}

impl<'a> Table<'a> {
    /// Refuses coefficients that are outside the limits.
    fn admit(coefficients: &'a [u32]) -> Result<Table<'a>, Refusal>
        ensures { MatchResult result
            (λ t. t.coefficients.now ≡ coefficients.now)
            (λ e. (m : ℕ) (out : List ℕ) → Refused coefficients.now m out e) }
    {
        if coefficients.is_empty() || coefficients.len() > LENGTH {
            return Err(Refusal::TableLength);
        }
        if coefficients[0] == 0 {
            return Err(Refusal::Coefficient { place: 0 });
        }
        match coefficients.iter().position(|u| *u > LIMIT) {
            Some(place) => Err(Refusal::Coefficient { place }),
            None => Ok(Table { coefficients }),
        }
    }

    /// The number of events.
    fn top(&self) -> usize
        ensures { result ≡ top self.now.coefficients.now }
    {
        self.coefficients.len() - 1
    }

    /// From V(k, m − 1) for each k below m to V(k, m) for each k up to m, in place.
    fn extend(&self, values: &mut [i64], m: usize)
        requires within { (m ≤ top self.now.coefficients.now) × (m < length values.old) }
        requires before { (k : ℕ) → k < m
            → slice_index_or values.old k (pos 0) ≡ value self.now.coefficients.now k (m - 1) }
        ensures { (k : ℕ) → k < m + 1
            → slice_index_or values.new k (pos 0) ≡ value self.now.coefficients.now k m }
    {
        let mut above = self.coefficients[m] as i64;
        values[m] = above;
        // By index: a proof knows nothing of what is written through a reversed iterator.
        for k in (0..m).rev() {
            above = values[k] - above;
            values[k] = above;
        }
    }

    /// From V(k, from − 1) for each k below `from` to V(k, to − 1) for each k below `to`, in place.
    fn extend_to(&self, values: &mut [i64], from: usize, to: usize)
        requires within { (from ≤ to) × (to ≤ length self.now.coefficients.now) × (to ≤ length values.old) }
        requires before { (k : ℕ) → k < from
            → slice_index_or values.old k (pos 0) ≡ value self.now.coefficients.now k (from - 1) }
        ensures { (k : ℕ) → k < to
            → slice_index_or values.new k (pos 0) ≡ value self.now.coefficients.now k (to - 1) }
    {
        for m in from..to {
            self.extend(values, m);
        }
    }
}

/// From a row of Pascal's triangle to the next, between their ones: each entry takes on the one before it.
fn next_binomials(inner: &mut [u64])
    requires { (k : ℕ) → k < length inner.old → slice_index inner.old k ≤ 2 ^ 31 }
    ensures { (k : ℕ) → k < length inner.old
        → slice_index inner.new k ≡ slice_index (1 ∷ inner.old) k + slice_index inner.old k }
{
    let mut before = 1;
    for entry in inner.iter_mut() {
        let old = *entry;
        *entry = before + old;
        before = old;
    }
}

/// Writes C(m, k) at each place k, for the last place m.
fn binomials(row: &mut [u64])
    requires { (0 < length row.old) × (length row.old ≤ 33) }
    ensures { (k : ℕ) → k < length row.old → slice_index row.new k ≡ choose (length row.old - 1) k }
{
    row[0] = 1;
    for n in 1..row.len() {
        row[n] = 1;
        next_binomials(&mut row[1..n]);
    }
}

/// Multiplies each entry by its value.
fn multiply(row: &mut [u64], values: &[i64])
    requires lengths { length row.old ≤ length values.now }
    requires sizes { (k : ℕ) → k < length row.old → (slice_index row.old k ≤ 2 ^ 31)
        × (pos 0 ≤ℤ slice_index_or values.now k (pos 0)) × (slice_index_or values.now k (pos 0) ≤ℤ pos (2 ^ 30)) }
    ensures { (k : ℕ) → k < length row.old
        → pos (slice_index row.new k) ≡ pos (slice_index row.old k) *ℤ slice_index_or values.now k (pos 0) }
{
    // No zip: a proof knows nothing of what is written through one.
    for (k, entry) in row.iter_mut().enumerate() {
        // Both fit 32 bits, and several such products are one instruction.
        *entry = (*entry as u32) as u64 * (values[k] as u32) as u64;
    }
}

/// The row for m: at place k, over the table's first coefficient, the chance that exactly k of m events occur.
pub fn exchangeable_row(table: &[u32], m: u32, out: &mut [u64]) -> Result<(), Refusal>
    ensures events { MatchResult result
        (λ _. Answered table.now m out.old out.new)
        (λ e. Refused table.now m out.old e × (out.new ≡ out.old)) }
    ensures computed { MatchResult result
        (λ _. answer table.now m (length out.old) ≡ Ok (map pos (take (m + 1) out.new)))
        (λ e. answer table.now m (length out.old) ≡ Err e) }
{
    let table = Table::admit(table)?;
    let top = table.top();
    let m = m as usize;
    if m > top {
        return Err(Refusal::RowAboveTable);
    }
    if m >= out.len() {
        return Err(Refusal::ShortOutput);
    }
    let count = m + 1;
    // An array for the longest table: no heap is used.
    let mut weights = [0; LENGTH];
    // V(0, 0), which costs less here than as a column of its own.
    weights[0] = table.coefficients[0] as i64;
    table.extend_to(&mut weights, 1, count);
    let chosen = weights;
    table.extend_to(&mut weights, count, top + 1);
    if let Some(place) = weights[..top + 1].iter().position(|w| *w < 0) {
        return Err(Refusal::Impossible { place });
    }
    let row = &mut out[..count];
    binomials(row);
    multiply(row, &chosen);
    Ok(())
}
