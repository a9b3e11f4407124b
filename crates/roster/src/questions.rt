//! Questions for one figure: exactly k, and at least k, alive.
ghost use Rattle.std.specs.Prelude.{◌≡◌, ◌+◌, ◌<◌, ◌≤◌, length, MatchResult};
ghost use Rattle.algebra.specs.Waring.{signed};
ghost use Rattle.algebra.proofs.Waring.{entry, horner, summand};
ghost use Rattle.roster.specs.Cells.{OfLedger, Met};
ghost use Rattle.roster.specs.Ledger.{Exactly, AtLeast, figures};
ghost use Rattle.roster.specs.Refusals.{figure_or};

use crate::cells::Cell;
use crate::coefficients::coefficients;
use crate::refusals::Refusal;
use crate::rosters::Roster;
use figures::Ring;

/// The largest count that may be asked for.
const LARGEST: u32 = 64;

/// A count that may be asked for, as a place among the cells.
fn admitted(k: u32) -> Result<usize, Refusal>
    ensures { MatchResult result (λ p. (p ≡ k) × (k ≤ 64)) (λ e. (e ≡ Refusal.LargeCount) × (64 < k)) }
{
    if k > LARGEST {
        return Err(Refusal::LargeCount);
    }
    Ok(k as usize)
}

/// (−1)^t · x.
fn signed<F: Ring>(t: usize, x: F) -> F
    ensures { result ≡ signed F.Ring.ops t x }
{
    if t % 2 == 0 { x } else { x.neg() }
}

/// The sum over t from 0 to m of (−1)^t · ways(j, t) · B(k+t) · d^(m−t), where B are the kept sums.
fn alternating<F: Ring>(cells: &[Cell<F::Plain>], j: usize, k: usize, m: usize) -> F
    requires { (j + m ≤ 65) × (k + m < length cells.now) }
    ensures { OfLedger F.Ring.ops F.Ring.plain cells.now (λ l. result ≡ horner F.Ring.ops l.whole (summand F.Ring.ops (figures l.lives) j k) (m + 1)) }
{
    // By Horner's rule at −d, which makes the signs but for that of the last term.
    let minus = F::from_plain(cells[0].figure).neg();
    let ways = coefficients(j);
    let mut sum = F::zero();
    for (t, cell) in cells[k..=k + m].iter().enumerate() {
        let coefficient = F::one().multiple(ways[t]);
        sum = F::sum_of_products(sum, minus, coefficient, F::from_plain(cell.sum));
    }
    signed(m, sum)
}

impl<F: Ring> Roster<'_, F> {
    /// The alternating sum from place k on to the number of lives; zero where k is more than that.
    /// It is exactly k for j = k + 1, and at least k for j = k.
    fn tail(&self, j: usize, k: usize) -> F
        requires { j ≤ k + 1 }
        ensures { OfLedger F.Ring.ops F.Ring.plain self.now.cells.now (λ l. result ≡ entry F.Ring.ops l.whole (figures l.lives) j k) }
    {
        let n = self.lives();
        if k > n {
            return F::zero();
        }
        // With no cells there is no whole to read; and no life, so that nobody alive is certain.
        if self.cells.is_empty() {
            return F::one();
        }
        alternating(self.cells, j, k, n - k)
    }
}

/// Questions alter no cell.
// Two methods, since each promises the answer to another of the ledger's calls.
impl<F: Ring> Roster<'_, F> {
    /// Exactly k alive.
    pub fn exactly(&self, k: u32) -> Result<F, Refusal>
        ensures { Met F.Ring.ops F.Ring.plain (Exactly k) self.now.cells.now (figure_or result) self.now.cells.now }
    {
        let k = admitted(k)?;
        Ok(self.tail(k + 1, k))
    }

    /// At least k alive.
    pub fn at_least(&self, k: u32) -> Result<F, Refusal>
        ensures { Met F.Ring.ops F.Ring.plain (AtLeast k) self.now.cells.now (figure_or result) self.now.cells.now }
    {
        let k = admitted(k)?;
        Ok(self.tail(k, k))
    }
}
