//! Exact counts in 64-bit floats, for sheets that divide one float by another.
#![tactic(auto)]

ghost use Rattle.std.specs.Prelude.{◌≡◌, ℕ, ◌^◌, ◌<◌, List, Some, None, Ok, Err, IfOk, MatchResult, if◌then◌else◌, nat_lt};
ghost use Rattle.std.specs.Float.{Float};
ghost use Rattle.counts.specs.Answer.{Admitted, Exact, above, answer, most, number, place};
ghost use Rattle.counts.specs.Floats.{float, floats};
ghost use Rattle.algebra.proofs.Composition.{compose};

/// 2^53: up to here every whole number is a 64-bit float, and the next one is not.
const MOST: u64 = 1 << 53;

/// The largest d.
const LARGEST_WHOLE: u32 = 1_000_000_000;

/// The most lives, and the largest k.
const LIMIT: usize = 64;

/// Why a count is refused.
#[derive(Clone, Copy, PartialEq, Eq, Debug)]
pub enum Refusal {
    /// There are more than 64 lives.
    TooManyLives,
    /// d is not 1 to 1,000,000,000.
    WholeOutside,
    /// The life at `place` is the first above d.
    LifeAboveWhole { place: usize },
    /// d to the power n is above 2^53.
    PowerTooLarge,
    /// k is above 64.
    CountAboveLimit,
    /// The work table has too few entries for the row.
    ShortTable,
}

impl Refusal {
    /// The refusal's number.
    // No `From`: the name says which number it is.
    pub fn number(self) -> u32
        ensures { result ≡ number self }
    {
        match self {
            Refusal::TooManyLives => 8,
            Refusal::WholeOutside => 21,
            Refusal::LifeAboveWhole { place: _ } => 22,
            Refusal::PowerTooLarge => 23,
            Refusal::CountAboveLimit => 5,
            Refusal::ShortTable => 10,
        }
    }

    /// The place that the refusal names.
    pub fn place(self) -> Option<usize>
        ensures { result ≡ place self }
    {
        match self {
            Refusal::LifeAboveWhole { place } => Some(place),
            Refusal::TooManyLives
            | Refusal::WholeOutside
            | Refusal::PowerTooLarge
            | Refusal::CountAboveLimit
            | Refusal::ShortTable => None,
        }
    }
}

/// The chance that exactly k are alive, as a count and what to divide it by.
#[derive(Clone, Copy, PartialEq, Debug)]
pub struct Chance {
    pub count: f64,
    pub denominator: f64,
}

/// The place of the first life above d.
fn first_above(lives: &[u32], whole: u32) -> Option<usize>
    ensures { result ≡ above whole lives.now }
{
    lives.iter().position(|p| *p > whole)
}

/// Refuses lives and a whole that are outside the limits.
fn admit(lives: &[u32], whole: u32) -> Result<(), Refusal>
    ensures { MatchResult result
        (λ _. Admitted lives.now whole)
        (λ e. (k : ℕ) (work : List Float) → answer lives.now whole k work ≡ Err e) }
{
    if lives.len() > LIMIT {
        return Err(Refusal::TooManyLives);
    }
    if whole == 0 || whole > LARGEST_WHOLE {
        return Err(Refusal::WholeOutside);
    }
    match first_above(lives, whole) {
        Some(place) => Err(Refusal::LifeAboveWhole { place }),
        None => Ok(()),
    }
}

/// d to the power n; none where it is above 2^53.
fn power(whole: u32, n: usize) -> Option<f64>
    requires { 0 < whole }
    ensures { result ≡ (if nat_lt most (whole ^ n) then None else Some (float (whole ^ n))) }
{
    let factor = f64::from(whole);
    // The largest product that d may still multiply: one above 2^53 could be rounded, so none is worked.
    let largest = (MOST / u64::from(whole)) as f64;
    let mut product = 1.0;
    for _ in 0..n {
        if product > largest {
            return None;
        }
        product *= factor;
    }
    Some(product)
}

/// One life more in a row whose last entry is new and zero, in place: each entry becomes
/// alive · the old one below it + dead · itself.
fn compose(row: &mut [f64], alive: f64, dead: f64)
    ensures { row.new ≡ compose floats (record { alive = alive; dead = dead }) floats.zero row.old }
{
    let mut below = 0.0;
    for entry in row.iter_mut() {
        let here = *entry;
        *entry = alive * below + dead * here;
        below = here;
    }
}

/// The count for exactly `k` of the lives alive, and what to divide it by: the sum, over all survival patterns with k
/// alive, of the products of p over the alive and d − p over the dead; and d to the power n. A life p stands for the
/// chance p / d of being alive, d is `whole`, and n is how many lives there are. For k above n the count is zero.
///
/// Both are exact, and so is the row, exactly 0 to exactly n alive, that the first n + 1 entries of the work table hold
/// afterwards; its other entries stay. The row is worked in floats, one life after the other, by
/// new(r) = p · old(r − 1) + (d − p) · old(r): the convolution with the life's own row (Feller, "An Introduction to
/// Probability Theory and Its Applications", volume 1, chapter XI). All patterns of i lives together are worth d^i, so
/// that what is worked for n lives is at most d^n, which is at most 2^53.
///
/// Refused, in this order: over 64 lives (8), d not 1 to 1,000,000,000 (21), a life above d (22, with the lowest place),
/// d^n above 2^53 (23), k above 64 (5), a work table with under n + 1 entries (10). The work table is then as it was.
pub fn count_exactly(lives: &[u32], whole: u32, k: u32, work: &mut [f64]) -> Result<Chance, Refusal>
    ensures answered { MatchResult result
        (λ c. answer lives.now whole k work.old ≡ Ok (c, work.new))
        (λ e. (answer lives.now whole k work.old ≡ Err e) × (work.new ≡ work.old)) }
    ensures exact { IfOk result (λ c. Exact lives.now whole k c work.new) }
{
    admit(lives, whole)?;
    let n = lives.len();
    let denominator = power(whole, n).ok_or(Refusal::PowerTooLarge)?;
    if k as usize > LIMIT {
        return Err(Refusal::CountAboveLimit);
    }
    if work.len() <= n {
        return Err(Refusal::ShortTable);
    }
    work[0] = 1.0;
    for (i, p) in lives.iter().enumerate() {
        work[i + 1] = 0.0;
        compose(&mut work[..=i + 1], f64::from(*p), f64::from(whole - *p));
    }
    // No pattern has more alive than there are lives.
    let count = work[..=n].get(k as usize).copied().unwrap_or(0.0);
    Ok(Chance { count, denominator })
}
