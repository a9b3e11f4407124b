//! The money row, and the factor taken from it.
#![tactic(auto)]

ghost use Rattle.std.specs.Prelude.{◌≡◌, ℕ, ◌≤◌, length, replicate, MatchResult, slice_index};
ghost use Rattle.money.specs.Answer.{Admitted, FactorAnswered, Refused, RowAnswered, number, place};
ghost use Rattle.money.specs.Money.{pass, whole};

/// D, which stands for a chance of one.
const WHOLE: u64 = 1_000_000_000;

/// The most lives, and the largest count asked for.
const LIMIT: usize = 64;

/// Why a call is refused.
#[derive(Clone, Copy, PartialEq, Eq, Debug)]
pub enum Refusal {
    /// There are more than 64 lives.
    TooManyLives,
    /// The life at `place` is the first above D.
    LifeAboveOne { place: usize },
    /// The count asked for is above 64.
    CountAboveLimit,
    /// The table has too few entries for the row.
    ShortTable,
}

impl Refusal {
    /// The refusal's number.
    // No `From`: the name says which number it is.
    pub fn number(self) -> u32
        ensures { result ≡ number self }
    {
        match self {
            Refusal::TooManyLives => 8,
            Refusal::LifeAboveOne { place: _ } => 9,
            Refusal::CountAboveLimit => 5,
            Refusal::ShortTable => 10,
        }
    }

    /// The place that the refusal names.
    pub fn place(self) -> Option<usize>
        ensures { result ≡ place self }
    {
        match self {
            Refusal::LifeAboveOne { place } => Some(place),
            Refusal::TooManyLives | Refusal::CountAboveLimit | Refusal::ShortTable => None,
        }
    }
}

/// Refuses a list that is outside the limits.
fn admit(lives: &[u32]) -> Result<(), Refusal>
    ensures { MatchResult result
        (λ _. Admitted lives.now)
        (λ e. (k size : ℕ) → Refused lives.now k size e) }
{
    if lives.len() > LIMIT {
        return Err(Refusal::TooManyLives);
    }
    match lives.iter().position(|p| *p as u64 > WHOLE) {
        Some(place) => Err(Refusal::LifeAboveOne { place }),
        None => Ok(()),
    }
}

/// Takes one life into a row, whose last entry is new and 0.
#[tactic(auto, using(crate::proofs::Passes::turns))]
fn add_life(p: u64, row: &mut [u64])
    requires { (p ≤ whole) × (((k : ℕ) → slice_index row.old k ≤ whole)) }
    ensures { row.new ≡ pass p 0 0 row.old }
{
    let dead = WHOLE - p;
    let mut below = 0;
    let mut carry = 0;
    for cell in row.iter_mut() {
        let old = *cell;
        let t = p * below + dead * old + carry;
        *cell = t / WHOLE;
        carry = t % WHOLE;
        below = old;
    }
}

/// The money row of the lives: entry k is, over D, the chance that exactly k of them are alive, rounded so that the
/// row adds up to D.
pub fn money_row(lives: &[u32], row: &mut [u64]) -> Result<(), Refusal>
    ensures { MatchResult result
        (λ _. RowAnswered lives.now row.old row.new)
        (λ e. Refused lives.now 0 (length row.old) e × (row.new ≡ row.old)) }
{
    admit(lives)?;
    if row.len() <= lives.len() {
        return Err(Refusal::ShortTable);
    }
    row[0] = WHOLE;
    for (i, p) in lives.iter().enumerate() {
        row[i + 1] = 0;
        add_life(*p as u64, &mut row[..i + 2]);
    }
    Ok(())
}

/// Wipes the table that it holds when it is let go, whichever way that comes.
struct Wipe<'a>(&'a mut [u64]);

impl Drop for Wipe<'_> {
    fn drop(self)
        ensures { self.exit.0.now ≡ replicate (length self.entry.0.now) 0 }
    {
        self.0.fill(0);
        let Wipe(_) = self;
    }
}

/// The factor: over D, the chance that at least `k` of the lives are alive, as the money row has it. The table is
/// worked in, and is all zeros afterwards.
pub fn factor(lives: &[u32], k: u32, work: &mut [u64]) -> Result<u64, Refusal>
    ensures answer { MatchResult result
        (FactorAnswered lives.now k (length work.old))
        (Refused lives.now k (length work.old)) }
    ensures wiped { work.new ≡ replicate (length work.old) 0 }
{
    let guard = Wipe(work);
    admit(lives)?;
    if k as usize > LIMIT {
        return Err(Refusal::CountAboveLimit);
    }
    money_row(lives, guard.0)?;
    Ok(guard.0[..lives.len() + 1].iter().skip(k as usize).sum())
}
