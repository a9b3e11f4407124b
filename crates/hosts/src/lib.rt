//! The money calls and the exchangeable row as C wants them: one struct says what came of a call. crates/hosts_c exports them.
#![tactic(auto)]

ghost use Rattle.std.specs.Prelude.{◌≡◌, length, replicate, Err, unwrap_or};
ghost use Rattle.exchangeable.specs.Answer.{Answered, Refused as RowRefused};
ghost use Rattle.hosts.specs.Outcomes.{Made, of_factor, of_money_row, of_table_row};
ghost use Rattle.money.specs.Answer.{FactorAnswered, Refused as MoneyRefused, RowAnswered};

use exchangeable::{Refusal as TableRefusal, exchangeable_row};
use money::{Refusal as MoneyRefusal, factor, money_row};

/// What came of a call.
// Numbers, as C wants them.
#[repr(C)]
#[derive(Clone, Copy, PartialEq, Eq, Debug)]
pub struct Outcome {
    /// 0 where the call was answered, else the refusal's number.
    pub refusal: u32,
    /// The place that the refusal names, else 0.
    pub place: u64,
    /// The factor where one was answered, else 0.
    pub factor: u64,
}

impl Outcome {
    /// A call that gives no factor.
    const DONE: Outcome = Outcome {
        refusal: 0,
        place: 0,
        factor: 0,
    };

    /// A call that is refused.
    fn refused(refusal: u32, place: Option<usize>) -> Outcome
        ensures { result ≡ record { refusal = refusal; place = unwrap_or place 0; factor = 0 } }
    {
        Outcome {
            refusal,
            place: place.unwrap_or(0) as u64,
            factor: 0,
        }
    }
}

impl From<MoneyRefusal> for Outcome {
    ghost from_gives = { λ e o. o ≡ of_factor (Err e) };

    fn from(refusal: MoneyRefusal) -> Outcome {
        Outcome::refused(refusal.number(), refusal.place())
    }
}

impl From<TableRefusal> for Outcome {
    ghost from_gives = { λ e o. o ≡ of_table_row (Err e) };

    fn from(refusal: TableRefusal) -> Outcome {
        Outcome::refused(refusal.number(), refusal.place())
    }
}

/// The money row of the lives, written into `row`.
pub fn survivorship_money_row(lives: &[u32], row: &mut [u64]) -> Outcome
    ensures { Made of_money_row
        (λ _. RowAnswered lives.now row.old row.new)
        (λ e. MoneyRefused lives.now 0 (length row.old) e × (row.new ≡ row.old)) result }
{
    match money_row(lives, row) {
        Ok(()) => Outcome::DONE,
        Err(refusal) => refusal.into(),
    }
}

/// The factor of the lives for `k`, worked in `work`, which is all zeros afterwards.
pub fn survivorship_factor(lives: &[u32], k: u32, work: &mut [u64]) -> Outcome
    ensures answer { Made of_factor
        (FactorAnswered lives.now k (length work.old))
        (MoneyRefused lives.now k (length work.old)) result }
    ensures wiped { work.new ≡ replicate (length work.old) 0 }
{
    match factor(lives, k, work) {
        Ok(factor) => Outcome {
            factor,
            ..Outcome::DONE
        },
        Err(refusal) => refusal.into(),
    }
}

/// The row for m of a table of exchangeable events, written into `out`.
pub fn survivorship_exchangeable_row(table: &[u32], m: u32, out: &mut [u64]) -> Outcome
    ensures { Made of_table_row
        (λ _. Answered table.now m out.old out.new)
        (λ e. RowRefused table.now m out.old e × (out.new ≡ out.old)) result }
{
    match exchangeable_row(table, m, out) {
        Ok(()) => Outcome::DONE,
        Err(refusal) => refusal.into(),
    }
}
