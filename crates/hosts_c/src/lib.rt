//! The calls of crates/hosts as C functions: a slice is a pointer and then a length. Each states the clauses of the call that it makes.
// Twins of those calls, since a static library exports only what it defines itself.
#![tactic(auto)]

ghost use Rattle.std.specs.Prelude.{◌≡◌, length, replicate};
ghost use Rattle.exchangeable.specs.Answer.{Answered, Refused as RowRefused};
ghost use Rattle.hosts.specs.Outcomes.{Made, of_factor, of_money_row, of_table_row};
ghost use Rattle.money.specs.Answer.{FactorAnswered, Refused as MoneyRefused, RowAnswered};

use hosts::Outcome;

/// The money row of the lives, written into `row`.
#[unsafe(no_mangle)]
pub extern "C" fn survivorship_money_row(lives: &[u32], row: &mut [u64]) -> Outcome
    ensures { Made of_money_row
        (λ _. RowAnswered lives.now row.old row.new)
        (λ e. MoneyRefused lives.now 0 (length row.old) e × (row.new ≡ row.old)) result }
{
    hosts::survivorship_money_row(lives, row)
}

/// The factor of the lives for `k`, worked in `work`, which is all zeros afterwards.
#[unsafe(no_mangle)]
pub extern "C" fn survivorship_factor(lives: &[u32], k: u32, work: &mut [u64]) -> Outcome
    ensures answer { Made of_factor
        (FactorAnswered lives.now k (length work.old))
        (MoneyRefused lives.now k (length work.old)) result }
    ensures wiped { work.new ≡ replicate (length work.old) 0 }
{
    hosts::survivorship_factor(lives, k, work)
}

/// The row for m of a table of exchangeable events, written into `out`.
#[unsafe(no_mangle)]
pub extern "C" fn survivorship_exchangeable_row(table: &[u32], m: u32, out: &mut [u64]) -> Outcome
    ensures { Made of_table_row
        (λ _. Answered table.now m out.old out.new)
        (λ e. RowRefused table.now m out.old e × (out.new ≡ out.old)) result }
{
    hosts::survivorship_exchangeable_row(table, m, out)
}
