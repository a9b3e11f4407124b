//! Promises that are no one call's: over runs, what the questions' sums come to, and the rows of two rosters.
ghost use Rattle.std.specs.Prelude.{◌≡◌, ℕ, ◌+◌, ◌≤◌, List, ◌++◌, length, take};
ghost use Rattle.algebra.specs.Patterns.{at_least};
ghost use Rattle.algebra.specs.Ring.{semi};
ghost use Rattle.algebra.specs.Sums.{against, power};
ghost use Rattle.algebra.specs.Waring.{WaringExactly, WaringAtLeast};
ghost use Rattle.rows.specs.Answer.{answer as households};
ghost use Rattle.roster.specs.Ledger.{Ledger, Composed, row_of, answer};
ghost use Rattle.roster.specs.Refusals.{households_or};
ghost use Rattle.roster.specs.Runs.{ChainsFollow};

use figures::Ring;

/// Whatever calls are made, in any order, of a newly opened roster: every answer is the ledger's, and after each call
/// the cells hold what the ledger then says.
pub fn chains_follow_the_ledger<F: Ring>()
    ensures { ChainsFollow F.Ring.ops F.Ring.plain }
{}

/// Waring's two sums, over figures of any kind: exactly k and at least k are alternating sums of the kept sums. At least 0,
/// which the second leaves out, is a power of the whole.
pub fn waring_sums_hold<F: Ring>()
    ensures exactly { (d : F) (ps : List F) (k : ℕ) → k ≤ length ps → WaringExactly F.Ring.ops d ps k }
    ensures at_least { (d : F) (ps : List F) (k : ℕ) → 1 ≤ k → k ≤ length ps → WaringAtLeast F.Ring.ops d ps k }
    ensures at_least_none { (d : F) (ps : List F) → at_least (semi F.Ring.ops) 0 (against F.Ring.ops d ps) ≡ power F.Ring.ops d (length ps) }
{}

/// Two rosters with the same whole: from their rows, each as a composed row leaves it at the front of any table, the row of
/// two households is answered as the composed row of a roster of all their lives, the first's before the second's, and a
/// short output is refused as there. (No roster has over 64 lives.) How it is answered says the definition that clause
/// `answered` of `rows::households_row` cites.
pub fn households_make_one_roster<F: Ring>()
    ensures { (l m both : Ledger F) (t u output : List F.Plain) → m.whole ≡ l.whole → both.whole ≡ l.whole → both.lives ≡ l.lives ++ m.lives → length both.lives ≤ 64
        → households_or (households (semi F.Ring.ops) F.Ring.figure F.Ring.plain
        (take (length l.lives + 1) (row_of F.Ring.ops F.Ring.plain l t)) (take (length m.lives + 1) (row_of F.Ring.ops F.Ring.plain m u)) output) output
        ≡ answer F.Ring.ops F.Ring.plain both (Composed output) }
{}
