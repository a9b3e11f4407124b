//! Rows: exactly 0 to exactly n alive, at the front of a table of figures in their plain form.
ghost use Rattle.std.specs.Prelude.{◌≡◌, ◌+◌, ◌<◌, ◌≤◌, map, length};
ghost use Rattle.std.specs.List.{range_with_len};
ghost use Rattle.algebra.specs.Ring.{semi};
ghost use Rattle.algebra.proofs.Composition.{compose};
ghost use Rattle.algebra.proofs.Waring.{entry};
ghost use Rattle.roster.specs.Cells.{OfLedger, Met};
ghost use Rattle.roster.specs.Ledger.{Composed, Triangle, figures};
ghost use Rattle.roster.specs.Refusals.{table_or};
ghost use Rattle.roster.specs.Triangle.{differences};

use crate::cells::Cell;
use crate::refusals::Refusal;
use crate::rosters::Roster;
use figures::Ring;

/// One life more in a row whose last entry is new and zero, in place: each entry becomes
/// alive · the old one below it + dead · itself.
fn compose<F: Ring>(row: &mut [F::Plain], alive: F, dead: F)
    ensures { row.new ≡ map F.Ring.plain (compose (semi F.Ring.ops) (record { alive = alive; dead = dead }) F.Ring.ops.zero (map F.Ring.figure row.old)) }
{
    let mut below = F::zero();
    for entry in row.iter_mut() {
        let here = F::from_plain(*entry);
        *entry = F::sum_of_products(alive, below, dead, here).to_plain();
        below = here;
    }
}

/// Where the triangle starts: B(r) · d^(n−r) at each place r of a row for n lives, B the kept sums and d the whole.
fn weigh<F: Ring>(cells: &[Cell<F::Plain>], row: &mut [F::Plain])
    requires { (0 < length cells.now) × (length row.old ≤ length cells.now) }
    ensures { OfLedger F.Ring.ops F.Ring.plain cells.now (λ l. length row.old ≡ length l.lives + 1
        → row.new ≡ map F.Ring.plain (map (entry F.Ring.ops l.whole (figures l.lives) 0) (range_with_len 0 (length (figures l.lives) + 1)))) }
{
    let whole = F::from_plain(cells[0].figure);
    let mut power = F::one();
    // By index: a proof knows nothing of what is written through a reversed iterator.
    for r in (0..row.len()).rev() {
        row[r] = F::from_plain(cells[r].sum).mul(power).to_plain();
        power = whole.mul(power);
    }
}

/// One pass of the triangle, from the top down: each entry less the new one above it.
fn differences<F: Ring>(row: &mut [F::Plain])
    ensures { row.new ≡ map F.Ring.plain (differences F.Ring.ops (map F.Ring.figure row.old)) }
{
    let mut above = F::zero();
    // By index: a proof knows nothing of what is written through a reversed iterator.
    for r in (0..row.len()).rev() {
        above = F::from_plain(row[r]).add(above.neg());
        row[r] = above.to_plain();
    }
}

/// Rows alter no cell.
impl<F: Ring> Roster<'_, F> {
    /// The row by composition: from the single entry one, one life after the other.
    pub fn composed_row(&self, table: &mut [F::Plain]) -> Result<(), Refusal>
        ensures { Met F.Ring.ops F.Ring.plain (Composed table.old) self.now.cells.now (table_or result table.new) self.now.cells.now }
    {
        let cells = &*self.cells;
        let n = self.lives();
        if table.len() <= n {
            return Err(Refusal::ShortTable);
        }
        table[0] = F::one().to_plain();
        // With no cells there is no life.
        let Some((first, lives)) = cells.split_first() else {
            return Ok(());
        };
        let whole = F::from_plain(first.figure);
        for (i, life) in lives[..n].iter().enumerate() {
            let alive = F::from_plain(life.figure);
            table[i + 1] = F::zero().to_plain();
            compose(&mut table[..=i + 1], alive, whole.add(alive.neg()));
        }
        Ok(())
    }

    /// The row by the triangle: from the kept sums, passes of differences, each one place shorter.
    pub fn triangle_row(&self, table: &mut [F::Plain]) -> Result<(), Refusal>
        ensures { Met F.Ring.ops F.Ring.plain (Triangle table.old) self.now.cells.now (table_or result table.new) self.now.cells.now }
    {
        let cells = &*self.cells;
        let last = self.lives();
        if table.len() <= last {
            return Err(Refusal::ShortTable);
        }
        // With no cells there is no whole to read; and no life, so that nobody alive is certain.
        if cells.is_empty() {
            table[0] = F::one().to_plain();
            return Ok(());
        }
        let row = &mut table[..=last];
        weigh::<F>(cells, row);
        for i in 0..last {
            differences::<F>(&mut row[i..]);
        }
        Ok(())
    }
}
