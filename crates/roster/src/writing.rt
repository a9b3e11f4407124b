//! Passes over the cells, each in place.
ghost use Rattle.std.specs.Prelude.{◌≡◌, ℕ, ◌<◌, ◌≤◌, [], length, replicate};
ghost use Rattle.roster.specs.Cells.{laid, zero_cell};
ghost use Rattle.roster.specs.Passes.{multiplied, divided, exchanged, cells_of, Ends, Closed};

use crate::cells::Cell;
use figures::Ring;

/// Every cell becomes zero in every field.
pub(crate) fn wipe<F: Ring>(cells: &mut [Cell<F::Plain>])
    ensures { cells.new ≡ replicate (length cells.old) (zero_cell F.Ring.ops F.Ring.plain) }
{
    let zero = F::zero().to_plain();
    let blank = Cell {
        figure: zero,
        sum: zero,
        number: 0,
    };
    // Not `fill`: it asks for a clone that cannot fail, which `Plain` does not promise.
    cells.fill_with(|| blank);
}

// Three passes, not one with a closure for its step: each reads as the rule that it states.
/// The sums become those with one life more. The last cell is the new life's.
pub(crate) fn multiply_in<F: Ring>(cells: &mut [Cell<F::Plain>], figure: F)
    ensures { cells.new ≡ multiplied F.Ring.ops F.Ring.plain F.Ring.figure figure cells.old }
{
    let mut below = F::zero();
    for cell in cells.iter_mut() {
        let here = F::from_plain(cell.sum);
        // The sum here as a product, since a kind may add two of them in one step.
        cell.sum = F::sum_of_products(here, F::one(), figure, below).to_plain();
        below = here;
    }
}

/// The sums become those without a life of this figure.
pub(crate) fn divide_out<F: Ring>(cells: &mut [Cell<F::Plain>], figure: F)
    ensures { cells.new ≡ divided F.Ring.ops F.Ring.plain F.Ring.figure figure cells.old }
{
    let mut below = F::zero();
    for cell in cells.iter_mut() {
        below = F::from_plain(cell.sum).add(figure.mul(below).neg());
        cell.sum = below.to_plain();
    }
}

/// The sums become those with another figure for one life. One pass: `without` is the sum below, without that life.
pub(crate) fn exchange<F: Ring>(cells: &mut [Cell<F::Plain>], out: F, figure: F)
    ensures { cells.new ≡ exchanged F.Ring.ops F.Ring.plain F.Ring.figure out figure cells.old }
{
    let mut without = F::zero();
    for cell in cells.iter_mut() {
        let more = figure.mul(without);
        without = F::from_plain(cell.sum).add(out.mul(without).neg());
        cell.sum = without.add(more).to_plain();
    }
}

/// The lives after a place move down by one, and the last leaves zeros. The sums stay.
pub(crate) fn close_gap<F: Ring>(cells: &mut [Cell<F::Plain>], place: usize, n: usize)
    requires { n < length cells.old }
    ensures { place ≤ n → (size : ℕ) (figures kept sums : ℕ → F.Plain) (numbers left : ℕ → ℕ) → Ends n (F.Ring.plain F.Ring.ops.zero) figures → Ends n 0 numbers → Closed place figures kept → Closed place numbers left → cells.old ≡ cells_of size figures sums numbers → cells.new ≡ cells_of size kept sums left }
{
    // By index: a carry from the top would do, but a proof knows nothing of what is written through a reversed iterator.
    for k in place..n {
        let above = cells[k + 1];
        cells[k] = Cell {
            sum: cells[k].sum,
            ..above
        };
    }
    let last = &mut cells[n];
    last.figure = F::zero().to_plain();
    last.number = 0;
}

/// The cells of a roster without lives.
pub(crate) fn lay_out<F: Ring>(cells: &mut [Cell<F::Plain>], whole: F)
    ensures { cells.new ≡ laid F.Ring.ops F.Ring.plain (length cells.old) whole [] }
{
    wipe::<F>(cells);
    if let Some(first) = cells.first_mut() {
        *first = Cell {
            figure: whole.to_plain(),
            sum: F::one().to_plain(),
            number: 0,
        };
    }
}
