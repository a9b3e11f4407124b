//! One life more, one life less, another figure for a life: figures, numbers and sums together.
//! What each says is a fact of two states, the cells before and after, which no type can carry.
ghost use Rattle.std.specs.Prelude.{◌≡◌, ℕ, ◌+◌, ◌<◌, ◌≢◌, length, Some};
ghost use Rattle.roster.specs.Ledger.{Ledger, place_of};
ghost use Rattle.roster.specs.Cells.{Holds};
ghost use Rattle.roster.specs.Passes.{joined, left, altered};

use crate::cells::Cell;
use crate::writing::{close_gap, divide_out, exchange, multiply_in};
use figures::Ring;

/// A life takes the cell after the n lives that there are.
pub(crate) fn put_in<F: Ring>(cells: &mut [Cell<F::Plain>], n: usize, number: u32, figure: F)
    requires { n + 1 < length cells.old }
    ensures { (size : ℕ) (l : Ledger F) → Holds F.Ring.ops F.Ring.plain size l cells.old → n ≡ length l.lives → n < l.capacity → number ≢ 0 → Holds F.Ring.ops F.Ring.plain size (joined l number figure) cells.new }
{
    multiply_in::<F>(&mut cells[..n + 2], figure);
    let life = &mut cells[n + 1];
    life.figure = figure.to_plain();
    life.number = number;
}

/// The life at a place among the n that there are leaves.
pub(crate) fn take_out<F: Ring>(cells: &mut [Cell<F::Plain>], place: usize, n: usize)
    requires { (place < length cells.old) × (n < length cells.old) }
    ensures { (size : ℕ) (l : Ledger F) (number : ℕ) → Holds F.Ring.ops F.Ring.plain size l cells.old → n ≡ length l.lives → place_of number l.lives ≡ Some place → Holds F.Ring.ops F.Ring.plain size (left l number) cells.new }
{
    let out = F::from_plain(cells[place].figure);
    divide_out::<F>(&mut cells[..n + 1], out);
    close_gap::<F>(cells, place, n);
}

/// The life at a place among the n that there are has another figure.
pub(crate) fn alter<F: Ring>(cells: &mut [Cell<F::Plain>], place: usize, n: usize, figure: F)
    requires { (place < length cells.old) × (n < length cells.old) }
    ensures { (size : ℕ) (l : Ledger F) (number : ℕ) → Holds F.Ring.ops F.Ring.plain size l cells.old → n ≡ length l.lives → place_of number l.lives ≡ Some place → Holds F.Ring.ops F.Ring.plain size (altered l number figure) cells.new }
{
    let out = F::from_plain(cells[place].figure);
    exchange::<F>(&mut cells[..n + 1], out, figure);
    cells[place].figure = figure.to_plain();
}
