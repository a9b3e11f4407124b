//! How many lives the cells hold, and where each is.
ghost use Rattle.std.specs.Prelude.{◌≡◌, ◌<◌, ◌≤◌, length, take, drop, IfSome};
ghost use Rattle.roster.specs.Ledger.{capacity_of, place_of};
ghost use Rattle.roster.specs.Cells.{OfLedger};

use crate::cells::Cell;
use crate::rosters::Roster;
use figures::Ring;

/// The most lives that there are ever.
const MOST: usize = 64;

/// How many lives there are, and where the first with a number is, counted from 1.
#[derive(Clone, Copy)]
pub(crate) struct Found {
    pub lives: usize,
    pub place: Option<usize>,
}

/// The cells that lives can be in: those from cell 1 on, 64 at most.
pub(crate) fn rooms<P>(cells: &[Cell<P>]) -> &[Cell<P>]
    ensures { result.now ≡ take 64 (drop 1 cells.now) }
{
    match cells.split_first() {
        Some((_, lives)) => &lives[..MOST.min(lives.len())],
        None => cells,
    }
}

impl<F: Ring> Roster<'_, F> {
    /// One pass over the lives' numbers, up to the first cell without one.
    pub(crate) fn search(&self, number: u32) -> Found
        ensures within { result.lives ≤ capacity_of (length self.now.cells.now) }
        ensures among { IfSome result.place (λ k. (0 < k) × (k ≤ result.lives)) }
        ensures found { OfLedger F.Ring.ops F.Ring.plain self.now.cells.now (λ l. (result.lives ≡ length l.lives) × (result.place ≡ place_of number l.lives)) }
    {
        let mut found = Found {
            lives: 0,
            place: None,
        };
        for life in rooms(self.cells) {
            if life.number == 0 {
                break;
            }
            found.lives += 1;
            if life.number == number {
                found.place = found.place.or(Some(found.lives));
            }
        }
        found
    }

    /// How many lives there are.
    pub fn lives(&self) -> usize
        ensures within { result ≤ capacity_of (length self.now.cells.now) }
        ensures counted { OfLedger F.Ring.ops F.Ring.plain self.now.cells.now (λ l. result ≡ length l.lives) }
    {
        // 0 is nobody's number.
        self.search(0).lives
    }

    /// The place of the first life with this number.
    pub fn find(&self, number: u32) -> Option<usize>
        ensures within { IfSome result (λ k. (0 < k) × (k < length self.now.cells.now)) }
        ensures found { OfLedger F.Ring.ops F.Ring.plain self.now.cells.now (λ l. result ≡ place_of number l.lives) }
    {
        self.search(number).place
    }
}
