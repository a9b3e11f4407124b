//! The roster, and the calls that alter it.
ghost use Rattle.std.specs.Prelude.{◌≡◌, ◌<◌, ◌≢◌, length, replicate, IfOk, MatchResult};
ghost use Rattle.roster.specs.Ledger.{Join, Leave, Change, Clear, Done, opened, capacity_of, place_of, answer};
ghost use Rattle.roster.specs.Cells.{Holds, HoldSome, OfLedger, Met, zero_cell};
ghost use Rattle.roster.specs.Refusals.{done_or};
ghost use Rattle.roster.specs.declared.refusals.Refusal.TheVariants.{OtherCells};

use crate::cells::Cell;
use crate::counting::rooms;
use crate::edits::{alter, put_in, take_out};
use crate::refusals::Refusal;
use crate::slips::{Slip, Unclosed};
use crate::writing::{lay_out, wipe};
use figures::Ring;

/// Lives by number, each with its figure, in cells that are lent to it. All that it knows lies in the cells.
#[derive(Drop)]
pub struct Roster<'a, F: Ring> {
    pub(crate) cells: &'a mut [Cell<F::Plain>],
    // Whatever was done, the cells hold a ledger. (No `impl Model` shows it: a caller would learn nothing of the lent cells.)
    ghost held: { ∥ HoldSome F.Ring.ops F.Ring.plain cells.now ∥₁ },
}

// Each call that alters the cells says that they stay the lent ones: a fact of two states, which no type can carry.
impl<'a, F: Ring> Roster<'a, F> {
    /// A roster without lives. It makes no use of what the cells held, nor of how many the slip is for.
    pub fn open(_slip: &Slip, cells: &'a mut [Cell<F::Plain>], whole: F) -> Roster<'a, F>
        ensures holds { Holds F.Ring.ops F.Ring.plain (length cells.old) (opened (length cells.old) whole) result.cells.now }
        ensures lent { result.cells.ghost_name ≡ cells.entry.ghost_name }
    {
        lay_out::<F>(cells, whole);
        Roster { cells }
    }

    /// How many lives there is room for.
    fn capacity(&self) -> usize
        ensures { result ≡ capacity_of (length self.now.cells.now) }
    {
        rooms(self.cells).len()
    }

    /// The place of a life that is to leave or to change, and how many lives there are.
    fn locate(&self, number: u32) -> Result<(usize, usize), Refusal>
        ensures within { IfOk result (λ k. (k.0 < length self.now.cells.now) × (k.1 < length self.now.cells.now)) }
        ensures found { OfLedger F.Ring.ops F.Ring.plain self.now.cells.now (λ l. (done_or result ≡ answer F.Ring.ops F.Ring.plain l (Leave number)) × IfOk result (λ k. (place_of number l.lives ≡ Some k.0) × (k.1 ≡ length l.lives))) }
    {
        if number == 0 {
            return Err(Refusal::ZeroNumber);
        }
        let found = self.search(number);
        match found.place {
            Some(place) => Ok((place, found.lives)),
            None => Err(Refusal::Absent),
        }
    }

    pub fn join(&mut self, number: u32, figure: F) -> Result<(), Refusal>
        ensures met { Met F.Ring.ops F.Ring.plain (Join number figure) self.old.cells.now (done_or result) self.new.cells.now }
        ensures lent { self.new.cells.ghost_name ≡ self.old.cells.ghost_name }
    {
        if number == 0 {
            return Err(Refusal::ZeroNumber);
        }
        let found = self.search(number);
        if found.place.is_some() {
            return Err(Refusal::Present);
        }
        if found.lives == self.capacity() {
            return Err(Refusal::Full);
        }
        put_in::<F>(self.cells, found.lives, number, figure);
        Ok(())
    }

    pub fn leave(&mut self, number: u32) -> Result<(), Refusal>
        ensures met { Met F.Ring.ops F.Ring.plain (Leave number) self.old.cells.now (done_or result) self.new.cells.now }
        ensures lent { self.new.cells.ghost_name ≡ self.old.cells.ghost_name }
    {
        let (k, n) = self.locate(number)?;
        take_out::<F>(self.cells, k, n);
        Ok(())
    }

    pub fn change(&mut self, number: u32, figure: F) -> Result<(), Refusal>
        ensures met { Met F.Ring.ops F.Ring.plain (Change number figure) self.old.cells.now (done_or result) self.new.cells.now }
        ensures lent { self.new.cells.ghost_name ≡ self.old.cells.ghost_name }
    {
        let (k, n) = self.locate(number)?;
        alter::<F>(self.cells, k, n, figure);
        Ok(())
    }

    /// All lives leave, and the whole stays.
    pub fn clear(&mut self)
        ensures met { Met F.Ring.ops F.Ring.plain Clear self.old.cells.now Done self.new.cells.now }
        ensures lent { self.new.cells.ghost_name ≡ self.old.cells.ghost_name }
    {
        let cells = &mut *self.cells;
        if !cells.is_empty() {
            wipe::<F>(&mut cells[1..]);
        }
    }
}

/// Every cell becomes zero in every field, and the slip is spent; where it is for another number of cells, it comes back.
pub fn close<F: Ring>(cells: &mut [Cell<F::Plain>], slip: Slip) -> Result<(), Unclosed>
    ensures { MatchResult result (λ _. (slip.count ≡ length cells.old) × (cells.new ≡ replicate (length cells.old) (zero_cell F.Ring.ops F.Ring.plain))) (λ u. (slip.count ≢ length cells.old) × (u.refusal ≡ OtherCells) × (u.slip ≡ slip) × (cells.new ≡ cells.old)) }
{
    if !slip.is_for(cells.len()) {
        return Err(Unclosed {
            refusal: Refusal::OtherCells,
            slip,
        });
    }
    slip.spend();
    wipe::<F>(cells);
    Ok(())
}
