//! The slip that says that cells are in use.
ghost use Rattle.std.specs.Prelude.{◌≡◌, length, ◌==◌};

use crate::cells::Cell;
use crate::refusals::Refusal;

/// It can be neither copied nor let go: closing is the one way to be rid of it, of cells as many as it is for.
pub struct Slip {
    count: usize,
}

/// Cells that were not closed: why, and the slip, which is still to be spent.
pub struct Unclosed {
    pub refusal: Refusal,
    pub slip: Slip,
}

impl Slip {
    pub(crate) fn is_for(&self, cells: usize) -> bool
        ensures { result ≡ (self.now.count == cells) }
    {
        self.count == cells
    }

    pub(crate) fn spend(self) {
        let Slip { count: _ } = self;
    }
}

/// Takes cells into use, and alters none of them.
pub fn take_into_use<P>(cells: &[Cell<P>]) -> Slip
    ensures { result.count ≡ length cells.now }
{
    Slip { count: cells.len() }
}
