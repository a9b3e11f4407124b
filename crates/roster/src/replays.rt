//! Runs: a list of calls, made of a newly opened roster.
ghost use Rattle.std.specs.Prelude.{◌≡◌, ℕ, [], ◌∷◌, length};
ghost use Rattle.roster.specs.Cells.{Holds, Met};
ghost use Rattle.roster.specs.Ledger.{Ledger, opened, answers, final};
ghost use Rattle.roster.specs.Refusals.{table_or};
ghost use Rattle.roster.specs.Requests.{call_of, answer_of, asked, Settled};

use crate::cells::Cell;
use crate::refusals::Refusal;
use crate::requests::{Answer, Exchange, Outcome, Refused, Request};
use crate::rosters::Roster;
use crate::slips::Slip;
use figures::Ring;
use std::mem::replace;

/// What came of a row.
fn tabled<F, P>(res: Result<(), Refusal>, table: Vec<P>) -> Outcome<F, P>
    ensures { answer_of result ≡ table_or res table.items }
{
    match res {
        Ok(()) => Ok(Answer::Table(table)),
        Err(refusal) => Err(Refused {
            refusal,
            table: Some(table),
        }),
    }
}

/// Makes one call of a roster, and answers what came of it: what was granted, or the refusal. A row's table comes back
/// with the answer, worked where the row is granted, and as it was handed over where it is refused. A refused call
/// alters nothing.
pub fn perform<F: Ring>(
    roster: &mut Roster<'_, F>,
    request: Request<F, F::Plain>,
) -> Outcome<F, F::Plain>
    ensures met { Met F.Ring.ops F.Ring.plain (call_of request) roster.old.cells.now (answer_of result) roster.new.cells.now }
    ensures lent { roster.new.cells.ghost_name ≡ roster.old.cells.ghost_name }
{
    match request {
        Request::Join { number, figure } => roster.join(number, figure)?,
        Request::Leave { number } => roster.leave(number)?,
        Request::Change { number, figure } => roster.change(number, figure)?,
        Request::Clear => roster.clear(),
        Request::Exactly { k } => return Ok(Answer::Figure(roster.exactly(k)?)),
        Request::AtLeast { k } => return Ok(Answer::Figure(roster.at_least(k)?)),
        Request::Composed { mut table } => {
            let result = roster.composed_row(&mut table);
            return tabled(result, table);
        }
        Request::Triangle { mut table } => {
            let result = roster.triangle_row(&mut table);
            return tabled(result, table);
        }
    }
    Ok(Answer::Done)
}

/// What becomes of one exchange: a call that is asked is made, and what is answered already stays.
fn settle<F: Ring>(
    roster: &mut Roster<'_, F>,
    exchange: Exchange<F, F::Plain>,
) -> Exchange<F, F::Plain>
    ensures settled { (size : ℕ) (l : Ledger F) → Holds F.Ring.ops F.Ring.plain size l roster.old.cells.now → Settled (exchange ∷ []) (answers F.Ring.ops F.Ring.plain l (asked (exchange ∷ []))) (result ∷ []) }
    ensures holds { (size : ℕ) (l : Ledger F) → Holds F.Ring.ops F.Ring.plain size l roster.old.cells.now → Holds F.Ring.ops F.Ring.plain size (final F.Ring.ops F.Ring.plain l (asked (exchange ∷ []))) roster.new.cells.now }
    ensures lent { roster.new.cells.ghost_name ≡ roster.old.cells.ghost_name }
{
    match exchange {
        Exchange::Asked(request) => Exchange::Answered(perform(roster, request)),
        answered => answered,
    }
}

/// Opens a roster and makes the calls that are asked, one after the other. Each becomes its outcome, in its place; an
/// exchange that is answered already is passed over and stays.
pub fn replay<F: Ring>(
    slip: &Slip,
    cells: &mut [Cell<F::Plain>],
    whole: F,
    exchanges: &mut [Exchange<F, F::Plain>],
)
    ensures settled { Settled exchanges.old (answers F.Ring.ops F.Ring.plain (opened (length cells.old) whole) (asked exchanges.old)) exchanges.new }
    ensures holds { Holds F.Ring.ops F.Ring.plain (length cells.old) (final F.Ring.ops F.Ring.plain (opened (length cells.old) whole) (asked exchanges.old)) cells.new }
{
    let mut roster = Roster::open(slip, cells, whole);
    for exchange in exchanges.iter_mut() {
        // Something has to stand in its place while the call has it.
        let taken = replace(exchange, Exchange::Answered(Ok(Answer::Done)));
        *exchange = settle(&mut roster, taken);
    }
}
