//! Calls of a roster as values, and what comes of them.
ghost use Rattle.std.specs.Prelude.{◌≡◌, None};

use crate::refusals::Refusal;

/// A call with its arguments: figures of a kind F, tables of figures in their plain form P.
#[derive(Drop)]
pub enum Request<F, P> {
    Join { number: u32, figure: F },
    Leave { number: u32 },
    Change { number: u32, figure: F },
    Clear,
    Exactly { k: u32 },
    AtLeast { k: u32 },
    Composed { table: Vec<P> },
    Triangle { table: Vec<P> },
}

/// What came of a call that was granted. A row's table comes back, as it is then.
#[derive(Drop)]
pub enum Answer<F, P> {
    Done,
    Figure(F),
    Table(Vec<P>),
}

/// A refused call: why, and a row's table as it was handed over.
#[derive(Drop)]
pub struct Refused<P> {
    pub refusal: Refusal,
    pub table: Option<Vec<P>>,
}

impl<P> From<Refusal> for Refused<P> {
    ghost from_gives = { λ refusal refused. refused ≡ record { refusal = refusal; table = None } };

    fn from(refusal: Refusal) -> Refused<P> {
        Refused {
            refusal,
            table: None,
        }
    }
}

/// What came of a call.
pub type Outcome<F, P> = Result<Answer<F, P>, Refused<P>>;

/// A call that is still to be made, or what came of one.
#[derive(Drop)]
pub enum Exchange<F, P> {
    Asked(Request<F, P>),
    Answered(Outcome<F, P>),
}
