//! Why a command is not granted.
ghost use Rattle.std.specs.Prelude.{◌≡◌, Some, None};
ghost use Rattle.text.specs.Text.{refusal_text};
ghost use Rattle.text.specs.declared.unanswered.Unanswered.TheVariants.{NoMemory, Refused};
ghost use Rattle.money.specs.Answer.{number, place};
ghost use Rattle.counts.specs.Answer.{number as count_number, place as count_place};
ghost use Rattle.exchangeable.specs.Answer.{number as table_number, place as table_place};
ghost use Rattle.roster.specs.Refusals.{refusal_number as roster_number};
ghost use Rattle.rows.specs.Answer.{number as row_number};
ghost use Rattle.reply.specs.Rules.{refusal_number as record_number};
ghost use Rattle.reply.specs.Asked.{unwritten_number};

use reply::asked::Unwritten;
use std::alloc::{AllocError, AllocFailed};
use std::fmt;

#[derive(Drop)]
pub enum Unanswered {
    NotUnderstood,
    Refused(Refusal),
    NoMemory,
}

/// A refusal's number, and its place where it has one: all that is printed of it.
#[derive(Clone, Copy)]
pub struct Refusal {
    number: u32,
    place: Option<usize>,
}

impl Unanswered {
    fn refused(number: u32, place: Option<usize>) -> Unanswered
        ensures { result ≡ Refused (record { number = number; place = place }) }
    {
        Unanswered::Refused(Refusal { number, place })
    }
}

impl fmt::Display for Refusal {
    ghost output = { λ r. Some (refusal_text r.number r.place) };

    fn fmt<W: fmt::Write>(&self, f: &mut fmt::Formatter<W>) -> fmt::Result {
        let number = self.number;
        match self.place {
            Some(place) => write!(f, "refused {number} at {place}"),
            None => write!(f, "refused {number}"),
        }
    }
}

impl From<AllocError> for Unanswered {
    ghost from_gives = { λ _ u. u ≡ NoMemory };

    fn from(_error: AllocError) -> Unanswered {
        Unanswered::NoMemory
    }
}

impl<T: Drop> From<AllocFailed<T>> for Unanswered {
    ghost from_gives = { λ _ u. u ≡ NoMemory };

    fn from(_failed: AllocFailed<T>) -> Unanswered {
        Unanswered::NoMemory
    }
}

// An impl for each library's refusals: a trait over them would only say `number` and `place` once more.
impl From<money::Refusal> for Unanswered {
    ghost from_gives = { λ r u. u ≡ Refused (record { number = number r; place = place r }) };

    fn from(refusal: money::Refusal) -> Unanswered {
        Unanswered::refused(refusal.number(), refusal.place())
    }
}

impl From<counts::Refusal> for Unanswered {
    ghost from_gives = { λ r u. u ≡ Refused (record { number = count_number r; place = count_place r }) };

    fn from(refusal: counts::Refusal) -> Unanswered {
        Unanswered::refused(refusal.number(), refusal.place())
    }
}

impl From<exchangeable::Refusal> for Unanswered {
    ghost from_gives = { λ r u. u ≡ Refused (record { number = table_number r; place = table_place r }) };

    fn from(refusal: exchangeable::Refusal) -> Unanswered {
        Unanswered::refused(refusal.number(), refusal.place())
    }
}

impl From<rows::Refusal> for Unanswered {
    ghost from_gives = { λ r u. u ≡ Refused (record { number = row_number r; place = None }) };

    fn from(refusal: rows::Refusal) -> Unanswered {
        Unanswered::refused(refusal.number(), None)
    }
}

impl<P: Copy> From<roster::Refused<P>> for Unanswered {
    ghost from_gives = { λ r u. u ≡ Refused (record { number = roster_number r.refusal; place = None }) };

    fn from(refused: roster::Refused<P>) -> Unanswered {
        Unanswered::refused(refused.refusal.number(), None)
    }
}

impl From<reply::Refusal> for Unanswered {
    ghost from_gives = { λ r u. u ≡ Refused (record { number = record_number r; place = None }) };

    fn from(refusal: reply::Refusal) -> Unanswered {
        Unanswered::refused(refusal.number(), None)
    }
}

impl From<Unwritten> for Unanswered {
    ghost from_gives = { λ r u. u ≡ Refused (record { number = unwritten_number r; place = None }) };

    fn from(unwritten: Unwritten) -> Unanswered {
        Unanswered::refused(unwritten.number(), None)
    }
}
