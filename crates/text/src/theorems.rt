//! How plain forms are read and printed, and bytes and refusals printed: promises that are no one function's.
ghost use Rattle.std.specs.Prelude.{◌≡◌, ℕ, ◌-◌, ◌^◌, List, Some, None, decimal};
ghost use Rattle.text.specs.Text.{number_within, slope, slope_text, hex_text, refusal_text};
ghost use Rattle.text.specs.declared.unanswered.Unanswered.TheVariants.{NoMemory, Refused};
ghost use Rattle.money.specs.Answer.{number, place};
ghost use Rattle.money.specs.declared.Refusal.{Refusal as MoneyRefusal};
ghost use Rattle.counts.specs.Answer.{number as count_number, place as count_place};
ghost use Rattle.counts.specs.declared.Refusal.{Refusal as CountRefusal};
ghost use Rattle.exchangeable.specs.Answer.{number as table_number, place as table_place};
ghost use Rattle.exchangeable.specs.declared.Refusal.{Refusal as TableRefusal};
ghost use Rattle.rows.specs.Answer.{number as row_number};
ghost use Rattle.rows.specs.declared.Refusal.{Refusal as RowRefusal};
ghost use Rattle.roster.specs.Refusals.{refusal_number as roster_number};
ghost use Rattle.roster.specs.declared.requests.Refused.{Refused as RefusedCall};
ghost use Rattle.reply.specs.Rules.{refusal_number as record_number};
ghost use Rattle.reply.specs.declared.Refusal.{Refusal as RecordRefusal};
ghost use Rattle.reply.specs.Asked.{unwritten_number};

use crate::bytes::Hex;
use crate::typed::Typed;
use crate::unanswered::{Refusal, Unanswered};
use figures::Dual;
use reply::asked::Unwritten;
use std::alloc::{AllocError, AllocFailed};
use std::fmt::Display;

/// Numbers are typed and printed in decimal; of a slope, value and rate are, as their own form is, with a colon between.
pub fn plain_forms_are_as_defined<P: Typed>()
    ensures numbers_of_64_bits { ((word : List ℕ) → ⟦<u64 as Typed>⟧.reads word ≡ number_within (2 ^ 64 - 1) word)
        × ((n : ℕ) → ⟦<u64 as Typed>⟧.text n ≡ decimal n) }
    ensures numbers_of_32_bits { ((word : List ℕ) → ⟦<u32 as Typed>⟧.reads word ≡ number_within (2 ^ 32 - 1) word)
        × ((n : ℕ) → ⟦<u32 as Typed>⟧.text n ≡ decimal n) }
    ensures slopes { ((word : List ℕ) → ⟦<Dual<P> as Typed>⟧.reads word ≡ slope P.reads word)
        × ((x : Dual P) → ⟦<Dual<P> as Typed>⟧.text x ≡ slope_text P.text x) }
{}

/// Bytes are printed in hex, and a refusal by its number and place; for each library's refusals these are the library's own.
pub fn bytes_and_refusals_are_as_defined<T: Drop, P: Copy>()
    ensures hex { (h : Hex) → ⟦<Hex<'static> as Display>⟧.output h ≡ Some (hex_text h.0.now) }
    ensures refusals { (r : Refusal) → ⟦<Refusal as Display>⟧.output r ≡ Some (refusal_text r.number r.place) }
    ensures of_memory { ((e : AllocError) (u : Unanswered) → ⟦<Unanswered as From<AllocError>>⟧.from_gives e u → u ≡ NoMemory)
        × ((e : AllocFailed T) (u : Unanswered) → ⟦<Unanswered as From<AllocFailed<T>>>⟧.from_gives e u → u ≡ NoMemory) }
    ensures of_money { (r : MoneyRefusal) (u : Unanswered) → ⟦<Unanswered as From<money::Refusal>>⟧.from_gives r u
        → u ≡ Refused (record { number = number r; place = place r }) }
    ensures of_counts { (r : CountRefusal) (u : Unanswered) → ⟦<Unanswered as From<counts::Refusal>>⟧.from_gives r u
        → u ≡ Refused (record { number = count_number r; place = count_place r }) }
    ensures of_exchangeable { (r : TableRefusal) (u : Unanswered) → ⟦<Unanswered as From<exchangeable::Refusal>>⟧.from_gives r u
        → u ≡ Refused (record { number = table_number r; place = table_place r }) }
    ensures of_rows { (r : RowRefusal) (u : Unanswered) → ⟦<Unanswered as From<rows::Refusal>>⟧.from_gives r u
        → u ≡ Refused (record { number = row_number r; place = None }) }
    ensures of_rosters { (r : RefusedCall P) (u : Unanswered) → ⟦<Unanswered as From<roster::Refused<P>>>⟧.from_gives r u
        → u ≡ Refused (record { number = roster_number r.refusal; place = None }) }
    ensures of_records { ((r : RecordRefusal) (u : Unanswered) → ⟦<Unanswered as From<reply::Refusal>>⟧.from_gives r u
        → u ≡ Refused (record { number = record_number r; place = None }))
        × ((r : Unwritten) (u : Unanswered) → ⟦<Unanswered as From<Unwritten>>⟧.from_gives r u
        → u ≡ Refused (record { number = unwritten_number r; place = None })) }
{}
