//! What the program reads and prints, as functions: words, numbers, figures, bytes, records and refusals.
#![tactic(auto)]

mod answers;
mod bytes;
mod floats;
mod numbers;
mod theorems;
mod typed;
mod unanswered;
mod words;

pub use answers::{done, filled, outcome_text, table_text};
pub use bytes::{Hex, echo_words, fields_text, hex_bytes};
pub use floats::floats_text;
pub use numbers::{short_number, size};
pub use theorems::{bytes_and_refusals_are_as_defined, plain_forms_are_as_defined};
pub use typed::{Typed, typed_list};
pub use unanswered::{Refusal, Unanswered};
pub use words::{Lines, around_slash};
