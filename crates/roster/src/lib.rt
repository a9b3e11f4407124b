//! Rosters of lives: who is present, and how likely it is that exactly k, or at least k, of them survive.
#![tactic(auto)]

mod cells;
mod coefficients;
mod counting;
mod edits;
mod questions;
mod refusals;
mod replays;
mod requests;
mod rosters;
mod slips;
mod tables;
mod theorems;
mod ways;
mod writing;

pub use cells::Cell;
pub use refusals::Refusal;
pub use replays::{perform, replay};
pub use requests::{Answer, Exchange, Outcome, Refused, Request};
pub use rosters::{Roster, close};
pub use slips::{Slip, Unclosed, take_into_use};
pub use theorems::{chains_follow_the_ledger, households_make_one_roster, waring_sums_hold};
