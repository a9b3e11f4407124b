//! Worked examples: what the definitions give on small numbers.
#![tactic(auto)]

ghost use Rattle.std.specs.Prelude.{◌≡◌};
ghost use Rattle.examples.specs.Worked.{computed, listed};

/// The definitions that the calls' contracts cite give just the listed outcomes.
pub fn examples_follow()
    ensures { computed ≡ listed }
{}

#[cfg(test)]
mod households;
#[cfg(test)]
mod kinds;
#[cfg(test)]
mod questions;
#[cfg(test)]
mod remainders;
#[cfg(test)]
mod sheets;
#[cfg(test)]
mod sums;
#[cfg(test)]
mod tests;
#[cfg(test)]
mod values;
#[cfg(test)]
mod zeros;
