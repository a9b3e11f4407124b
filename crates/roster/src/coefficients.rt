//! The coefficients of the alternating sums, from their table.
ghost use Rattle.std.specs.Prelude.{◌≡◌, ℕ, ◌+◌, ◌-◌, ◌≤◌, length, slice_index};
ghost use Rattle.algebra.proofs.Binomial.{ways};

use crate::ways::WAYS;

/// ways(j, 0) to ways(j, 65 − j): the row j of the table.
pub(crate) fn coefficients(j: usize) -> &'static [u64]
    requires { j ≤ 65 }
    ensures { (length result.now ≡ 66 - j) × ((t : ℕ) → j + t ≤ 65 → slice_index result.now t ≡ ways j t) }
{
    let start = j * (133 - j) / 2;
    &WAYS[start..start + (66 - j)]
}
