//! Residues, the check figures: arithmetic modulo the prime 2^31 - 1.
ghost use Rattle.figures.specs.Residues.{residue, ops as residue_ops, modulus};
ghost use Rattle.figures.specs.Modular.{modular_laws, residue_modular};
ghost use Rattle.figures.specs.Same.{same_residue};
ghost use Rattle.std.specs.Prelude.{◌≡◌, ◌+◌, ◌*◌, ◌/◌, ◌%◌, ◌^◌, ◌<◌};
ghost use Rattle.std.specs.Option.{SomeIff};
ghost use Rattle.std.proofs.Common.{mod-eq_of_lt, rules};

use crate::kinds::Residue;
use crate::{Packable, Ring};

const MODULUS: u32 = 2147483647;

// 2^62 - 1, the greatest number that is reduced.
const GREATEST: u64 = 4611686018427387903;

/// The high part of a number, from bit 31 on, plus its low part: the same residue, since 2^31 has the remainder 1.
fn folded(number: u64) -> u64
    ensures { result ≡ number / 2 ^ 31 + number % 2 ^ 31 }
{
    (number >> 31) + (number & MODULUS as u64)
}

/// The residue of a number below twice the modulus, by a conditional subtraction.
fn below_modulus(number: u32) -> Residue
    requires { number < 2 * modulus }
    ensures { result ≡ residue number }
{
    Residue {
        number: if number < MODULUS {
            number
        } else {
            number - MODULUS
        },
    }
}

/// The residue of a number below 2^62.
fn reduced(number: u64) -> Residue
    requires { number < 2 ^ 62 }
    ensures { result ≡ residue number }
{
    // Only this number's parts add up to twice the modulus. It is no product of two residues, so the branch is predicted.
    if number == GREATEST {
        return Residue::zero();
    }
    below_modulus(folded(number) as u32)
}

impl Residue {
    /// The residue of a number below 2^62, as every product of two residues is; none of a number of 2^62 or more.
    pub fn from_u64(number: u64) -> Option<Residue>
        ensures { SomeIff result (number < 2 ^ 62) (residue number) }
    {
        if number <= GREATEST {
            Some(reduced(number))
        } else {
            None
        }
    }
}

impl Ring for Residue {
    /// Any 32-bit number stands for its remainder; what is written is the remainder itself.
    type Plain = u32;

    ghost ops = { residue_ops };

    ghost figure = { residue };

    ghost plain = { λ x. x.number };

    ghost laws = { modular_laws modulus (λ x. x.number) residue_ops residue_modular };

    ghost back = { λ x. same_residue _ _ (mod-eq_of_lt x.below) };

    fn zero() -> Residue {
        Residue { number: 0 }
    }

    fn one() -> Residue {
        Residue { number: 1 }
    }

    fn add(self, other: Residue) -> Residue {
        below_modulus(self.number + other.number)
    }

    fn neg(self) -> Residue {
        Residue {
            number: match self.number {
                0 => 0,
                number => MODULUS - number,
            },
        }
    }

    fn mul(self, other: Residue) -> Residue {
        reduced(self.number as u64 * other.number as u64)
    }

    fn multiple(self, times: u64) -> Residue {
        // Reduced first, since the product would not fit.
        let product = times % MODULUS as u64 * self.number as u64;
        Residue {
            number: (product % MODULUS as u64) as u32,
        }
    }

    // The sum of two products is below 2^63, so it is folded before it is reduced.
    fn sum_of_products(a: Residue, b: Residue, c: Residue, d: Residue) -> Residue {
        let sum = a.number as u64 * b.number as u64 + c.number as u64 * d.number as u64;
        reduced(folded(sum))
    }

    fn from_plain(written: u32) -> Residue {
        below_modulus(folded(written as u64) as u32)
    }

    fn to_plain(self) -> u32 {
        self.number
    }
}

impl Packable for Residue {
    const KIND: u8 = 2;

    const WIDTH: u32 = 31;

    ghost KIND = { 2 };

    ghost WIDTH = { 31 };

    ghost bits = { λ x. x.number };

    ghost admitted = { Prim.search rules };

    fn reply_bits(self) -> u64 {
        self.to_plain() as u64
    }
}
