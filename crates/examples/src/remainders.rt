//! Remainders: a kind that has its operations alone, and the library's own multiples and sums of products.
ghost use Rattle.std.specs.Prelude.{ℕ, ◌+◌, ◌-◌, ◌*◌, ◌%◌, ◌<◌, refl};
ghost use Rattle.std.proofs.Common.{mod-lt, mod-eq_of_lt, lit<};
ghost use Rattle.std.proofs.Math.Bridge.{le_prop};
ghost use mathlib.Core.HLevel.{is_prop→PathP};
ghost use Rattle.figures.specs.Modular.{modular_laws};
ghost use Rattle.examples.specs.declared.kinds.Remainder.{Remainder};

use crate::kinds::Remainder;
use figures::Ring;

const MODULUS: u32 = 65535;

impl Ring for Remainder {
    type Plain = u32;

    ghost ops = { let of : ℕ → Remainder = λ n. record { number = n % 65535; below = mod-lt n (lit< tt) } in
        record {
          zero = of 0;
          one = of 1;
          plus = λ x y. of (x.number + y.number);
          minus = λ x. of (65535 - x.number);
          times = λ x y. of (x.number * y.number);
        } };

    ghost figure = { λ n. record { number = n % 65535; below = mod-lt n (lit< tt) } };

    ghost plain = { λ x. x.number };

    ghost laws = { modular_laws 65535 (λ x. x.number) _ (record {
      same = λ x y e i. record { number = e i; below = is_prop→PathP (λ j. e j < 65535) (λ _. le_prop) x.below y.below i };
      below = λ x. x.below;
      zero_is = refl;
      one_is = refl;
      plus_is = λ x y. refl;
      minus_is = λ x. refl;
      times_is = λ x y. refl;
    }) };

    ghost back = { λ x i. let e = mod-eq_of_lt x.below in record { number = e i; below = is_prop→PathP (λ j. e j < 65535) (λ _. le_prop) (mod-lt x.number (lit< tt)) x.below i } };

    fn zero() -> Remainder {
        Remainder { number: 0 }
    }

    fn one() -> Remainder {
        Remainder { number: 1 }
    }

    fn add(self, other: Remainder) -> Remainder {
        Remainder {
            number: (self.number + other.number) % MODULUS,
        }
    }

    fn neg(self) -> Remainder {
        Remainder {
            number: (MODULUS - self.number) % MODULUS,
        }
    }

    fn mul(self, other: Remainder) -> Remainder {
        Remainder {
            number: self.number * other.number % MODULUS,
        }
    }

    fn from_plain(written: u32) -> Remainder {
        Remainder {
            number: written % MODULUS,
        }
    }

    fn to_plain(self) -> u32 {
        self.number
    }
}
