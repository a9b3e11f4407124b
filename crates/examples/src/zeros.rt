//! Zeros: a kind of one figure, whose plain form takes no memory.
ghost use Rattle.std.specs.Prelude.{refl};
ghost use Rattle.examples.specs.declared.kinds.Zero.{Zero};

use crate::kinds::Zero;
use figures::Ring;

impl Ring for Zero {
    type Plain = ();

    ghost ops = { record {
      zero = record {};
      one = record {};
      plus = λ x y. record {};
      minus = λ x. record {};
      times = λ x y. record {};
    } };

    ghost figure = { λ n. record {} };

    ghost plain = { λ x. tt };

    ghost laws = { record {
      plus_comm = λ x y. refl;
      plus_assoc = λ x y z. refl;
      plus_zero = λ x. refl;
      plus_minus = λ x. refl;
      times_comm = λ x y. refl;
      times_assoc = λ x y z. refl;
      times_one = λ x. refl;
      times_plus = λ x y z. refl;
    } };

    ghost back = { λ x. refl };

    fn zero() -> Zero {
        Zero {}
    }

    fn one() -> Zero {
        Zero {}
    }

    fn add(self, _other: Zero) -> Zero {
        self
    }

    fn neg(self) -> Zero {
        self
    }

    fn mul(self, _other: Zero) -> Zero {
        self
    }

    fn from_plain(_written: ()) -> Zero {
        Zero {}
    }

    fn to_plain(self) {}
}
