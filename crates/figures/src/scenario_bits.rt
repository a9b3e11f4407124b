//! Scenarios: 64 truth values side by side. Sum is exclusive-or, product is and.
ghost use Rattle.figures.specs.ScenarioBits.{scenarios, ops as scenario_ops};
ghost use Rattle.std.proofs.Common.{mod-eq_of_lt, rules};
ghost use Rattle.figures.specs.Bits.{scenario_laws};
ghost use Rattle.figures.specs.Same.{same_scenarios};

use crate::kinds::Scenarios;
use crate::{Packable, Ring};

impl Ring for Scenarios {
    type Plain = u64;

    ghost ops = { scenario_ops };

    ghost figure = { scenarios };

    ghost plain = { λ x. x.bits };

    ghost laws = { scenario_laws };

    ghost back = { λ x. same_scenarios _ _ (mod-eq_of_lt x.fits) };

    fn zero() -> Scenarios {
        Scenarios { bits: 0 }
    }

    fn one() -> Scenarios {
        Scenarios { bits: u64::MAX }
    }

    fn add(self, other: Scenarios) -> Scenarios {
        Scenarios {
            bits: self.bits ^ other.bits,
        }
    }

    fn neg(self) -> Scenarios {
        self
    }

    fn mul(self, other: Scenarios) -> Scenarios {
        Scenarios {
            bits: self.bits & other.bits,
        }
    }

    // Two copies cancel.
    fn multiple(self, times: u64) -> Scenarios {
        if times % 2 == 1 {
            self
        } else {
            Scenarios::zero()
        }
    }

    fn from_plain(written: u64) -> Scenarios {
        Scenarios { bits: written }
    }

    fn to_plain(self) -> u64 {
        self.bits
    }
}

impl Packable for Scenarios {
    const KIND: u8 = 3;

    const WIDTH: u32 = 64;

    ghost KIND = { 3 };

    ghost WIDTH = { 64 };

    ghost bits = { λ x. x.bits };

    ghost admitted = { Prim.search rules };

    fn reply_bits(self) -> u64 {
        self.to_plain()
    }
}
