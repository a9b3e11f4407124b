//! Dual numbers, or slopes, over any ring: (a, b)(c, e) = (ac, ae + bc).
ghost use Rattle.figures.specs.Duals.{ops as dual_ops, dual};
ghost use Rattle.figures.specs.DualLaws.{dual_laws};
ghost use Rattle.std.proofs.Common.{ap₂};

use crate::kinds::Dual;
use crate::{Packable, Ring};

impl<R: Ring> Ring for Dual<R> {
    /// A pair of plain forms.
    type Plain = Dual<R::Plain>;

    ghost ops = { dual_ops R.Ring.ops };

    ghost figure = { λ x. dual (R.Ring.figure x.value) (R.Ring.figure x.rate) };

    ghost plain = { λ x. dual (R.Ring.plain x.value) (R.Ring.plain x.rate) };

    ghost laws = { dual_laws R.Ring.laws };

    ghost back = { λ x. ap₂ dual (R.Ring.back x.value) (R.Ring.back x.rate) };

    fn zero() -> Dual<R> {
        Dual {
            value: R::zero(),
            rate: R::zero(),
        }
    }

    fn one() -> Dual<R> {
        Dual {
            value: R::one(),
            rate: R::zero(),
        }
    }

    fn add(self, other: Dual<R>) -> Dual<R> {
        Dual {
            value: self.value.add(other.value),
            rate: self.rate.add(other.rate),
        }
    }

    fn neg(self) -> Dual<R> {
        Dual {
            value: self.value.neg(),
            rate: self.rate.neg(),
        }
    }

    fn mul(self, other: Dual<R>) -> Dual<R> {
        Dual {
            value: self.value.mul(other.value),
            rate: R::sum_of_products(self.value, other.rate, self.rate, other.value),
        }
    }

    fn multiple(self, times: u64) -> Dual<R> {
        Dual {
            value: self.value.multiple(times),
            rate: self.rate.multiple(times),
        }
    }

    fn sum_of_products(a: Dual<R>, b: Dual<R>, c: Dual<R>, d: Dual<R>) -> Dual<R> {
        let first = R::sum_of_products(a.value, b.rate, a.rate, b.value);
        let second = R::sum_of_products(c.value, d.rate, c.rate, d.value);
        Dual {
            value: R::sum_of_products(a.value, b.value, c.value, d.value),
            rate: first.add(second),
        }
    }

    fn from_plain(written: Dual<R::Plain>) -> Dual<R> {
        Dual {
            value: R::from_plain(written.value),
            rate: R::from_plain(written.rate),
        }
    }

    fn to_plain(self) -> Dual<R::Plain> {
        Dual {
            value: self.value.to_plain(),
            rate: self.rate.to_plain(),
        }
    }
}

/// A dual number packs as its value alone.
impl<R: Packable> Packable for Dual<R> {
    const KIND: u8 = R::KIND;

    const WIDTH: u32 = R::WIDTH;

    ghost KIND = { R.Packable.KIND };

    ghost WIDTH = { R.Packable.WIDTH };

    ghost bits = { λ x. R.Packable.bits x.value };

    ghost admitted = { λ x. R.Packable.admitted x.value };

    fn reply_bits(self) -> u64 {
        self.value.reply_bits()
    }
}
