//! Kinds of figures: commutative rings whose laws are proved.
#![tactic(auto)]

ghost use Rattle.std.specs.Prelude.{◌≡◌, ℕ};
ghost use Rattle.algebra.specs.Ring.{Ops, Laws};
ghost use Rattle.algebra.specs.Sums.{multiple};
ghost use Rattle.figures.specs.Packs.{Admitted};

mod duals;
mod kinds;
mod residues;
mod scenario_bits;
mod theorems;
mod words;

pub use kinds::{Dual, Residue, Scenarios, Word};
pub use theorems::{kinds_are_as_defined, kinds_pack_as_defined};

/// A kind of figures. Each operation is a fixed function and none refuses; there is no order and no division.
pub trait Ring: Copy {
    /// The form in which a figure lies in cells, tables and lists.
    type Plain: Copy;

    ghost ops: { Ops Self };

    // The figure that a plain form stands for, and the plain form that a figure is written as.
    ghost figure: { Self.Plain → Self };

    ghost plain: { Self → Self.Plain };

    fn zero() -> Self
        ensures { result ≡ ops.zero };

    fn one() -> Self
        ensures { result ≡ ops.one };

    fn add(self, other: Self) -> Self
        ensures { result ≡ ops.plus self other };

    fn neg(self) -> Self
        ensures { result ≡ ops.minus self };

    fn mul(self, other: Self) -> Self
        ensures { result ≡ ops.times self other };

    // No `From` and `Into`: for a slope they would meet the library's `From` of a type for itself.
    fn from_plain(written: Self::Plain) -> Self
        ensures { result ≡ figure written };

    fn to_plain(self) -> Self::Plain
        ensures { result ≡ plain self };

    // A kind may do the next two in fewer steps; it need not.
    /// The sum of so many copies of a figure.
    fn multiple(self, times: u64) -> Self
        ensures { result ≡ multiple ops times self }
    {
        // By doubling and adding, in at most 64 rounds.
        let mut left = times;
        let mut doubled = self;
        let mut sum = Self::zero();
        while left > 0 {
            if left % 2 == 1 {
                sum = sum.add(doubled);
            }
            doubled = doubled.add(doubled);
            left /= 2;
        }
        sum
    }

    /// a · b + c · d.
    fn sum_of_products(a: Self, b: Self, c: Self, d: Self) -> Self
        ensures { result ≡ ops.plus (ops.times a b) (ops.times c d) }
    {
        a.mul(b).add(c.mul(d))
    }

    // What each kind owes, and all that generic code may use of the arithmetic.
    ghost laws: { Laws ops };

    ghost back: { (x : Self) → figure (plain x) ≡ x };
}

/// A kind whose figures go into reply records.
pub trait Packable: Ring {
    /// The kind's number in a record, and how many bits its figures have there.
    // A number, not an enum: it goes into the record as it is.
    const KIND: u8;

    const WIDTH: u32;

    ghost KIND: { ℕ };

    ghost WIDTH: { ℕ };

    // The number that a figure is packed as.
    ghost bits: { Self → ℕ };

    // No `Into`: a slope's rate is left out.
    fn reply_bits(self) -> u64
        ensures { result ≡ bits self };

    ghost admitted: { (x : Self) → Admitted KIND WIDTH (bits x) };
}
