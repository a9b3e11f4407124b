//! Multiples against additions, and sums of two products against products and a sum, over each kind.
use crate::kinds::Remainder;
use crate::tests::{Sample, draw};
use figures::{Dual, Residue, Ring, Scenarios, Word};
use std::process::Abort;

/// The ends of words, and residues about their modulus: in both halves, since a slope's rate takes the other.
const ENDS: [u64; 5] = [
    0,
    u64::MAX,
    0x7ffffffe_7ffffffe,
    0x7fffffff_7fffffff,
    0x80000000_80000000,
];

/// The next figure of a fixed sequence. One in four is of an end.
fn drawn<F: Ring>(state: &mut u64) -> F
where
    F::Plain: Sample,
{
    let place = (draw(state) % 20) as usize;
    let other = draw(state);
    F::from_plain(F::Plain::drawn(ENDS.get(place).copied().unwrap_or(other)))
}

/// Whether two figures are one, told by the plain form.
fn same<F: Ring>(x: F, y: F) -> bool
where
    F::Plain: Sample,
{
    x.to_plain() == y.to_plain()
}

/// Small multiples, by adding again and again; and those by powers of two, by doubling.
fn added<F: Ring>(rt: &impl Abort, x: F) -> u32
where
    F::Plain: Sample,
{
    let mut count = 0u32;
    let mut sum = F::zero();
    for n in 0..70 {
        assert!(rt; same(x.multiple(n), sum), "{n} times");
        sum = sum.add(x);
        count = count.wrapping_add(1);
    }
    let mut doubled = x;
    for power in 0..64u32 {
        assert!(rt; same(x.multiple(1 << power), doubled), "2^{power} times");
        doubled = doubled.add(doubled);
        count = count.wrapping_add(1);
    }
    count
}

const LARGE: [u64; 8] = [
    1,
    1000003,
    2147483646,
    2147483647,
    4294967296,
    1832624140942590534,
    9223372036854775807,
    9223372036854775808,
];

/// Large multiples, by parts. Only 2^63 and itself are more than a 64-bit number together.
fn split<F: Ring>(rt: &impl Abort, x: F) -> u32
where
    F::Plain: Sample,
{
    let mut count = 0u32;
    for n in LARGE {
        for m in LARGE {
            if let Some(both) = n.checked_add(m) {
                let parts = x.multiple(n).add(x.multiple(m));
                assert!(rt; same(x.multiple(both), parts), "{n} and {m} times");
                count = count.wrapping_add(1);
            }
        }
    }
    count
}

/// A sum of two products, against the products and their sum.
fn products<F: Ring>(rt: &impl Abort, a: F, b: F, c: F, d: F) -> u32
where
    F::Plain: Sample,
{
    assert!(rt; same(F::sum_of_products(a, b, c, d), a.mul(b).add(c.mul(d))));
    1
}

const FEW: [u64; 4] = [0, 1, 0x7ffffffe_7ffffffe, u64::MAX];

fn one_of_few<F: Ring>(i: usize) -> F
where
    F::Plain: Sample,
{
    F::from_plain(F::Plain::drawn(FEW[i % 4]))
}

/// Of any four of these. As a number, the sum of some is a residue's modulus, and of others the largest that there is.
fn products_of_few<F: Ring>(rt: &impl Abort) -> u32
where
    F::Plain: Sample,
{
    let mut count = 0u32;
    for i in 0..256 {
        let a: F = one_of_few(i);
        let b = one_of_few(i / 4);
        let c = one_of_few(i / 16);
        let d = one_of_few(i / 64);
        count = count.wrapping_add(products(rt, a, b, c, d));
    }
    count
}

/// All of them on 400 figures.
fn sums<F: Ring>(rt: &impl Abort)
where
    F::Plain: Sample,
{
    let mut state = 1959;
    let mut count = products_of_few::<F>(rt);
    for _ in 0..400 {
        let x: F = drawn(&mut state);
        let y = drawn(&mut state);
        let z = drawn(&mut state);
        let w = drawn(&mut state);
        count = count
            .wrapping_add(added(rt, x))
            .wrapping_add(split(rt, x))
            .wrapping_add(products(rt, x, y, z, w));
    }
    assert_eq!(rt; count, 256 + 400 * (70 + 64 + 63 + 1));
}

#[test]
fn sums_of_numbers(rt: HostRuntime) {
    sums::<Word>(&rt);
    sums::<Residue>(&rt);
    sums::<Scenarios>(&rt);
    sums::<Remainder>(&rt);
}

#[test]
fn sums_of_slopes(rt: HostRuntime) {
    sums::<Dual<Word>>(&rt);
    sums::<Dual<Scenarios>>(&rt);
    sums::<Dual<Residue>>(&rt);
    sums::<Dual<Dual<Residue>>>(&rt);
}
