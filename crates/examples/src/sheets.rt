//! Exact counts: against whole numbers of 128 bits, by the bits of the floats; and their limits and refusals.
use crate::tests::draw;
use counts::count_exactly;
use std::num::{f64_from_bits_with_nan, f64_to_bits_with_nan};
use std::process::Abort;

/// Room for more than a row of 64 lives.
const ROOM: usize = 70;

/// What comes of a call: the bits of the count and of the denominator, or the refusal's number and place.
type Outcome = Result<(u64, u64), (u32, Option<usize>)>;

/// A call, made.
fn made(lives: &[u32], whole: u32, k: u32, work: &mut [f64]) -> Outcome {
    match count_exactly(lives, whole, k, work) {
        Ok(chance) => Ok((
            f64_to_bits_with_nan(chance.count),
            f64_to_bits_with_nan(chance.denominator),
        )),
        Err(refusal) => Err((refusal.number(), refusal.place())),
    }
}

/// The bits of the float that is exactly n, for n up to 2^53: without a float.
fn float_bits(n: u128) -> u64 {
    if n == 0 {
        return 0;
    }
    let lead = n.leading_zeros().min(127);
    // The digits behind the first one.
    let fraction = ((n << lead) >> 75) % (1 << 52);
    (((1150 - lead) as u64) << 52) | (fraction as u64)
}

/// d to the power n, as far as 128 bits hold it.
fn power(whole: u32, n: usize) -> u128 {
    let mut power = 1u128;
    for _ in 0..n {
        power = power.saturating_mul(u128::from(whole));
    }
    power
}

/// The row, composed in whole numbers.
fn composed(lives: &[u32], whole: u32) -> [u128; ROOM] {
    let mut row = [0u128; ROOM];
    row[0] = 1;
    for p in lives {
        let alive = u128::from(*p);
        let dead = u128::from(whole.wrapping_sub(*p));
        let mut below = 0u128;
        for entry in row.iter_mut() {
            let here = *entry;
            *entry = alive
                .wrapping_mul(below)
                .wrapping_add(dead.wrapping_mul(here));
            below = here;
        }
    }
    row
}

/// The product over a survival pattern: of p for each life that has a one in it, and of d − p for the others.
fn product(lives: &[u32], whole: u32, pattern: u32) -> u128 {
    let mut product = 1u128;
    let mut left = pattern;
    for p in lives {
        let factor = if left % 2 == 1 {
            *p
        } else {
            whole.wrapping_sub(*p)
        };
        product = product.wrapping_mul(u128::from(factor));
        left /= 2;
    }
    product
}

/// The most lives of a list whose patterns are gone through.
const SHORT: usize = 10;

/// Exactly k alive, over all survival patterns of a short list.
fn by_patterns(lives: &[u32], whole: u32, k: u32) -> u128 {
    let mut sum = 0u128;
    for pattern in 0..1u32 << SHORT {
        if pattern.count_ones() == k && u128::from(pattern) < power(2, lives.len()) {
            sum = sum.wrapping_add(product(lives, whole, pattern));
        }
    }
    sum
}

/// The refusal that is due, worked in whole numbers.
fn refused(lives: &[u32], whole: u32, k: u32, entries: usize) -> Option<(u32, Option<usize>)> {
    if lives.len() > 64 {
        return Some((8, None));
    }
    if !(1..=1_000_000_000).contains(&whole) {
        return Some((21, None));
    }
    for (i, p) in lives.iter().enumerate() {
        if *p > whole {
            return Some((22, Some(i)));
        }
    }
    if power(whole, lives.len()) > 9_007_199_254_740_992 {
        Some((23, None))
    } else if k > 64 {
        Some((5, None))
    } else if entries < lives.len().wrapping_add(1) {
        Some((10, None))
    } else {
        None
    }
}

/// The outcome that is due, worked in whole numbers; the bits of the table become those that it then holds.
fn due(lives: &[u32], whole: u32, k: u32, table: &mut [u64]) -> Outcome {
    if let Some(refusal) = refused(lives, whole, k, table.len()) {
        return Err(refusal);
    }
    let row = composed(lives, whole);
    // They are at most 64.
    for (entry, count) in table.iter_mut().zip(&row[..=lives.len().min(64)]) {
        *entry = float_bits(*count);
    }
    let count = row.get(k as usize).copied().unwrap_or(0);
    Ok((float_bits(count), float_bits(power(whole, lives.len()))))
}

/// The bits of a zero below zero, of a float that is no number, and of the infinities.
const ODD: [u64; 4] = [
    0x8000000000000000,
    0x7ff8000000000000,
    0x7ff0000000000000,
    0xfff0000000000000,
];

/// A float of the next bits of a fixed sequence, which is often an odd one.
fn next_float(state: &mut u64) -> f64 {
    let place = draw(state) % 16;
    let bits = draw(state);
    f64_from_bits_with_nan(ODD.get(place as usize).copied().unwrap_or(bits))
}

/// The bits of a table's floats.
fn bits(table: &[f64], into: &mut [u64]) {
    for (entry, float) in into.iter_mut().zip(table) {
        *entry = f64_to_bits_with_nan(*float);
    }
}

/// Makes a call, into a table of so many odd floats, and finds the outcome and each entry afterwards as they are due.
fn agreed(
    rt: &impl Abort,
    state: &mut u64,
    lives: &[u32],
    whole: u32,
    k: u32,
    entries: usize,
) -> Outcome {
    assert!(rt; entries <= ROOM);
    let mut work = [0.0; ROOM];
    for entry in work.iter_mut() {
        *entry = next_float(state);
    }
    let mut wanted = [0u64; ROOM];
    bits(&work, &mut wanted);
    let outcome = due(lives, whole, k, &mut wanted[..entries]);
    let came = made(lives, whole, k, &mut work[..entries]);
    let mut held = [0u64; ROOM];
    bits(&work, &mut held);
    assert_eq!(rt;
        came,
        outcome,
        "{} lives against {whole}, k {k}, {entries} entries",
        lives.len()
    );
    assert!(rt;
        held == wanted,
        "the table of {} lives against {whole}, k {k}, {entries} entries",
        lives.len()
    );
    came
}

#[test]
fn lives_of_a_sheet(rt: HostRuntime) {
    let mut work = [0.5; 5];
    let came = made(&[9, 8, 5], 10, 2, &mut work);
    assert_eq!(rt; came, Ok((float_bits(490), float_bits(1000))));
    assert!(rt; work == [10.0, 140.0, 490.0, 360.0, 0.5]);
    let mut work = [0.5; 1];
    assert_eq!(rt;
        made(&[], 7, 0, &mut work),
        Ok((float_bits(1), float_bits(1)))
    );
    assert!(rt; work == [1.0]);
}

/// The bits of whole numbers, against floats that are written in decimal.
#[test]
fn bits_of_whole_numbers(rt: HostRuntime) {
    for (n, float) in [
        (0, 0.0),
        (1, 1.0),
        (3, 3.0),
        (490, 490.0),
        (9007199254740991, 9007199254740991.0),
        (9007199254740992, 9007199254740992.0),
    ] {
        assert_eq!(rt; float_bits(n), f64_to_bits_with_nan(float), "{n}");
    }
}

/// So many equal lives of this figure, against d, at k, into so many entries; and the number of the refusal, 0 where it is granted.
const CASES: [(usize, u32, u32, u32, usize, u32); 61] = [
    // too many lives; and the same beside each other refusal
    (65, 1, 1, 0, 66, 8),
    (66, 1, 1, 0, 70, 8),
    (65, 0, 0, 0, 66, 8),
    (65, 1, 1_000_000_001, 0, 66, 8),
    (65, 2, 1, 0, 66, 8),
    (65, 1, 2, 0, 66, 8),
    (65, 1, 1, 65, 66, 8),
    (65, 1, 1, 0, 65, 8),
    (65, 1, 1, 0, 0, 8),
    (65, 3, 2, 65, 0, 8),
    // d outside; beside a life above it, a power above 2^53 (which no power of 0 is), k, a short table, and all of them
    (0, 0, 0, 0, 1, 21),
    (2, 0, 0, 0, 3, 21),
    (1, 5, 1_000_000_001, 0, 2, 21),
    (1, 5, u32::MAX, 0, 2, 21),
    (2, 1, 0, 0, 3, 21),
    (2, 1_000_000_002, 1_000_000_001, 0, 3, 21),
    (2, 5, 1_000_000_001, 0, 3, 21),
    (2, 0, 0, 65, 3, 21),
    (1, 5, 1_000_000_001, 65, 2, 21),
    (2, 0, 0, 0, 2, 21),
    (1, 5, 1_000_000_001, 0, 1, 21),
    (2, u32::MAX, 1_000_000_001, 65, 0, 21),
    // a life above d; beside a power above 2^53, k, a short table, and all of them
    (1, 11, 10, 0, 2, 22),
    (1, 1_000_000_001, 1_000_000_000, 0, 2, 22),
    (1, u32::MAX, 1, 0, 2, 22),
    (2, 94_906_267, 94_906_266, 0, 3, 22),
    (2, 11, 10, 65, 3, 22),
    (2, 11, 10, 0, 2, 22),
    (54, 3, 2, 65, 0, 22),
    // a power above 2^53; beside k, a short table, and both
    (54, 1, 2, 0, 55, 23),
    (64, 1, 2, 0, 65, 23),
    (34, 1, 3, 0, 35, 23),
    (2, 1, 94_906_266, 0, 3, 23),
    (2, 1_000_000_000, 1_000_000_000, 0, 3, 23),
    (64, 1_000_000_000, 1_000_000_000, 0, 65, 23),
    (54, 1, 2, 65, 55, 23),
    (54, 1, 2, 0, 54, 23),
    (2, 1, 94_906_266, 65, 0, 23),
    // k above 64; beside a short table
    (3, 5, 10, 65, 4, 5),
    (3, 5, 10, u32::MAX, 4, 5),
    (0, 0, 1, 65, 1, 5),
    (3, 5, 10, 65, 3, 5),
    (0, 0, 1, 65, 0, 5),
    // a table with no entry, and one short
    (0, 0, 1, 0, 0, 10),
    (3, 5, 10, 2, 3, 10),
    (3, 5, 10, 2, 0, 10),
    (53, 1, 2, 0, 53, 10),
    (64, 1, 1, 0, 64, 10),
    // granted: no life; the smallest d and the largest; 2^53 itself; n + 1, n + 2 and more entries; k of n, n + 1 and 64
    (0, 0, 7, 0, 1, 0),
    (0, 0, 1_000_000_000, 64, 2, 0),
    (1, 0, 1, 0, 2, 0),
    (64, 1, 1, 64, 65, 0),
    (64, 0, 1, 64, 70, 0),
    (1, 1_000_000_000, 1_000_000_000, 1, 2, 0),
    (1, 5, 1_000_000_000, 2, 3, 0),
    (53, 1, 2, 26, 54, 0),
    (53, 2, 2, 53, 55, 0),
    (53, 0, 2, 54, 70, 0),
    (33, 1, 3, 11, 34, 0),
    (2, 1, 94_906_265, 0, 3, 0),
    (2, 94_906_265, 94_906_265, 2, 5, 0),
];

#[test]
fn limits_and_refusals(rt: HostRuntime) {
    let mut state = 1968;
    for (n, life, whole, k, entries, number) in CASES {
        let lives = [life; ROOM];
        assert!(rt; n <= ROOM);
        let came = agreed(&rt, &mut state, &lives[..n], whole, k, entries);
        let came = came.map_or_else(|refusal| refusal.0, |_| 0);
        assert_eq!(rt;
            came,
            number,
            "{n} lives of {life} against {whole}, k {k}, {entries} entries"
        );
    }
}

/// The first life above d, of lists against 10.
const PLACES: [(&[u32], Option<usize>); 7] = [
    (&[11], Some(0)),
    (&[11, 12, 11], Some(0)),
    (&[10, 11, 0, 12], Some(1)),
    (&[0, 10, 4294967295, 11], Some(2)),
    (&[10, 10, 10, 11], Some(3)),
    (&[10, 0, 10, 0], None),
    (&[], None),
];

#[test]
fn lives_above_the_whole(rt: HostRuntime) {
    let mut state = 1969;
    for (lives, place) in PLACES {
        let came = agreed(&rt, &mut state, lives, 10, 1, 6);
        assert_eq!(rt; came.err(), place.map(|i| (22, Some(i))));
    }
    // the last of 64
    let mut lives = [1; 64];
    lives[63] = 2;
    let came = agreed(&rt, &mut state, &lives, 1, 0, 65);
    assert_eq!(rt; came, Err((22, Some(63))));
}

/// 53 lives of 1 against 2 have the binomial coefficients for their row, and 2^53 for their denominator.
#[test]
fn binomial_coefficients(rt: HostRuntime) {
    let mut work = [0.5; 54];
    let mut coefficient = 1u128;
    for k in 0..54u32 {
        let came = made(&[1; 53], 2, k, &mut work);
        let wanted = float_bits(coefficient);
        assert_eq!(rt;
            came,
            Ok((wanted, float_bits(9_007_199_254_740_992))),
            "k {k}"
        );
        assert_eq!(rt; f64_to_bits_with_nan(work[k as usize]), wanted, "entry {k}");
        coefficient = coefficient.wrapping_mul(u128::from(53 - k)) / u128::from(k + 1);
    }
}

/// The largest d whose power is at most 2^53, up to 1,000,000,000.
fn root(n: usize) -> u32 {
    let mut root = 0u32;
    for bit in (0..30u32).rev() {
        let more = root | (1 << bit);
        if more <= 1_000_000_000 && power(more, n) <= 9_007_199_254_740_992 {
            root = more;
        }
    }
    root
}

/// The next d for n lives: about the largest that is granted, or small, or any.
fn next_whole(state: &mut u64, n: usize) -> u32 {
    let any = draw(state);
    match draw(state) % 8 {
        0 => (any % 4) as u32,
        1 => (any % 1_000_000_002) as u32,
        _ => root(n).saturating_add((any % 4) as u32).saturating_sub(2),
    }
}

/// The next life: mostly up to d, now and then the next number.
fn next_life(state: &mut u64, whole: u32) -> u32 {
    let any = draw(state);
    match draw(state) % 128 {
        0 => whole.saturating_add(1),
        1..16 => 0,
        16..32 => whole,
        _ => (any % u64::from(whole.max(1))) as u32,
    }
}

/// The next number of lives: mostly few.
fn next_size(state: &mut u64) -> usize {
    let any = draw(state);
    if draw(state) % 2 == 0 {
        (any % 12) as usize
    } else {
        (any % 66) as usize
    }
}

/// One random call, as it is due; of a short list, also the count by patterns. Whether it was granted.
fn random_call(rt: &impl Abort, state: &mut u64) -> bool {
    let n = next_size(state).min(65);
    let whole = next_whole(state, n);
    let mut lives = [0; 65];
    for life in lives.iter_mut() {
        *life = next_life(state, whole);
    }
    let lives = &lives[..n];
    let k = (draw(state) % 66).min(draw(state) % 66) as u32;
    let entries = n.wrapping_add((draw(state) % 5) as usize);
    match agreed(rt, state, lives, whole, k, entries) {
        Ok((count, _)) => {
            if n <= SHORT {
                assert_eq!(rt; count, float_bits(by_patterns(lives, whole, k)));
            }
            true
        }
        Err(_) => false,
    }
}

/// Random calls, and how many of them were granted.
#[test]
fn random_lists(rt: HostRuntime) {
    let mut state = 1970;
    let mut granted = 0u32;
    for _ in 0..20_000 {
        if random_call(&rt, &mut state) {
            granted = granted.wrapping_add(1);
        }
    }
    assert_eq!(rt; granted, 8658);
}
