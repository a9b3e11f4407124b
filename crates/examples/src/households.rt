//! The row of two households: against the row of one roster that all their lives joined, and against sums of products, over
//! each kind; and its limits and refusals.
use crate::kinds::{Remainder, Zero};
use crate::questions::both;
use crate::tests::{Sample, draw, stale, told};
use figures::{Dual, Residue, Ring, Scenarios, Word};
use roster::{Cell, Roster, Slip, close, take_into_use};
use rows::{Refusal, households_row};
use std::process::Abort;

/// Room for more than a row of 64 lives.
const ROOM: usize = 70;

/// A call's outcome as a number: 0 where it was granted, else the refusal's.
fn number(res: Result<(), Refusal>) -> u32 {
    res.map_or_else(|refusal| refusal.number(), |_| 0)
}

/// Fills a table with the next plain forms of a fixed sequence. Those of check figures may be the modulus and more.
fn fill<P: Sample>(state: &mut u64, table: &mut [P]) {
    for entry in table.iter_mut() {
        *entry = P::drawn(draw(state));
    }
}

/// The sum of the products of an entry of each row whose places add up to k.
fn products<F: Ring>(first: &[F::Plain], second: &[F::Plain], k: usize) -> F {
    let mut sum = F::zero();
    for (i, x) in first.iter().enumerate() {
        for (j, y) in second.iter().enumerate() {
            if i.wrapping_add(j) == k {
                sum = sum.add(F::from_plain(*x).mul(F::from_plain(*y)));
            }
        }
    }
    sum
}

/// How many entries of the output are these sums, up to `size`, and as before behind it.
fn agreeing<F: Ring>(
    first: &[F::Plain],
    second: &[F::Plain],
    size: usize,
    before: &[F::Plain],
    output: &[F::Plain],
) -> usize
where
    F::Plain: Sample,
{
    let mut count = 0usize;
    for (k, (old, new)) in before.iter().zip(output).enumerate() {
        let wanted = if k < size {
            products::<F>(first, second, k).to_plain()
        } else {
            *old
        };
        if *new == wanted {
            count = count.wrapping_add(1);
        }
    }
    count
}

/// One call, into an output that held the same as `before`: what came of it, and how many entries are as they should be.
fn called<F: Ring>(
    first: &[F::Plain],
    second: &[F::Plain],
    before: &[F::Plain],
    output: &mut [F::Plain],
) -> (u32, usize)
where
    F::Plain: Sample,
{
    let came = number(households_row::<F>(first, second, output));
    let size = if came == 0 {
        first.len().wrapping_add(second.len()).wrapping_sub(1)
    } else {
        0
    };
    (came, agreeing::<F>(first, second, size, before, output))
}

#[test]
fn one_life_and_two(rt: HostRuntime) {
    let mut output = [7; 5];
    assert_eq!(rt;
        number(households_row::<Word>(&[1, 9], &[10, 50, 40], &mut output)),
        0
    );
    assert_eq!(rt; output, [10, 140, 490, 360, 7]);
}

/// The same rows of check figures, each also with the modulus added to its figures. Entries behind the row stay, though past the modulus.
#[test]
fn rows_past_the_modulus(rt: HostRuntime) {
    for first in [[1, 9], [2147483648, 2147483656]] {
        for second in [[10, 50, 40], [2147483657, 2147483697, 2147483687]] {
            let mut output = [4294967295; 6];
            assert_eq!(rt;
                number(households_row::<Residue>(&first, &second, &mut output)),
                0
            );
            assert_eq!(rt; output, [10, 140, 490, 360, 4294967295, 4294967295]);
            let mut short = [4294967295; 3];
            assert_eq!(rt;
                number(households_row::<Residue>(&first, &second, &mut short)),
                6
            );
            assert_eq!(rt; short, [4294967295; 3]);
        }
    }
}

/// How many entries the two rows and the output have, and what comes of the call.
const OUTCOMES: [(usize, usize, usize, u32); 31] = [
    // no entry in the first, in the second, in both; the same beside too many lives, a short output, and both
    (0, 2, 5, 19),
    (2, 0, 5, 19),
    (0, 0, 5, 19),
    (0, 66, 70, 19),
    (66, 0, 70, 19),
    (0, 3, 0, 19),
    (3, 0, 0, 19),
    (0, 0, 0, 19),
    (0, 70, 1, 19),
    (70, 0, 1, 19),
    // over 64 lives, and the same beside a short output
    (33, 34, 70, 20),
    (66, 1, 70, 20),
    (1, 66, 70, 20),
    (33, 34, 65, 20),
    (66, 1, 65, 20),
    (1, 66, 0, 20),
    (70, 70, 70, 20),
    // an output with no entry, and one short
    (1, 1, 0, 6),
    (2, 3, 0, 6),
    (2, 3, 3, 6),
    (1, 4, 3, 6),
    (4, 1, 3, 6),
    (33, 33, 64, 6),
    // granted: an output just as long, and longer
    (1, 1, 1, 0),
    (1, 4, 4, 0),
    (4, 1, 5, 0),
    (2, 3, 4, 0),
    (33, 33, 65, 0),
    (33, 33, 70, 0),
    (65, 1, 66, 0),
    (1, 65, 65, 0),
];

#[test]
fn limits_and_refusals(rt: HostRuntime) {
    let mut state = 1960;
    let mut first = [0; ROOM];
    let mut second = [0; ROOM];
    let mut before = [0; ROOM];
    fill(&mut state, &mut first);
    fill(&mut state, &mut second);
    fill(&mut state, &mut before);
    for (n, m, size, wanted) in OUTCOMES {
        assert!(rt; n <= ROOM && m <= ROOM && size <= ROOM);
        let mut output = before;
        let came = called::<Residue>(
            &first[..n],
            &second[..m],
            &before[..size],
            &mut output[..size],
        );
        assert_eq!(rt; came, (wanted, size), "{n}, {m} into {size}");
        assert!(rt; output[size..] == before[size..]);
    }
}

/// How many lives two households have.
const SIZES: [(usize, usize); 14] = [
    (0, 0),
    (0, 1),
    (1, 0),
    (1, 1),
    (2, 3),
    (5, 4),
    (0, 7),
    (7, 0),
    (0, 64),
    (64, 0),
    (1, 63),
    (63, 1),
    (32, 32),
    (40, 24),
];

/// Fills a row: as many lives as it is for join, with the next figures of the sequence.
fn compose<F: Ring>(rt: &impl Abort, group: &mut Roster<F>, state: &mut u64, row: &mut [F::Plain])
where
    F::Plain: Sample,
{
    assert!(rt; row.len() <= 65);
    group.clear();
    for i in 1..row.len() {
        let figure = F::from_plain(F::Plain::drawn(draw(state)));
        assert_eq!(rt; told(group.join(i as u32, figure)), 0);
    }
    assert_eq!(rt; told(group.composed_row(row)), 0);
}

/// Two households, against a roster that the same lives join. Behind the row the output stays.
fn against_a_roster<F: Ring>(
    rt: &impl Abort,
    group: &mut Roster<F>,
    state: &mut u64,
    first: &mut [F::Plain],
    second: &mut [F::Plain],
    wanted: &mut [F::Plain],
    output: &mut [F::Plain],
)
where
    F::Plain: Sample,
{
    let size = first.len().wrapping_add(second.len()).wrapping_sub(1);
    assert!(rt; output.len() == wanted.len() && size <= wanted.len());
    fill(state, wanted);
    output.copy_from_slice(wanted);
    let mut again = *state;
    compose(rt, group, state, first);
    compose(rt, group, state, second);
    compose(rt, group, &mut again, &mut wanted[..size]);
    assert_eq!(rt; number(households_row::<F>(first, second, output)), 0);
    assert!(rt;
        &*output == &*wanted,
        "rows of {} and {}",
        first.len(),
        second.len()
    );
}

/// Rows of any figures, against sums of products.
fn against_products<F: Ring>(
    rt: &impl Abort,
    state: &mut u64,
    first: &mut [F::Plain],
    second: &mut [F::Plain],
    before: &mut [F::Plain],
    output: &mut [F::Plain],
)
where
    F::Plain: Sample,
{
    fill(state, first);
    fill(state, second);
    fill(state, before);
    assert!(rt; output.len() == before.len());
    output.copy_from_slice(before);
    let came = called::<F>(first, second, before, output);
    assert_eq!(rt;
        came,
        (0, before.len()),
        "rows of {} and {}",
        first.len(),
        second.len()
    );
}

/// Both comparisons, at every size, over a kind. The room is cut into four tables.
fn all_sizes<F: Ring>(
    rt: &impl Abort,
    slip: &Slip,
    cells: &mut [Cell<F::Plain>],
    room: &mut [F::Plain],
)
where
    F::Plain: Sample,
{
    assert!(rt; room.len() == 4 * ROOM);
    let (first, room) = room.split_at_mut(ROOM);
    let (second, room) = room.split_at_mut(ROOM);
    let (wanted, output) = room.split_at_mut(ROOM);
    let mut state = 1961;
    let whole = F::from_plain(F::Plain::drawn(draw(&mut state)));
    let mut group = Roster::open(slip, cells, whole);
    for (n, m) in SIZES {
        assert!(rt; n <= 64 && m <= 64);
        let first = &mut first[..=n];
        let second = &mut second[..=m];
        against_a_roster(rt, &mut group, &mut state, first, second, wanted, output);
        against_products::<F>(rt, &mut state, first, second, wanted, output);
    }
}

// Cells and tables are lent, since here it is not known how large they are.
fn households<F: Ring>(rt: &impl Abort, cells: &mut [Cell<F::Plain>], room: &mut [F::Plain])
where
    F::Plain: Sample,
{
    let slip = take_into_use(cells);
    all_sizes::<F>(rt, &slip, cells, room);
    // They are as many as were taken into use, so closing is not refused.
    match close::<F>(cells, slip) {
        Ok(()) => {}
        Err(_) => unreachable(),
    }
}

#[test]
fn households_of_words(rt: HostRuntime) {
    households::<Word>(&rt, &mut [stale(7); 65], &mut [7; 4 * ROOM]);
    let seven = both(7);
    households::<Dual<Word>>(&rt, &mut [stale(seven); 65], &mut [seven; 4 * ROOM]);
}

#[test]
fn households_of_residues(rt: HostRuntime) {
    households::<Residue>(&rt, &mut [stale(7); 65], &mut [7; 4 * ROOM]);
    let seven = both(7);
    households::<Dual<Residue>>(&rt, &mut [stale(seven); 65], &mut [seven; 4 * ROOM]);
    let seven = both(seven);
    households::<Dual<Dual<Residue>>>(&rt, &mut [stale(seven); 65], &mut [seven; 4 * ROOM]);
}

#[test]
fn households_of_scenarios(rt: HostRuntime) {
    households::<Scenarios>(&rt, &mut [stale(7); 65], &mut [7; 4 * ROOM]);
    let seven = both(7);
    households::<Dual<Scenarios>>(&rt, &mut [stale(seven); 65], &mut [seven; 4 * ROOM]);
}

#[test]
fn households_of_remainders(rt: HostRuntime) {
    households::<Remainder>(&rt, &mut [stale(7); 65], &mut [7; 4 * ROOM]);
}

/// How many entries two rows have, and what comes of the call. The lives of the first four pairs together fit no number; cut
/// to 64 bits they would be none, but for the first.
const LONG: [(usize, usize, u32); 8] = [
    (usize::MAX, usize::MAX, 20),
    (usize::MAX, 3, 20),
    (3, usize::MAX, 20),
    (0x8000000000000001, 0x8000000000000001, 20),
    (usize::MAX, 0, 19),
    (0, usize::MAX, 19),
    (3, 2, 6),
    (2, 2, 0),
];

#[test]
fn rows_that_take_no_memory(rt: HostRuntime) {
    let longest = [(); usize::MAX];
    for (n, m, wanted) in LONG {
        let came = households_row::<Zero>(&longest[..n], &longest[..m], &mut [(); 3]);
        assert_eq!(rt; number(came), wanted, "{n} and {m} entries");
    }
}
