//! Questions against the row: every count that may be asked for and the next, of rosters of every size, over each kind.
use crate::kinds::Remainder;
use crate::tests::{Sample, draw, stale, told};
use figures::{Dual, Residue, Ring, Scenarios, Word};
use roster::{Cell, Refusal, Roster, Slip, close, take_into_use};
use std::process::Abort;

/// The next figure of a fixed sequence: any, or bits from some place on, so that as scenarios some hold seldom and some mostly.
fn drawn<F: Ring>(state: &mut u64, any: bool) -> F
where
    F::Plain: Sample,
{
    let bits = draw(state);
    let bits = if any { bits } else { u64::MAX << (bits % 64) };
    F::from_plain(F::Plain::drawn(bits))
}

/// Whether the answer is this figure, told by the plain form.
fn answered<F: Ring>(answer: Result<F, Refusal>, figure: F) -> bool
where
    F::Plain: Sample,
{
    answer.map_or(false, |given| given.to_plain() == figure.to_plain())
}

/// How many answers were compared at one count: exactly, and at least.
fn compared<F: Ring>(rt: &impl Abort, group: &Roster<F>, k: u32, exactly: F, at_least: F) -> u32
where
    F::Plain: Sample,
{
    assert!(rt; answered(group.exactly(k), exactly), "exactly {k}");
    assert!(rt; answered(group.at_least(k), at_least), "at least {k}");
    2
}

/// Both questions at every count: the row's entry, and the sum of the entries from there on. Past the row both are zero.
fn all_counts<F: Ring>(rt: &impl Abort, group: &Roster<F>, row: &[F::Plain]) -> u32
where
    F::Plain: Sample,
{
    let mut count = 0u32;
    let mut tail = F::zero();
    for k in (0..=64).rev() {
        let entry = row.get(k as usize).map_or(F::zero(), |x| F::from_plain(*x));
        tail = tail.add(entry);
        count = count.wrapping_add(compared(rt, group, k, entry, tail));
    }
    assert_eq!(rt; (told(group.exactly(65)), told(group.at_least(65))), (5, 5));
    count.wrapping_add(2)
}

/// The same for the row of the lives that there are.
fn asked<F: Ring>(rt: &impl Abort, group: &Roster<F>, table: &mut [F::Plain]) -> u32
where
    F::Plain: Sample,
{
    let n = group.lives();
    assert!(rt; n < table.len());
    let row = &mut table[..=n];
    assert_eq!(rt; told(group.composed_row(row)), 0);
    all_counts(rt, group, row)
}

/// A roster that grows from no life to 64, of figures that differ, and a whole that is not one.
fn grown<F: Ring>(
    rt: &impl Abort,
    slip: &Slip,
    cells: &mut [Cell<F::Plain>],
    table: &mut [F::Plain],
    any: bool,
) -> u32
where
    F::Plain: Sample,
{
    let mut state = 1908;
    let mut group = Roster::open(slip, cells, drawn::<F>(&mut state, true));
    let mut count = asked(rt, &group, table);
    for number in 1..=64 {
        let figure = drawn(&mut state, any);
        assert_eq!(rt; told(group.join(number, figure)), 0);
        count = count.wrapping_add(asked(rt, &group, table));
    }
    count
}

/// Two questions at 66 counts, of rosters of 65 sizes.
const COMPARED: u32 = 2 * 66 * 65;

// Cells and table are lent, since here it is not known how large they are.
fn questions<F: Ring>(rt: &impl Abort, cells: &mut [Cell<F::Plain>], table: &mut [F::Plain])
where
    F::Plain: Sample,
{
    let slip = take_into_use(cells);
    for any in [true, false] {
        let count = grown::<F>(rt, &slip, cells, table, any);
        assert_eq!(rt; count, COMPARED);
    }
    // They are as many as were taken into use, so closing is not refused.
    match close::<F>(cells, slip) {
        Ok(()) => {}
        Err(_) => unreachable(),
    }
}

/// A slope whose parts are both this.
pub(crate) fn both<P: Copy>(part: P) -> Dual<P> {
    Dual {
        value: part,
        rate: part,
    }
}

#[test]
fn questions_of_words(rt: HostRuntime) {
    // More cells than lives can be in.
    questions::<Word>(&rt, &mut [stale(7); 70], &mut [7; 65]);
    let seven = both(7);
    questions::<Dual<Word>>(&rt, &mut [stale(seven); 65], &mut [seven; 65]);
}

#[test]
fn questions_of_residues(rt: HostRuntime) {
    questions::<Residue>(&rt, &mut [stale(7); 65], &mut [7; 65]);
    let seven = both(7);
    questions::<Dual<Residue>>(&rt, &mut [stale(seven); 65], &mut [seven; 65]);
    let seven = both(seven);
    questions::<Dual<Dual<Residue>>>(&rt, &mut [stale(seven); 65], &mut [seven; 65]);
}

#[test]
fn questions_of_scenarios(rt: HostRuntime) {
    questions::<Scenarios>(&rt, &mut [stale(7); 65], &mut [7; 65]);
    let seven = both(7);
    questions::<Dual<Scenarios>>(&rt, &mut [stale(seven); 65], &mut [seven; 65]);
}

#[test]
fn questions_of_remainders(rt: HostRuntime) {
    questions::<Remainder>(&rt, &mut [stale(7); 65], &mut [7; 65]);
}
