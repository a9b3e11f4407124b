//! Run examples: a published table, a long week of calls, and a list with a call of each sort. Functions are small, since
//! a long one takes long to prove.
use figures::{Dual, Residue, Ring, Scenarios, Word};
use money::money_row;
use roster::{
    Answer, Cell, Exchange, Refusal, Request, Roster, Slip, close, replay, take_into_use,
};
use std::alloc::{AllocError, Global};
use std::process::Abort;
use std::test::Fail;

/// A call's outcome as a number: 0 where it was granted, else the refusal's.
pub(crate) fn told<T: Drop>(res: Result<T, Refusal>) -> u32 {
    res.map_or_else(|refusal| refusal.number(), |_| 0)
}

/// White and Greville (1959), table 1, rounded to billionths: the chances of ten lives, and after each life those that
/// exactly 0 to 4 are alive.
const TABLE: [(u32, &[u64]); 10] = [
    (912455317, &[87544683, 912455317]),
    (854803098, &[12711217, 207319151, 779969632]),
    (255897974, &[9458442, 157519375, 633429534, 199592649]),
    (
        130455559,
        &[8224536, 138204003, 571344408, 256189082, 26037971],
    ),
    (
        957512953,
        &[349436, 13746980, 156606860, 557954389, 246410641],
    ),
    (941221044, &[20540, 1136930, 22144134, 180197649, 539642173]),
    (894658220, &[2164, 138142, 3349866, 38793773, 218062175]),
    (461951641, &[1164, 75327, 1866205, 22420402, 135248842]),
    (146549552, &[994, 64458, 1603753, 19408194, 118713885]),
    (55035309, &[939, 60965, 1519037, 18428321, 113248565]),
];

/// How many entries of the row of these lives agree with the line, within 16 billionths.
fn agreeing(lives: &[u32], line: &[u64]) -> usize {
    let mut row = [0u64; 11];
    if money_row(lives, &mut row).is_err() {
        return 0;
    }
    row.iter()
        .zip(line)
        .filter(|(entry, listed)| entry.abs_diff(**listed) <= 16)
        .count()
}

#[test]
fn published_table(rt: HostRuntime) {
    let lives = TABLE.map(|(life, _)| life);
    let mut compared = 0usize;
    for (i, (_, line)) in TABLE.iter().enumerate() {
        assert!(rt; i < 10);
        let count = agreeing(&lives[0..i + 1], line);
        assert_eq!(rt; (i, count), (i, line.len()));
        compared = compared.wrapping_add(count);
    }
    assert_eq!(rt; compared, 44);
}

/// Plain forms that are made of a random number.
pub(crate) trait Sample: Copy + PartialEq {
    fn drawn(bits: u64) -> Self;
}

impl Sample for u64 {
    fn drawn(bits: u64) -> u64 {
        bits
    }
}

impl Sample for u32 {
    fn drawn(bits: u64) -> u32 {
        (bits % (1 << 32)) as u32
    }
}

impl<P: Sample> Sample for Dual<P> {
    fn drawn(bits: u64) -> Dual<P> {
        Dual {
            value: P::drawn(bits),
            rate: P::drawn(bits.rotate_left(32)),
        }
    }
}

/// The next number of a fixed sequence (splitmix64).
pub(crate) fn draw(state: &mut u64) -> u64 {
    *state = state.wrapping_add(0x9e3779b97f4a7c15);
    let a = (*state ^ (*state >> 30)).wrapping_mul(0xbf58476d1ce4e5b9);
    let b = (a ^ (a >> 27)).wrapping_mul(0x94d049bb133111eb);
    b ^ (b >> 31)
}

/// A question, and what came of it: ten times the call, and the refusal's number.
fn ask<F: Ring + PartialEq>(group: &Roster<F>, bits: u64, table: &mut [F::Plain]) -> u32 {
    let k = (bits % 80) as u32;
    let entries = table.len().min((bits % 66) as usize);
    let table = &mut table[0..entries];
    match (bits >> 8) % 4 {
        0 => told(group.exactly(k)).wrapping_add(40),
        1 => told(group.at_least(k)).wrapping_add(50),
        2 => told(group.composed_row(table)).wrapping_add(60),
        _ => told(group.triangle_row(table)).wrapping_add(70),
    }
}

/// A call that alters the group, likewise. A shrinking group has no joins.
fn alter<F: Ring + PartialEq>(group: &mut Roster<F>, growing: bool, bits: u64, figure: F) -> u32 {
    let number = (bits % 90) as u32;
    let which = (bits >> 8) % 12;
    if (bits >> 16) % 1024 == 0 {
        group.clear();
        30
    } else if which < 2 {
        told(group.change(number, figure)).wrapping_add(20)
    } else if growing && which < 10 {
        told(group.join(number, figure))
    } else {
        told(group.leave(number)).wrapping_add(10)
    }
}

fn count(counts: &mut [u32], place: usize) {
    if let Some(n) = counts.get_mut(place) {
        *n = n.wrapping_add(1);
    }
}

/// Every size of the group was met. Each call was granted, and met each of its refusals and no other.
fn all_met(rt: &impl Abort, sizes: &[u32], sorts: &[u32]) {
    for (size, met) in sizes.iter().enumerate() {
        assert_ne!(rt; (size, *met), (size, 0));
    }
    let mut total = 0u32;
    for sort in SORTS {
        let met = sorts.get(sort).copied().unwrap_or(0);
        assert_ne!(rt; (sort, met), (sort, 0));
        total = total.wrapping_add(met);
    }
    assert_eq!(rt; total, CALLS);
}

const CALLS: u32 = 20_000;

/// Join, leave, change, clear, exactly, at least and the two rows, ten numbers for each: 0 granted, else the refusal.
const SORTS: [usize; 19] = [
    0, 1, 2, 4, 10, 11, 13, 20, 21, 23, 30, 40, 45, 50, 55, 60, 66, 70, 76,
];

/// The row, where the four questions agree on it.
fn row_of<F: Ring + PartialEq>(rt: &impl Abort, group: &Roster<F>) -> [F::Plain; 65]
where
    F::Plain: Sample,
{
    let mut composed = [F::zero().to_plain(); 65];
    let mut triangle = composed;
    assert_eq!(rt; told(group.composed_row(&mut composed)), 0);
    assert_eq!(rt; told(group.triangle_row(&mut triangle)), 0);
    assert!(rt; composed == triangle);
    let mut tail = F::zero();
    for (k, entry) in composed.iter().enumerate().rev() {
        let exactly = F::from_plain(*entry);
        tail = tail.add(exactly);
        assert!(rt; group.exactly(k as u32) == Ok(exactly));
        assert!(rt; group.at_least(k as u32) == Ok(tail));
    }
    composed
}

/// One call with the next numbers: a question, or one that alters the group.
fn step<F: Ring + PartialEq>(
    group: &mut Roster<F>,
    growing: bool,
    state: &mut u64,
    table: &mut [F::Plain],
) -> u32
where
    F::Plain: Sample,
{
    let bits = draw(state);
    let figure = F::from_plain(F::Plain::drawn(draw(state)));
    if bits >> 62 == 0 {
        ask(group, bits, table)
    } else {
        alter(group, growing, bits, figure)
    }
}

/// The calls of a week: the group grows for 800, shrinks for 800, and ends large. The questions agree now and then.
fn live<F: Ring + PartialEq>(
    rt: &impl Abort,
    group: &mut Roster<F>,
    sizes: &mut [u32],
    sorts: &mut [u32],
) -> [F::Plain; 65]
where
    F::Plain: Sample,
{
    let mut state = 1959;
    let mut table = row_of(rt, group);
    for i in 0..CALLS {
        count(sizes, group.lives());
        let sort = step(group, i / 800 % 2 == 0, &mut state, &mut table);
        count(sorts, sort as usize);
        if i % 400 == 0 {
            table = row_of(rt, group);
        }
    }
    assert!(rt; group.lives() > 32);
    row_of(rt, group)
}

/// A group after its week: its lives are in the cells then.
fn lived<F: Ring + PartialEq>(
    rt: &impl Abort,
    slip: &Slip,
    cells: &mut [Cell<F::Plain>],
    whole: F,
) -> [F::Plain; 65]
where
    F::Plain: Sample,
{
    let mut group = Roster::open(slip, cells, whole);
    // Arrays, not maps: sizes and sorts are small numbers.
    let mut sizes = [0; 65];
    let mut sorts = [0; 80];
    let row = live(rt, &mut group, &mut sizes, &mut sorts);
    all_met(rt, &sizes, &sorts);
    row
}

/// The same lives in a roster anew, in their order. The other cells have the number 0, which is refused.
fn joined<F: Ring + PartialEq>(
    rt: &impl Abort,
    slip: &Slip,
    anew: &mut [Cell<F::Plain>],
    whole: F,
    cells: &[Cell<F::Plain>],
) -> [F::Plain; 65]
where
    F::Plain: Sample,
{
    let mut group = Roster::open(slip, anew, whole);
    for cell in cells {
        let _ = group.join(cell.number, F::from_plain(cell.figure));
    }
    row_of(rt, &group)
}

/// After a week the kept sums are those that joining the same lives anew gives, and so is the row.
fn rebuild<F: Ring + PartialEq>(
    rt: &impl Abort,
    slip: &Slip,
    cells: &mut [Cell<F::Plain>],
    anew: &mut [Cell<F::Plain>],
    whole: F,
) -> Result<[F::Plain; 65], Fail>
where
    F::Plain: Sample,
{
    let kept = lived(rt, slip, cells, whole);
    let built = joined(rt, slip, anew, whole, cells);
    assert!(rt; kept == built);
    assert!(rt; &*cells == &*anew);
    Ok(kept)
}

/// The row after a week. The cells are lent, since here it is not known how large they are.
fn week<F: Ring + PartialEq>(
    rt: &impl Abort,
    whole: F::Plain,
    cells: &mut [Cell<F::Plain>],
    anew: &mut [Cell<F::Plain>],
) -> Result<[F::Plain; 65], Fail>
where
    F::Plain: Sample,
{
    let slip = take_into_use(cells);
    let held = rebuild::<F>(rt, &slip, cells, anew, F::from_plain(whole));
    // They are as many as were taken into use, so closing is not refused.
    match close::<F>(cells, slip) {
        Ok(()) => {}
        Err(_) => unreachable(),
    }
    held
}

/// A cell that held something before.
pub(crate) fn stale<P: Copy>(figure: P) -> Cell<P> {
    Cell {
        figure,
        sum: figure,
        number: 7,
    }
}

// A test for each kind: where the kind is open, it is not known how large its cells are.
#[test]
fn week_of_words(rt: HostRuntime) -> Result<(), Fail> {
    let whole = 1_000_000_007;
    let _ = week::<Word>(&rt, whole, &mut [stale(whole); 65], &mut [stale(whole); 65])?;
    let whole = Dual {
        value: whole,
        rate: 3,
    };
    let _ = week::<Dual<Word>>(&rt, whole, &mut [stale(whole); 65], &mut [stale(whole); 65])?;
    Ok(())
}

#[test]
fn week_of_residues(rt: HostRuntime) -> Result<(), Fail> {
    let whole = 1_000_000_007;
    let _ = week::<Residue>(&rt, whole, &mut [stale(whole); 65], &mut [stale(whole); 65])?;
    let whole = Dual {
        value: whole,
        rate: 3,
    };
    let _ = week::<Dual<Residue>>(&rt, whole, &mut [stale(whole); 65], &mut [stale(whole); 65])?;
    Ok(())
}

#[test]
fn week_of_scenarios(rt: HostRuntime) -> Result<(), Fail> {
    let whole = u64::MAX;
    let _ = week::<Scenarios>(&rt, whole, &mut [stale(whole); 65], &mut [stale(whole); 65])?;
    Ok(())
}

/// A call that lets a life join.
fn join(number: u32, figure: u64) -> Exchange<Word, u64> {
    let figure = Word::from_plain(figure);
    Exchange::Asked(Request::Join { number, figure })
}

/// A call of each sort, by the lives 9, 8 and 5 of whole 10; and a figure that was answered before.
fn calls(heap: Global) -> Result<Vec<Exchange<Word, u64>>, AllocError> {
    let figure = Word::from_plain(5);
    let mut exchanges = Vec::new(heap);
    exchanges.push(join(1, 9))?;
    exchanges.push(join(2, 8))?;
    exchanges.push(join(3, 1))?;
    exchanges.push(Exchange::Answered(Ok(Answer::Figure(figure))))?;
    exchanges.push(Exchange::Asked(Request::Change { number: 3, figure }))?;
    let table = vec![in heap; 7; 5]?;
    exchanges.push(Exchange::Asked(Request::Composed { table }))?;
    let table = vec![in heap; 7; 4]?;
    exchanges.push(Exchange::Asked(Request::Triangle { table }))?;
    let table = vec![in heap; 7; 3]?;
    exchanges.push(Exchange::Asked(Request::Triangle { table }))?;
    exchanges.push(Exchange::Asked(Request::AtLeast { k: 2 }))?;
    exchanges.push(Exchange::Asked(Request::Leave { number: 2 }))?;
    exchanges.push(Exchange::Asked(Request::Exactly { k: 1 }))?;
    exchanges.push(Exchange::Asked(Request::Clear))?;
    exchanges.push(Exchange::Asked(Request::Leave { number: 1 }))?;
    Ok(exchanges)
}

/// What comes of them: the refusal's number where there is one, the figure, the table.
const OUTCOMES: [(u32, u64, &[u64]); 13] = [
    (0, 0, &[]),
    (0, 0, &[]),
    (0, 0, &[]),
    (0, 5, &[]),
    (0, 0, &[]),
    (0, 0, &[10, 140, 490, 360, 7]),
    (0, 0, &[10, 140, 490, 360]),
    (6, 0, &[7, 7, 7]),
    (0, 850, &[]),
    (0, 0, &[]),
    (0, 50, &[]),
    (0, 0, &[]),
    (3, 0, &[]),
];

/// An outcome as those above; nothing where the call is still to be made.
fn numbers(exchange: &Exchange<Word, u64>) -> Option<(u32, u64, &[u64])> {
    match exchange {
        Exchange::Asked(_) => None,
        Exchange::Answered(Ok(Answer::Done)) => Some((0, 0, &[])),
        Exchange::Answered(Ok(Answer::Figure(figure))) => Some((0, figure.to_plain(), &[])),
        Exchange::Answered(Ok(Answer::Table(table))) => Some((0, 0, table)),
        Exchange::Answered(Err(refused)) => {
            let table = refused.table.as_deref().unwrap_or(&[]);
            Some((refused.refusal.number(), 0, table))
        }
    }
}

#[test]
fn a_list_of_calls_is_made(rt: HostRuntime) -> Result<(), Fail> {
    let mut exchanges = calls(rt.alloc())?;
    let mut cells = [stale(1); 5];
    let slip = take_into_use(&cells);
    replay(&slip, &mut cells, Word::from_plain(10), &mut exchanges);
    match close::<Word>(&mut cells, slip) {
        Ok(()) => {}
        Err(_) => unreachable(),
    }
    assert_eq!(rt; exchanges.len(), OUTCOMES.len());
    for (i, outcome) in OUTCOMES.iter().enumerate() {
        let told = exchanges.get(i).and_then(numbers);
        assert_eq!(rt; told, Some(*outcome));
    }
    Ok(())
}
