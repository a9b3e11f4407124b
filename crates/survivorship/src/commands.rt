//! The commands that need no roster.
use counts::{Chance, count_exactly};
use exchangeable::exchangeable_row;
use figures::{Dual, Residue, Ring, Scenarios, Word};
use money::{factor, money_row};
use reply::unpack;
use rows::households_row;
use std::alloc::Global;
use text::Unanswered::{self, NotUnderstood};
use text::{
    Typed, around_slash, fields_text, filled, floats_text, hex_bytes, short_number, size,
    table_text, typed_list,
};

pub fn obey(heap: Global, words: &[&[u8]]) -> Result<String, Unanswered> {
    match words {
        [b"unpack", hex] => unpack_command(heap, hex),
        [b"money", entries, lives @ ..] => money_command(heap, entries, lives),
        [b"factor", k, entries, lives @ ..] => factor_command(heap, k, entries, lives),
        [b"counts", whole, k, entries, lives @ ..] => counts_command(
            heap, whole, k, entries, lives,
        ),
        [b"exchangeable", m, entries, table @ ..] => exchangeable_command(heap, m, entries, table),
        [b"residue", number] => residue_command(heap, number),
        [b"households", kind, entries, rows @ ..] => households_command(heap, kind, entries, rows),
        _ => Err(NotUnderstood),
    }
}

/// unpack HEX
fn unpack_command(heap: Global, hex: &[u8]) -> Result<String, Unanswered> {
    let bytes = hex_bytes(heap, hex)?.ok_or(NotUnderstood)?;
    let fields = unpack(&bytes)?;
    Ok(fields_text(heap, &fields)?)
}

/// money ENTRIES P P ..
fn money_command(heap: Global, entries: &[u8], lives: &[&[u8]]) -> Result<String, Unanswered> {
    let entries = size(entries).ok_or(NotUnderstood)?;
    let lives = typed_list(heap, lives)?;
    let mut row = filled(heap, 0u64, entries)?;
    money_row(&lives, &mut row)?;
    Ok(table_text(heap, &row)?)
}

/// factor K ENTRIES P P ..
fn factor_command(
    heap: Global,
    k: &[u8],
    entries: &[u8],
    lives: &[&[u8]],
) -> Result<String, Unanswered> {
    let k = short_number(k).ok_or(NotUnderstood)?;
    let entries = size(entries).ok_or(NotUnderstood)?;
    let lives = typed_list(heap, lives)?;
    let mut work = filled(heap, 0u64, entries)?;
    Ok(factor(&lives, k, &mut work)?.to_string(heap)?)
}

/// counts D K ENTRIES P P ..
fn counts_command(
    heap: Global,
    whole: &[u8],
    k: &[u8],
    entries: &[u8],
    lives: &[&[u8]],
) -> Result<String, Unanswered> {
    let whole = short_number(whole).ok_or(NotUnderstood)?;
    let k = short_number(k).ok_or(NotUnderstood)?;
    let entries = size(entries).ok_or(NotUnderstood)?;
    let lives = typed_list(heap, lives)?;
    let mut work = filled(heap, 0.5, entries)?;
    let Chance { count, denominator } = count_exactly(&lives, whole, k, &mut work)?;
    let answer = floats_text(heap, &[count, denominator])?;
    let table = floats_text(heap, &work)?;
    Ok(format!(in heap; "{answer} {table}")?)
}

/// exchangeable M ENTRIES U U ..
fn exchangeable_command(
    heap: Global,
    m: &[u8],
    entries: &[u8],
    table: &[&[u8]],
) -> Result<String, Unanswered> {
    let m = short_number(m).ok_or(NotUnderstood)?;
    let entries = size(entries).ok_or(NotUnderstood)?;
    let table = typed_list(heap, table)?;
    let mut row = filled(heap, 0u64, entries)?;
    exchangeable_row(&table, m, &mut row)?;
    Ok(table_text(heap, &row)?)
}

/// residue WIDE
fn residue_command(heap: Global, number: &[u8]) -> Result<String, Unanswered> {
    let number = u64::read(number).ok_or(NotUnderstood)?;
    match Residue::from_u64(number) {
        Some(residue) => Ok(residue.to_plain().show(heap)?),
        None => Ok(String::from_str(heap, "none")?),
    }
}

/// households KIND ENTRIES FIGURE FIGURE .. / FIGURE FIGURE ..
fn households_command(
    heap: Global,
    kind: &[u8],
    entries: &[u8],
    rows: &[&[u8]],
) -> Result<String, Unanswered> {
    // A kind is a type, which no value can name, so each has its arm.
    match kind {
        b"word" => households_over::<Word>(heap, entries, rows),
        b"check" => households_over::<Residue>(heap, entries, rows),
        b"scenario" => households_over::<Scenarios>(heap, entries, rows),
        b"slope-word" => households_over::<Dual<Word>>(heap, entries, rows),
        b"slope-check" => households_over::<Dual<Residue>>(heap, entries, rows),
        b"slope-scenario" => households_over::<Dual<Scenarios>>(heap, entries, rows),
        _ => Err(NotUnderstood),
    }
}

/// The row of two households, from figures of a kind.
fn households_over<F: Ring>(
    heap: Global,
    entries: &[u8],
    rows: &[&[u8]],
) -> Result<String, Unanswered>
where
    F::Plain: Typed,
{
    let entries = size(entries).ok_or(NotUnderstood)?;
    let (first, second) = around_slash(rows).ok_or(NotUnderstood)?;
    let first = typed_list(heap, first)?;
    let second = typed_list(heap, second)?;
    let mut row = filled(heap, F::zero().to_plain(), entries)?;
    households_row::<F>(&first, &second, &mut row)?;
    Ok(table_text(heap, &row)?)
}
