//! Commands to a roster, from `open` to `close` or the end of the input.
ghost use Rattle.std.specs.Prelude.{◌≡◌, ◌≤◌, Some, None, replicate, IfErr, IfOk};
ghost use Rattle.std.specs.Option.{option_map};
ghost use Rattle.text.specs.Reading.{left};
ghost use Rattle.text.specs.Text.{number_within};
ghost use Rattle.text.specs.Understood.{FailsOnlyWhere};

use crate::commands::obey;
use crate::console::Console;
use figures::{Dual, Packable, Residue, Ring, Scenarios, Word};
use reply::asked;
use roster::{Cell, Request, Roster, close, perform, take_into_use};
use std::alloc::Global;
use text::Unanswered::{self, NotUnderstood};
use text::{Hex, Typed, filled, outcome_text, short_number, size};

/// Obeys every line.
pub fn run(console: &mut Console) -> anyhow::Result<()> {
    let heap = console.printer.heap;
    while let Some(words) = console.lines.next_command()? {
        let words = words.as_slice();
        // A kind is a type, which no value can name, so each has its arm.
        match words {
            [b"open", b"word", cells, whole] => session::<Word>(console, words, cells, whole)?,
            [b"open", b"check", cells, whole] => session::<Residue>(console, words, cells, whole)?,
            [b"open", b"scenario", cells, whole] => session::<Scenarios>(
                console, words, cells, whole,
            )?,
            [b"open", b"slope-word", cells, whole] => session::<Dual<Word>>(
                console, words, cells, whole,
            )?,
            [b"open", b"slope-check", cells, whole] => session::<Dual<Residue>>(
                console, words, cells, whole,
            )?,
            [b"open", b"slope-scenario", cells, whole] => session::<Dual<Scenarios>>(
                console, words, cells, whole,
            )?,
            _ => console.printer.print(words, obey(heap, words))?,
        }
    }
    Ok(())
}

/// open KIND CELLS WHOLE, up to the line that closes: whatever goes wrong in between, the cells are closed.
fn session<F: Packable>(
    console: &mut Console,
    opening: &[&[u8]],
    cells: &[u8],
    whole: &[u8],
) -> anyhow::Result<()>
where
    F::Plain: Typed,
    // A fact of two states, which no type can carry.
    ensures { left console.new.lines ≤ left console.old.lines }
{
    let (Some(count), Some(whole)) = (size(cells), F::Plain::read(whole)) else {
        return console.printer.print(opening, Err(NotUnderstood));
    };
    let zero = F::zero().to_plain();
    let blank = Cell {
        figure: zero,
        sum: zero,
        number: 0,
    };
    let mut cells = filled(console.printer.heap, blank, count)?;
    let slip = take_into_use(&cells);
    let mut roster = Roster::open(&slip, &mut cells, F::from_plain(whole));
    let held = converse(console, opening, &mut roster);
    // They are as many as were taken into use, so closing is not refused.
    match close::<F>(&mut cells, slip) {
        Ok(()) => {}
        Err(_) => unreachable(),
    }
    held?;
    console.printer.print_done(&[b"close"])
}

/// Answers `open`, and obeys the lines up to `close`, or to the end of the input.
fn converse<F: Packable>(
    console: &mut Console,
    opening: &[&[u8]],
    roster: &mut Roster<F>,
) -> anyhow::Result<()>
where
    F::Plain: Typed,
    ensures { left console.new.lines ≤ left console.old.lines }
{
    console.printer.print_done(opening)?;
    while let Some(words) = console.lines.next_command()? {
        if let [b"close"] = words.as_slice() {
            break;
        }
        let answer = ask(console.printer.heap, roster, &words);
        console.printer.print(&words, answer)?;
    }
    Ok(())
}

/// A line between `open` and `close`.
fn ask<F: Packable>(
    heap: Global,
    roster: &mut Roster<F>,
    words: &[&[u8]],
) -> Result<String, Unanswered>
where
    F::Plain: Typed,
{
    if let Some(request) = requested(heap, words)? {
        return outcome_text(heap, perform(roster, request));
    }
    let text = match words {
        [b"lives"] => roster.lives().to_string(heap),
        [b"find", number] => match roster.find(read_short(number)?) {
            Some(place) => place.to_string(heap),
            None => String::from_str(heap, "none"),
        },
        [b"reply", question, k, bytes] => {
            let question = read_short(question)?;
            let k = read_short(k)?;
            let mut out = filled(heap, 0u8, size(bytes).ok_or(NotUnderstood)?)?;
            asked::reply(roster, question, k, &mut out)?;
            Hex(&out).to_string(heap)
        }
        _ => return obey(heap, words),
    };
    Ok(text?)
}

/// The call of a roster that words make; none where they make none.
fn requested<F: Packable>(
    heap: Global,
    words: &[&[u8]],
) -> Result<Option<Request<F, F::Plain>>, Unanswered>
where
    F::Plain: Typed,
{
    let request = match words {
        [b"join", number, figure] => Request::Join {
            number: read_short(number)?,
            figure: read_figure(figure)?,
        },
        [b"leave", number] => Request::Leave {
            number: read_short(number)?,
        },
        [b"change", number, figure] => Request::Change {
            number: read_short(number)?,
            figure: read_figure(figure)?,
        },
        [b"clear"] => Request::Clear,
        [b"exactly", k] => Request::Exactly { k: read_short(k)? },
        [b"at-least", k] => Request::AtLeast { k: read_short(k)? },
        [b"composed", entries] => Request::Composed {
            table: zeros::<F>(heap, entries)?,
        },
        [b"triangle", entries] => Request::Triangle {
            table: zeros::<F>(heap, entries)?,
        },
        _ => return Ok(None),
    };
    Ok(Some(request))
}

/// The 32-bit number that a word writes.
fn read_short(word: &[u8]) -> Result<u32, Unanswered>
    ensures read { IfOk result (λ n. number_within 4294967295 word.now ≡ Some n) }
    ensures unread { IfErr result (λ e. (e ≡ Unanswered.NotUnderstood) × (number_within 4294967295 word.now ≡ None)) }
{
    short_number(word).ok_or(NotUnderstood)
}

/// The figure that a word writes.
fn read_figure<F: Packable>(word: &[u8]) -> Result<F, Unanswered>
where
    F::Plain: Typed,
    ensures read { IfOk result (λ x. option_map F.Ring.figure (F.Plain.reads word.now) ≡ Some x) }
    ensures unread { IfErr result (λ e. (e ≡ Unanswered.NotUnderstood) × (F.Plain.reads word.now ≡ None)) }
{
    let figure = F::Plain::read(word).ok_or(NotUnderstood)?;
    Ok(F::from_plain(figure))
}

/// A table of zeros, of as many entries as a word says.
fn zeros<F: Packable>(heap: Global, entries: &[u8]) -> Result<Vec<F::Plain>, Unanswered>
where
    F::Plain: Typed,
    ensures read { IfOk result (λ table. option_map (λ n. replicate n (F.Ring.plain F.Ring.ops.zero)) (number_within 1000 entries.now) ≡ Some table.items) }
    ensures unread { IfErr result (FailsOnlyWhere (number_within 1000 entries.now ≡ None)) }
{
    let entries = size(entries).ok_or(NotUnderstood)?;
    Ok(filled(heap, F::zero().to_plain(), entries)?)
}
