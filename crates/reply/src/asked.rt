//! The reply of a roster to a question.
ghost use Rattle.std.specs.Prelude.{◌≡◌, ℕ, ◌<◌, ◌≤◌, true, false, ◌&&◌, length, Ok, MatchOption, MatchResult, nat_le};
ghost use Rattle.roster.specs.Cells.{OfLedger};
ghost use Rattle.reply.specs.Asked.{counted, asking, fields_for, unwritten_number, Written};
ghost use Rattle.reply.specs.Rules.{replied, question_number};

use crate::{Count, Fields, Question, Record, Refusal, Reply, pack, unpack};
use figures::Packable;
use roster::Roster;

/// Why a reply was not written.
#[derive(Clone, Copy, PartialEq, Eq, Debug)]
pub enum Unwritten {
    ShortOutput = 16,
    UnknownQuestion = 17,
}

impl Unwritten {
    /// The refusal's number.
    // No `From`: the name says which number it is.
    pub fn number(self) -> u32
        ensures { result ≡ unwritten_number self }
    {
        self as u32
    }
}

/// The reply to a question for a figure, from what the roster answered.
fn figured<F: Copy>(question: Question, k: u32, res: Result<F, roster::Refusal>) -> Reply<F>
    ensures { (kind n : ℕ) (bits : F → ℕ) (x : F) → MatchResult res (λ y. (k ≤ 64) × (y ≡ x)) (λ _. 64 < k) → replied kind bits n result ≡ counted kind (question_number question) n k (bits x) }
{
    match (u8::try_from(k).ok().and_then(Count::new), res) {
        (Some(k), Ok(figure)) => Reply::Answered {
            question,
            k,
            figure,
        },
        _ => Reply::Refused { question },
    }
}

/// The reply to the question with this number; none where there is no such question.
fn answered<F: Packable>(roster: &Roster<'_, F>, question: u32, k: u32) -> Option<Reply<F>>
    ensures { MatchOption result
        ((nat_le 1 question && nat_le question 3) ≡ false)
        (λ a. ((nat_le 1 question && nat_le question 3) ≡ true) × OfLedger F.Ring.ops F.Ring.plain roster.now.cells.now
        (λ l. replied F.Packable.KIND F.Packable.bits (length l.lives) a ≡ fields_for F.Ring.ops F.Ring.plain F.Packable.KIND F.Packable.bits l question k)) }
{
    match question {
        1 => Some(figured(Question::Exactly, k, roster.exactly(k))),
        2 => Some(figured(Question::AtLeast, k, roster.at_least(k))),
        3 => Some(Reply::Lives),
        _ => None,
    }
}

/// Asks a roster a question, 1 exactly, 2 at least or 3 lives, and writes the record into the first 16 bytes.
// Two numbers, as they come over the line: a wrong question has a refusal of its own, and a large k is answered.
pub fn reply<F: Packable>(
    roster: &Roster<'_, F>,
    question: u32,
    k: u32,
    out: &mut [u8],
) -> Result<(), Unwritten>
    ensures refusal { result ≡ asking (length out.old) question tt }
    ensures output { MatchResult result
        (λ _. Written F.Ring.ops F.Ring.plain F.Packable.KIND F.Packable.bits roster.now.cells.now question k out.old out.new)
        (λ _. out.new ≡ out.old) }
{
    if out.len() < 16 {
        return Err(Unwritten::ShortOutput);
    }
    let reply = answered(roster, question, k).ok_or(Unwritten::UnknownQuestion)?;
    let lives = Count {
        number: roster.lives() as u8,
    };
    out[0..16].copy_from_slice(&pack(Record { lives, reply }));
    Ok(())
}

/// What was replied is read back: every question to every roster, over every kind that packs. Outside is the reply's
/// refusal, and inside what reading its bytes gives.
pub fn reply_then_unpack<F: Packable>(
    roster: &Roster<'_, F>,
    question: u32,
    k: u32,
) -> Result<Result<Fields, Refusal>, Unwritten>
    ensures { OfLedger F.Ring.ops F.Ring.plain roster.now.cells.now
        (λ l. result ≡ asking 16 question (Ok (fields_for F.Ring.ops F.Ring.plain F.Packable.KIND F.Packable.bits l question k))) }
{
    let mut bytes = [0; 16];
    reply(roster, question, k, &mut bytes)?;
    Ok(unpack(&bytes))
}
