//! Reply records: 16 bytes that answer a question about a roster.
#![tactic(auto)]

ghost use Rattle.std.specs.Prelude.{◌≡◌, ◌≢◌, ℕ, ◌+◌, ◌*◌, ◌^◌, ◌<◌, ◌≤◌, true, length, Ok, MatchOption};
ghost use Rattle.std.specs.Int.Digits.{number_from_digits, AllBelowBase};
ghost use Rattle.reply.specs.Layout.{part, Holds};
ghost use Rattle.reply.specs.Rules.{refusal_number, counts, answered, refused, told, kindly, acceptable, checked, unpacked, fields_of};

pub mod asked;
mod counts;

pub use counts::Count;
use figures::{Packable, Residue, Ring, Scenarios, Word};

/// The questions that name a number k of survivors.
#[derive(Clone, Copy, PartialEq, Eq, Debug)]
pub enum Question {
    Exactly = 1,
    AtLeast = 2,
}

/// What a record says. A question is refused where its k is above 64.
#[derive(Clone, Copy)]
pub enum Reply<F> {
    Answered {
        question: Question,
        k: Count,
        figure: F,
    },
    Refused {
        question: Question,
    },
    Lives,
}

/// A reply, and the number of lives in the roster that gave it.
#[derive(Clone, Copy)]
pub struct Record<F> {
    pub lives: Count,
    pub reply: Reply<F>,
}

/// The six fields of a record as numbers. The spare between lives and figure is no field: it is zero.
// Numbers, not enums: the promises are about these six numbers, and so is the test of what is acceptable.
#[derive(Clone, Copy, PartialEq, Eq, Debug)]
pub struct Fields {
    pub kind: u8,
    pub question: u8,
    pub refusal: u8,
    pub k: u8,
    pub lives: u8,
    pub figure: u64,
}

/// Why bytes were not read as a record.
#[derive(Clone, Copy, PartialEq, Eq, Debug)]
pub enum Refusal {
    WrongSize = 16,
    Unacceptable = 18,
}

impl Refusal {
    // No `From`: the name says which number it is.
    pub fn number(self) -> u32
        ensures { result ≡ refusal_number self }
    {
        self as u32
    }
}

impl Count {
    /// None above 64.
    // As `NonZero::new`: an error of `TryFrom` would have nothing to say.
    pub fn new(number: u8) -> Option<Count>
        ensures { MatchOption result (64 < number) (λ n. n.number ≡ number) }
    {
        if number > 64 {
            return None;
        }
        Some(Count { number })
    }
}

/// The part of a number that the layout places there.
// Two numbers, not a struct: each pair is a row of the layout and is used once.
fn part_at(n: u128, place: u32, width: u32) -> u64
    requires { (place + width ≤ 128) × ((0 < width) × (width ≤ 64)) }
    ensures { (result ≡ part n place width) × (result < 2 ^ width) }
{
    ((n >> (128 - place - width)) % (1 << width)) as u64
}

/// Which replies a record may be; the names are those of the rules in specs/.
impl Fields {
    fn is_count(&self) -> bool
        ensures { result ≡ counts self.now }
    {
        matches!(self.question, 1 | 2)
    }

    fn is_answered(&self) -> bool
        ensures { result ≡ answered self.now }
    {
        self.is_count() && self.refusal == 0 && self.k <= 64
    }

    fn is_refused(&self) -> bool
        ensures { result ≡ refused self.now }
    {
        self.is_count() && self.refusal == 5 && self.k == 127 && self.figure == 0
    }

    fn is_lives(&self) -> bool
        ensures { result ≡ told self.now }
    {
        self.question == 3 && self.refusal == 0 && self.k == 0 && self.figure == 0
    }

    fn is_of_kind(&self) -> bool
        ensures { result ≡ kindly self.now }
    {
        self.kind == 1 || self.kind == 3 || self.kind == 2 && self.figure < 2147483647
    }

    fn is_acceptable(&self) -> bool
        ensures { result ≡ acceptable self.now }
    {
        self.is_of_kind()
            && self.lives <= 64
            && (self.is_answered() || self.is_refused() || self.is_lives())
    }
}

/// The number that 16 bytes write, the first the most significant; none for another count of bytes.
fn number_of(bytes: &[u8]) -> Option<u128>
    ensures { MatchOption result (length bytes.now ≢ 16) (λ n. (length bytes.now ≡ 16) × (n ≡ number_from_digits 256 bytes.now)) }
{
    Some(u128::from_be_bytes(bytes.try_into().ok()?))
}

/// Reads a record: its fields where it is acceptable.
pub fn unpack(bytes: &[u8]) -> Result<Fields, Refusal>
    ensures { result ≡ unpacked bytes.now }
{
    let n = number_of(bytes).ok_or(Refusal::WrongSize)?;
    let fields = Fields {
        kind: part_at(n, 0, 2) as u8,
        question: part_at(n, 2, 3) as u8,
        refusal: part_at(n, 5, 6) as u8,
        k: part_at(n, 11, 7) as u8,
        lives: part_at(n, 18, 7) as u8,
        figure: part_at(n, 64, 64),
    };
    if part_at(n, 25, 39) != 0 || !fields.is_acceptable() {
        return Err(Refusal::Unacceptable);
    }
    Ok(fields)
}

/// A figure as its kind packs it. It is cut to the kind's width, so it never reaches a neighbouring field.
fn figure_bits<F: Packable>(figure: F) -> u64
    ensures { result ≡ F.Packable.bits figure }
{
    (figure.reply_bits() as u128 % (1 << F::WIDTH)) as u64
}

impl<F: Packable> Record<F> {
    /// The numbers that go into the fields.
    fn fields(self) -> Fields
        ensures { result ≡ fields_of F.Packable.KIND F.Packable.bits self }
    {
        let (question, refusal, k, figure) = match self.reply {
            Reply::Answered {
                question,
                k,
                figure,
            } => (question as u8, 0, k.number, figure_bits(figure)),
            Reply::Refused { question } => (question as u8, 5, 127, 0),
            Reply::Lives => (3, 0, 0, 0),
        };
        Fields {
            kind: F::KIND,
            question,
            refusal,
            k,
            lives: self.lives.number,
            figure,
        }
    }
}

/// The fields at their places in one number of 128 bits.
fn placed(f: Fields) -> u128
    requires kind { f.kind < 4 }
    requires question { f.question < 8 }
    requires refusal { f.refusal < 64 }
    requires k { f.k < 128 }
    requires lives { f.lives < 128 }
    ensures { result ≡ f.kind * 2 ^ 126 + f.question * 2 ^ 123 + f.refusal * 2 ^ 117 + f.k * 2 ^ 110 + f.lives * 2 ^ 103 + f.figure }
{
    ((f.kind as u128) << 126)
        + ((f.question as u128) << 123)
        + ((f.refusal as u128) << 117)
        + ((f.k as u128) << 110)
        + ((f.lives as u128) << 103)
        + f.figure as u128
}

/// Writes a record, most significant bit first. (That entries are bytes, their type says, and a list of numbers does not.)
pub fn pack<F: Packable>(reply: Record<F>) -> [u8; 16]
    ensures holds { Holds result (fields_of F.Packable.KIND F.Packable.bits reply) }
    ensures octets { AllBelowBase 256 result }
{
    placed(reply.fields()).to_be_bytes()
}

/// What was packed is read back: every record, over every kind that packs.
pub fn pack_then_unpack<F: Packable>(reply: Record<F>) -> Result<Fields, Refusal>
    ensures { result ≡ Ok (fields_of F.Packable.KIND F.Packable.bits reply) }
{
    unpack(&pack(reply))
}

/// The record with these fields, over the figure that is packed as theirs.
// No `TryFrom`: that the fields were accepted is required.
fn typed<F: Copy>(f: Fields, figure: F) -> Record<F>
    requires { acceptable f ≡ true }
    ensures { (kind : ℕ) (bits : F → ℕ) → kind ≡ f.kind → bits figure ≡ f.figure → fields_of kind bits result ≡ f }
{
    let lives = Count { number: f.lives };
    if f.question == 3 {
        return Record {
            lives,
            reply: Reply::Lives,
        };
    }
    let question = if f.question == 1 {
        Question::Exactly
    } else {
        Question::AtLeast
    };
    if f.refusal == 5 {
        return Record {
            lives,
            reply: Reply::Refused { question },
        };
    }
    let k = Count { number: f.k };
    Record {
        lives,
        reply: Reply::Answered {
            question,
            k,
            figure,
        },
    }
}

/// Packs fields that were accepted, over the kind that their number names.
fn repacked(f: Fields) -> [u8; 16]
    requires { acceptable f ≡ true }
    ensures { (Holds result f) × (AllBelowBase 256 result) }
{
    match f.kind {
        1 => pack(typed(f, Word::from_plain(f.figure))),
        2 => pack(typed(f, Residue::from_plain(f.figure as u32))),
        _ => pack(typed(f, Scenarios::from_plain(f.figure))),
    }
}

/// What was accepted is packed as the same 16 bytes.
pub fn unpack_then_pack(bytes: &[u8]) -> Result<[u8; 16], Refusal>
    ensures { result ≡ checked bytes.now bytes.now }
{
    let f = unpack(bytes)?;
    Ok(repacked(f))
}
