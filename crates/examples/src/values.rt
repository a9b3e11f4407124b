//! Values from outside: the bytes of records, and residues against the language's own remainder.
ghost use Rattle.std.specs.Prelude.{◌<◌};

use crate::tests::draw;
use figures::{Dual, Packable, Residue, Ring, Scenarios, Word};
use reply::{Count, Question, Record, Reply, pack};

// An answered record as one number.
fn packed<F: Packable>(question: Question, k: u8, lives: u8, figure: F) -> Option<u128> {
    let k = Count::new(k)?;
    let lives = Count::new(lives)?;
    let reply = Reply::Answered {
        question,
        k,
        figure,
    };
    Some(u128::from_be_bytes(pack(Record { lives, reply })))
}

// Every field at its least and at its greatest, over each kind.
#[test]
fn packed_bytes(rt: HostRuntime) {
    let word = packed(Question::Exactly, 2, 3, Word::from_plain(490));
    assert_eq!(rt; word, Some(0x48008180_00000000_00000000_000001ea));
    let least = packed(Question::Exactly, 0, 0, Word::from_plain(0));
    assert_eq!(rt; least, Some(0x48000000_00000000_00000000_00000000));
    let greatest = packed(Question::AtLeast, 64, 64, Scenarios::from_plain(u64::MAX));
    assert_eq!(rt; greatest, Some(0xd0102000_00000000_ffffffff_ffffffff));
    let residue = packed(Question::Exactly, 64, 64, Residue::from_plain(4294967295));
    assert_eq!(rt; residue, Some(0x88102000_00000000_00000000_00000001));
    let slope = Dual {
        value: Word::from_plain(360),
        rate: Word::from_plain(40),
    };
    assert_eq!(rt;
        packed(Question::Exactly, 3, 3, slope),
        Some(0x4800c180_00000000_00000000_00000168)
    );
    assert_eq!(rt; packed(Question::Exactly, 65, 3, Word::from_plain(0)), None);
}

/// Numbers about multiples of the modulus, and about the limit.
#[test]
fn residues_around_the_modulus(rt: HostRuntime) {
    for (number, remainder) in [
        (0, Some(0)),
        (1, Some(1)),
        (2147483646, Some(2147483646)),
        (2147483647, Some(0)),
        (2147483648, Some(1)),
        (4294967293, Some(2147483646)),
        (4294967294, Some(0)),
        (4294967295, Some(1)),
        (4611686016279904256, Some(0)),
        (4611686018427387902, Some(2147483646)),
        (4611686018427387903, Some(0)),
        (4611686018427387904, None),
        (u64::MAX, None),
    ] {
        assert_eq!(rt; reduced(number), remainder, "{number}");
        if let Ok(written) = u32::try_from(number) {
            let residue = Residue::from_plain(written).to_plain();
            assert_eq!(rt; Some(residue), remainder, "{number}");
        }
    }
    let greatest = Residue::from_plain(2147483646);
    for (x, product) in [(1, 2147483646), (2, 2147483645), (2147483646, 1)] {
        assert_eq!(rt;
            greatest.mul(Residue::from_plain(x)).to_plain(),
            product,
            "{x}"
        );
    }
}

/// The residue of a wide number, as it is written.
fn reduced(number: u64) -> Option<u32> {
    Residue::from_u64(number).map(|x| x.to_plain())
}

const MODULUS: u32 = 2147483647;

/// The next number below the modulus of a fixed sequence. One in four is among the three least or the three greatest.
fn next_below(state: &mut u64) -> u32
    ensures { result < 2147483647 }
{
    let bits = draw(state);
    let any = (bits / 8 % MODULUS as u64) as u32;
    match bits % 8 {
        0 => MODULUS - 1 - any % 3,
        1 => any % 3,
        _ => any,
    }
}

/// The calls that work without a remainder, against the language's own.
#[test]
fn residues_by_remainders(rt: HostRuntime) {
    let modulus = MODULUS as u64;
    let mut state = 1957;
    for _ in 0..100_000 {
        let x = next_below(&mut state);
        let y = next_below(&mut state);
        let product = Residue::from_plain(x)
            .mul(Residue::from_plain(y))
            .to_plain();
        assert_eq!(rt;
            product as u64,
            x as u64 * y as u64 % modulus,
            "{x} times {y}"
        );
        let sum = Residue::from_plain(x)
            .add(Residue::from_plain(y))
            .to_plain();
        assert_eq!(rt; sum, (x + y) % MODULUS, "{x} and {y}");
        let negative = Residue::from_plain(x).neg().to_plain();
        assert_eq!(rt; negative, (MODULUS - x) % MODULUS, "minus {x}");

        let bits = draw(&mut state);
        let written = (bits >> 32) as u32;
        let read = Residue::from_plain(written).to_plain();
        assert_eq!(rt; read, written % MODULUS, "{written}");
        let wide = bits >> 2;
        // The last is a multiple of the modulus.
        for number in [bits, wide, wide - wide % modulus] {
            let due = (number < 1 << 62).then(|| (number % modulus) as u32);
            assert_eq!(rt; reduced(number), due, "{number}");
        }
    }
}
