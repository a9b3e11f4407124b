//! Words: sum, negative and product modulo 2^64.
ghost use Rattle.figures.specs.Words.{word, ops as word_ops};
ghost use Rattle.std.specs.Prelude.{◌^◌};
ghost use Rattle.figures.specs.Modular.{modular_laws, word_modular};
ghost use Rattle.figures.specs.Same.{same_word};
ghost use Rattle.std.proofs.Common.{mod-eq_of_lt, rules};

use crate::kinds::Word;
use crate::{Packable, Ring};

impl Ring for Word {
    type Plain = u64;

    ghost ops = { word_ops };

    ghost figure = { word };

    ghost plain = { λ x. x.number };

    ghost laws = { modular_laws (2 ^ 64) (λ x. x.number) word_ops word_modular };

    ghost back = { λ x. same_word _ _ (mod-eq_of_lt x.fits) };

    fn zero() -> Word {
        Word { number: 0 }
    }

    fn one() -> Word {
        Word { number: 1 }
    }

    fn add(self, other: Word) -> Word {
        Word {
            number: self.number.wrapping_add(other.number),
        }
    }

    fn neg(self) -> Word {
        Word {
            number: self.number.wrapping_neg(),
        }
    }

    fn mul(self, other: Word) -> Word {
        Word {
            number: self.number.wrapping_mul(other.number),
        }
    }

    fn multiple(self, times: u64) -> Word {
        Word {
            number: times.wrapping_mul(self.number),
        }
    }

    fn from_plain(written: u64) -> Word {
        Word { number: written }
    }

    fn to_plain(self) -> u64 {
        self.number
    }
}

impl Packable for Word {
    const KIND: u8 = 1;

    const WIDTH: u32 = 64;

    ghost KIND = { 1 };

    ghost WIDTH = { 64 };

    ghost bits = { λ x. x.number };

    ghost admitted = { Prim.search rules };

    fn reply_bits(self) -> u64 {
        self.to_plain()
    }
}
