//! Which ring each kind is, and how it packs: promises that are no one operation's.
ghost use Rattle.std.specs.Prelude.{◌≡◌, ℕ};
ghost use Rattle.figures.specs.Words.{word, ops as word_ops};
ghost use Rattle.figures.specs.Residues.{residue, ops as residue_ops};
ghost use Rattle.figures.specs.ScenarioBits.{scenarios, ops as scenario_ops};
ghost use Rattle.figures.specs.Duals.{dual, ops as dual_ops};

use crate::kinds::{Dual, Residue, Scenarios, Word};
use crate::{Packable, Ring};

/// The laws alone would let a kind be another ring on the same type: each is the one that specs/ defines, and a slope is
/// the dual number over whatever ring its parts are of.
pub fn kinds_are_as_defined<R: Ring>()
    ensures words { (⟦<Word as Ring>⟧.ops ≡ word_ops)
        × ((n : ℕ) → ⟦<Word as Ring>⟧.figure n ≡ word n)
        × ((x : Word) → ⟦<Word as Ring>⟧.plain x ≡ x.number) }
    ensures residues { (⟦<Residue as Ring>⟧.ops ≡ residue_ops)
        × ((n : ℕ) → ⟦<Residue as Ring>⟧.figure n ≡ residue n)
        × ((x : Residue) → ⟦<Residue as Ring>⟧.plain x ≡ x.number) }
    ensures scenarios { (⟦<Scenarios as Ring>⟧.ops ≡ scenario_ops)
        × ((n : ℕ) → ⟦<Scenarios as Ring>⟧.figure n ≡ scenarios n)
        × ((x : Scenarios) → ⟦<Scenarios as Ring>⟧.plain x ≡ x.bits) }
    ensures slopes { (⟦<Dual<R> as Ring>⟧.ops ≡ dual_ops R.Ring.ops)
        × ((x : Dual R.Plain) → ⟦<Dual<R> as Ring>⟧.figure x ≡ dual (R.Ring.figure x.value) (R.Ring.figure x.rate))
        × ((x : Dual R) → ⟦<Dual<R> as Ring>⟧.plain x ≡ dual (R.Ring.plain x.value) (R.Ring.plain x.rate)) }
{
    // In a clause a number has no width: these are the plain forms' types.
    let _word: <Word as Ring>::Plain = 0u64;
    let _residue: <Residue as Ring>::Plain = 0u32;
    let _scenarios: <Scenarios as Ring>::Plain = 0u64;
}

/// Of each kind that packs: its number in a record, how many bits its figures have there, and the number that a figure is there.
pub fn kinds_pack_as_defined<R: Packable>()
    ensures words { (⟦<Word as Packable>⟧.KIND ≡ 1)
        × (⟦<Word as Packable>⟧.WIDTH ≡ 64)
        × ((x : Word) → ⟦<Word as Packable>⟧.bits x ≡ x.number) }
    ensures residues { (⟦<Residue as Packable>⟧.KIND ≡ 2)
        × (⟦<Residue as Packable>⟧.WIDTH ≡ 31)
        × ((x : Residue) → ⟦<Residue as Packable>⟧.bits x ≡ x.number) }
    ensures scenarios { (⟦<Scenarios as Packable>⟧.KIND ≡ 3)
        × (⟦<Scenarios as Packable>⟧.WIDTH ≡ 64)
        × ((x : Scenarios) → ⟦<Scenarios as Packable>⟧.bits x ≡ x.bits) }
    ensures slopes { (⟦<Dual<R> as Packable>⟧.KIND ≡ R.Packable.KIND)
        × (⟦<Dual<R> as Packable>⟧.WIDTH ≡ R.Packable.WIDTH)
        × ((x : Dual R) → ⟦<Dual<R> as Packable>⟧.bits x ≡ R.Packable.bits x.value) }
{}
