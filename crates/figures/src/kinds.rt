//! The kinds of figures, as types. The laws are owed for every value of a type. Where figures are numbers below a bound, the
//! bound is a part of the type: in a contract a number has none. (No `impl Model` shows such a figure as its number: the laws
//! do not hold of numbers without the bound.) A dual number has no bound of its own.
ghost use Rattle.std.specs.Prelude.{◌^◌, ◌<◌};

/// A 64-bit number, worked modulo 2^64.
#[derive(Clone, Copy, PartialEq, Eq, Debug)]
pub struct Word {
    pub(crate) number: u64,
    ghost fits: { number < 2 ^ 64 },
}

/// A check figure: a number worked modulo 2147483647.
#[derive(Clone, Copy, PartialEq, Eq, Debug)]
pub struct Residue {
    pub(crate) number: u32,
    ghost below: { number < 2147483647 },
}

/// One bit for each of 64 scenarios: whether something holds there.
#[derive(Clone, Copy, PartialEq, Eq, Debug)]
pub struct Scenarios {
    pub(crate) bits: u64,
    ghost fits: { bits < 2 ^ 64 },
}

/// A dual number, or slope: a value and its rate of change, over figures of any kind or over their plain forms.
#[derive(Clone, Copy, PartialEq, Eq, Debug)]
pub struct Dual<T> {
    pub value: T,
    pub rate: T,
}
