//! Kinds of the tests' own, as types. Their laws are owed for every value of a type, so a bound is a part of it.
ghost use Rattle.std.specs.Prelude.{◌<◌};

/// A number worked modulo 65535, which is odd and not prime.
#[derive(Clone, Copy)]
pub struct Remainder {
    pub number: u32,
    ghost below: { number < 65535 },
}

/// The one figure of the zero ring, in which one is zero.
#[derive(Clone, Copy)]
pub struct Zero {}
