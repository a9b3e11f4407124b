//! A number of lives or of survivors.
ghost use Rattle.std.specs.Prelude.{◌≤◌};

/// 0 to 64: what a record can hold as its k or its lives.
#[derive(Clone, Copy)]
pub struct Count {
    pub(crate) number: u8,
    ghost bound: { number ≤ 64 },
}
