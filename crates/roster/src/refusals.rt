//! Why a call was refused.
ghost use Rattle.std.specs.Prelude.{◌≡◌};
ghost use Rattle.roster.specs.Refusals.{refusal_number};

#[derive(Clone, Copy, PartialEq, Eq, Debug)]
pub enum Refusal {
    ZeroNumber = 1,
    Present = 2,
    Absent = 3,
    Full = 4,
    LargeCount = 5,
    ShortTable = 6,
    OtherCells = 7,
}

impl Refusal {
    // No `From`: the name says which number it is.
    pub fn number(self) -> u32
        ensures { result ≡ refusal_number self }
    {
        self as u32
    }
}
