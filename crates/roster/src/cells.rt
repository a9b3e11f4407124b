//! The cells that a roster lies in.

/// A life's figure, a kept sum and a life's number; figures in their plain form.
#[derive(Clone, Copy, PartialEq, Eq, Debug)]
pub struct Cell<P> {
    pub figure: P,
    pub sum: P,
    // 0 where there is no life: what a cell holds is promised field by field.
    pub number: u32,
}
