/// What an arm measured, as a host keeps it in a ring of its own.
#[derive(Clone, Copy, Debug, PartialEq, Eq)]
pub struct Reading {
    /// The arm, from 1.
    pub arm: usize,
    /// Tenths of a degree Celsius, below 0 too.
    pub tenths: i16,
}
