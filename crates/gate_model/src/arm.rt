ghost use Rattle.std.specs.Prelude.{◌≡◌};
ghost use Rattle.gate_model.specs.Arms.{side_of, has_side};

/// How many arms a gate has at most.
pub const ARM_LIMIT: usize = 100;

/// The record that a gate keeps of one arm; P: the positions of the gate's door. The record of arm i has index i - 1 among
/// the records, and what a row and its notes tell of arm i has index i - 1 there.
#[derive(Clone, Copy)]
pub struct Arm<P> {
    pub position: P,
    /// The bit that the arm read in its doorway, 0 or 1, up to its last exit step; else none.
    pub side: Option<u64>,
    /// How many visits were begun, 1,000,000,000 at most.
    pub visits: u32,
    /// Whether the arm's pass is out.
    pub out: bool,
    /// How often each other arm went inside while this one waited, the last time that it did; a count stops at 255.
    pub row: [u8; ARM_LIMIT],
    /// Which arms were idle when that wait began, at the end of the doorway.
    pub notes: [bool; ARM_LIMIT],
}

impl<P> Arm<P> {
    /// The side as a number, 0 where it is missing.
    pub fn side_value(&self) -> u64
        ensures { result ≡ side_of self.now.side }
    {
        self.side.unwrap_or(0)
    }

    /// Whether the arm has side t.
    pub fn has_side(&self, t: u64) -> bool
        ensures { result ≡ has_side t self.now.side }
    {
        self.side == Some(t)
    }
}
