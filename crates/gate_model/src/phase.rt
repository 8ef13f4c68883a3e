ghost use Rattle.std.specs.Prelude.{◌≡◌, [], ◌∷◌};
ghost use Rattle.gate_model.specs.Phases.{letter_of};

/// The phase of an arm: idle, doorway, waiting, inside, leaving.
#[derive(Clone, Copy, Debug, PartialEq, Eq)]
pub enum Phase {
    I,
    D,
    W,
    F,
    X,
}

impl Phase {
    /// The letter of a phase in a report, as ASCII.
    pub fn letter(self) -> u8
        ensures { result ∷ [] ≡ letter_of self }
    {
        match self {
            Phase::I => b'I',
            Phase::D => b'D',
            Phase::W => b'W',
            Phase::F => b'F',
            Phase::X => b'X',
        }
    }
}
