ghost use Rattle.std.specs.Prelude.{◌≡◌};
ghost use Rattle.recorder.specs.declared.refusal.Refusal.TheVariants as R;
ghost use Rattle.recorder.specs.Refusals.{refusal_number};

use std::error::Error;
use std::fmt;

/// Why a recorder refuses a call. A refused call changes neither the gate nor the memory.
#[derive(Clone, Copy, Debug, PartialEq, Eq)]
pub enum Refusal {
    /// Begin, step, leave and start: fewer than two bytes are free in the memory after those written, or fewer than two are left up to
    /// 60,000.
    FileFull,
    /// Start: the gate has 0 arms, or a visit of one of them was begun. Begin, step, admit and leave: the recorder was handed such a
    /// gate, or one with another arm count than its start wrote.
    UnfitGate,
    /// What the gate refused, and why.
    Gate(gate_model::Refusal),
}

impl From<gate_model::Refusal> for Refusal {
    ghost from_gives = { λ g r. r ≡ R.Gate g };

    fn from(refusal: gate_model::Refusal) -> Refusal {
        Refusal::Gate(refusal)
    }
}

impl Refusal {
    /// The number that a refusal is known by: 18, 19, or that of the gate's refusal, 1 to 8.
    pub fn number(self) -> u8
        ensures { result ≡ refusal_number self }
    {
        match self {
            Refusal::FileFull => 18,
            Refusal::UnfitGate => 19,
            Refusal::Gate(refusal) => refusal.number(),
        }
    }
}

impl fmt::Display for Refusal {
    ghost use Rattle.std.specs.Prelude.{Some};
    ghost use Rattle.recorder.specs.Refusals.{refusal_word};

    ghost output = { λ r. Some (refusal_word r) };

    fn fmt<W: fmt::Write>(&self, f: &mut fmt::Formatter<W>) -> fmt::Result {
        match self {
            Refusal::FileFull => f.write_str("file full"),
            Refusal::UnfitGate => f.write_str("unfit gate"),
            Refusal::Gate(refusal) => refusal.fmt(f),
        }
    }
}

impl Error for Refusal {}
