ghost use Rattle.std.specs.Prelude.{◌≡◌};
ghost use Rattle.ring.specs.Refusals.{refusal_number};

use std::error::Error;
use std::fmt;

/// Why a ring refuses a call. A refused call changes neither the ring nor its memory.
#[derive(Clone, Copy, Debug, PartialEq, Eq)]
pub enum Refusal {
    /// Put: the ring is as full as its memory allows.
    RingFull,
}

impl Refusal {
    /// The number that a refusal is known by: 17.
    pub fn number(self) -> u8
        ensures { result ≡ refusal_number self }
    {
        match self {
            Refusal::RingFull => 17,
        }
    }
}

impl fmt::Display for Refusal {
    ghost use Rattle.std.specs.Prelude.{Some};
    ghost use Rattle.ring.specs.Refusals.{refusal_word};

    ghost output = { λ r. Some (refusal_word r) };

    fn fmt<W: fmt::Write>(&self, f: &mut fmt::Formatter<W>) -> fmt::Result {
        f.write_str(match self {
            Refusal::RingFull => "ring full",
        })
    }
}

impl Error for Refusal {}
