ghost use Rattle.std.specs.Prelude.{◌≡◌};
ghost use Rattle.gate_model.specs.Refusals.{refusal_number};

use std::error::Error;
use std::fmt;

/// Why a gate refuses a call. A refused call alters nothing.
#[derive(Clone, Copy, Debug, PartialEq, Eq)]
pub enum Refusal {
    /// The gate has no such arm: it is 0, or above the arm count.
    NoArm,
    /// Begin: the arm is not idle.
    Busy,
    /// Step: the arm is idle.
    Idle,
    /// Step: the arm is inside.
    Inside,
    /// Begin: the arm is idle and has begun 1,000,000,000 visits.
    Worn,
    /// Admit and let_go: the arm is not inside. Way: it does not wait.
    Elsewhere,
    /// Admit and let_go: the arm's pass is out already.
    Taken,
    /// Leave: the pass is of another gate, or its arm's pass is not out.
    StrangePass,
}

impl Refusal {
    /// The number that a refusal is known by, 1 to 8.
    pub fn number(self) -> u8
        ensures { result ≡ refusal_number self }
    {
        match self {
            Refusal::NoArm => 1,
            Refusal::Busy => 2,
            Refusal::Idle => 3,
            Refusal::Inside => 4,
            Refusal::Worn => 5,
            Refusal::Elsewhere => 6,
            Refusal::Taken => 7,
            Refusal::StrangePass => 8,
        }
    }
}

impl fmt::Display for Refusal {
    ghost use Rattle.std.specs.Prelude.{Some};
    ghost use Rattle.gate_model.specs.Refusals.{refusal_word};

    ghost output = { λ r. Some (refusal_word r) };

    fn fmt<W: fmt::Write>(&self, f: &mut fmt::Formatter<W>) -> fmt::Result {
        f.write_str(match self {
            Refusal::NoArm => "no arm",
            Refusal::Busy => "busy",
            Refusal::Idle => "idle",
            Refusal::Inside => "inside",
            Refusal::Worn => "worn",
            Refusal::Elsewhere => "elsewhere",
            Refusal::Taken => "taken",
            Refusal::StrangePass => "strange pass",
        })
    }
}

impl Error for Refusal {}
