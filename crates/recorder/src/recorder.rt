ghost use Rattle.std.specs.Prelude.{◌≡◌, ◌≤◌};
ghost use Rattle.recorder.specs.Kept.{LawInHand};
ghost use Rattle.recorder.specs.Law.{LawOfRecords};
ghost use Rattle.recorder.specs.Recorders.{IsRecorder};
ghost use Rattle.schedule.specs.FileLimits.{file_limit};

use crate::refusal::Refusal;
use bank::Bank;
use doors::Door;
use gate::{Gate, Pass};
use std::marker::Model;

/// A pass that `leave` did not spend, handed back with the refusal.
pub struct HandedBack {
    pub pass: Pass,
    pub refusal: Refusal,
}

impl From<gate::HandedBack> for HandedBack {
    ghost use Rattle.recorder.specs.declared.refusal.Refusal.TheVariants.{Gate};

    ghost from_gives = { λ back r. r ≡ record { pass = back.pass; refusal = Gate back.refusal } };

    fn from(back: gate::HandedBack) -> HandedBack {
        let gate::HandedBack { pass, refusal } = back;
        HandedBack {
            pass,
            refusal: Refusal::Gate(refusal),
        }
    }
}

/// Makes the calls of a gate that it owns, and writes down each accepted begin, step and leave.
#[derive(Drop)]
pub struct Recorder<B: Bank, D: Door> {
    pub(crate) gate: Gate<B, D>,
    pub(crate) written: usize,
    pub(crate) fit: bool,
}

// Clauses see a recorder as the state of its gate, how many bytes it has written, and whether it records this gate.
impl<B: Bank, D: Door> Model for Recorder<B, D> {
    ghost use Rattle.recorder.specs.Recorders.{Recording, IsRecorder};

    ghost Value = { Recording D };

    ghost view = { λ r. record { gate = r.gate; written = r.written; fit = r.fit } };

    ghost invariant = { λ r. IsRecorder D.table (record { gate = r.gate; written = r.written; fit = r.fit }) };
}

impl<B: Bank, D: Door> Recorder<B, D> {
    /// How many bytes of the file are written, 60,000 at most: the file is these first bytes of the memory, as long as the host left
    /// them in place. The contract also says that a gate, a start and calls lead to the recorder.
    pub fn written(&self) -> usize
        ensures is { result ≡ self.now.written }
        ensures short { result ≤ file_limit }
        ensures recorder { IsRecorder D.table self.now }
    {
        self.written
    }

    /// Lends the gate. Every call that alters nothing can be made on it, as in `recorder.gate().look(arm)`.
    pub fn gate(&self) -> &Gate<B, D>
        ensures gate { result.now ≡ self.now.gate }
        ensures law { LawOfRecords D.table self.now }
        ensures in_hand { LawInHand D.table self.now }
    {
        &self.gate
    }

    /// Ends the recorder, which is never refused, and hands its gate back as it stands. A pass that is out is spent by the gate's own
    /// `leave` from then on.
    pub fn stop(self) -> Gate<B, D>
        ensures gate { result ≡ self.gate }
        ensures law { LawOfRecords D.table self }
    {
        let Recorder {
            gate,
            written: _,
            fit: _,
        } = self;
        gate
    }
}
