ghost use Rattle.std.specs.Prelude.{◌≡◌, IfOk};
ghost use Rattle.gate.specs.Answers.{phase_answer, look_answer, tally_answer, most_answer};
ghost use Rattle.gate_model.specs.Indexes.{IndexFits};
ghost use Rattle.gate_model.specs.States.{bit_of};
ghost use Rattle.gate_model.specs.Turns.{TurnsLaw};
ghost use Rattle.gate.specs.Gates.{IsGate};

use crate::gate::{Gate, Tally, View};
use crate::rows::{largest, phase_at};
use bank::Bank;
use doors::Door;
use gate_model::access::{GROUP, value_at};
use gate_model::{Phase, Refusal};

impl<B: Bank, D: Door> Gate<B, D> {
    /// How many arms the gate has, `ARM_LIMIT` at most. The contract also says that a making and a list of calls lead to the gate.
    pub fn arm_count(&self) -> usize
        ensures arms { result ≡ self.now.n }
        ensures gate { IsGate D.table self.now }
    {
        self.n
    }

    /// The bit, which is the value of register 0; 0 where the gate has no arms.
    pub fn bit(&self) -> u64
        ensures { result ≡ bit_of self.now }
    {
        if self.arm_count() == 0 {
            return 0;
        }
        value_at(&self.bank, GROUP)
    }

    /// The phase of an arm. Refuses with 1.
    pub fn phase(&self, arm: usize) -> Result<Phase, Refusal>
        ensures { result ≡ phase_answer D.table self.now arm }
    {
        if !self.is_arm(arm) {
            return Err(Refusal::NoArm);
        }
        Ok(phase_at(&self.arms, arm - 1))
    }

    /// Phase, side, index, visits and mark of an arm, and how often the bit turned. Refuses with 1.
    pub fn look(&self, arm: usize) -> Result<View, Refusal>
        ensures answer { result ≡ look_answer D.table self.now arm }
        ensures turns { TurnsLaw D.table self.now }
        ensures index { IfOk result (λ view. IndexFits self.now.n view.phase view.index) }
    {
        let record = self.record(arm)?;
        Ok(View {
            phase: record.position.phase(),
            side: record.side,
            index: record.position.index(),
            visits: record.visits,
            out: record.out,
            turns: self.turns,
        })
    }

    /// How often the other arm went inside during this one's present wait, or its last one where it does not wait; and whether the other
    /// was idle when this one ended its doorway before that wait. Refuses with 1, for either arm.
    #[tactic(auto, using(crate::proofs::RecordsRead::tally_told))]
    pub fn tally(&self, arm: usize, other: usize) -> Result<Tally, Refusal>
        ensures { result ≡ tally_answer D.table self.now arm other }
    {
        let record = self.record(arm)?;
        self.record(other)?;
        Ok(Tally {
            count: record.row[other - 1],
            idle: record.notes[other - 1],
        })
    }

    /// The largest count of the arm's row: the most that one other arm went inside during its present wait, or its last one where it
    /// does not wait. Refuses with 1.
    pub fn most_passed(&self, arm: usize) -> Result<u8, Refusal>
        ensures { result ≡ most_answer D.table self.now arm }
    {
        let record = self.record(arm)?;
        Ok(largest(&record.row, self.n))
    }
}
