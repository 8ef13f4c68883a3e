ghost use Rattle.std.specs.Prelude.{◌≡◌};
ghost use Rattle.gate_model.specs.States.{is_arm};
ghost use Rattle.gate_model.specs.declared.call.Call.TheVariants.{Begin, Admit, Look, Way};
ghost use Rattle.gate_model.specs.Calls.{knows};
ghost use Rattle.gate.specs.Answers.{record_for};
ghost use Rattle.gate.specs.Gates.{IsGate};

use crate::gate::Gate;
use crate::pass::Pass;
use bank::Bank;
use doors::Door;
use gate_model::arm::Arm;
use gate_model::{Phase, Refusal};

// How many visits an arm begins at most.
const VISIT_LIMIT: u32 = 1_000_000_000;

impl<B: Bank, D: Door> Gate<B, D> {
    pub(crate) fn is_arm(&self, i: usize) -> bool
        ensures { result ≡ is_arm self.now i }
    {
        i >= 1 && i <= self.n
    }

    // The record of an arm that the gate has.
    pub(crate) fn record(&self, i: usize) -> Result<Arm<D>, Refusal>
        ensures record { result ≡ record_for D.table self.now (Look i) i }
        ensures gate { IsGate D.table self.now }
    {
        let arms = &self.arms;
        if !self.is_arm(i) {
            return Err(Refusal::NoArm);
        }
        Ok(arms[i - 1])
    }

    // The record of an arm that may begin.
    pub(crate) fn may_begin(&self, i: usize) -> Result<Arm<D>, Refusal>
        ensures { result ≡ record_for D.table self.now (Begin i) i }
    {
        let arm = self.record(i)?;
        match arm.position.phase() {
            Phase::I if arm.visits < VISIT_LIMIT => Ok(arm),
            Phase::I => Err(Refusal::Worn),
            _ => Err(Refusal::Busy),
        }
    }

    // The record of an arm that may be admitted.
    pub(crate) fn may_admit(&self, i: usize) -> Result<Arm<D>, Refusal>
        ensures { result ≡ record_for D.table self.now (Admit i) i }
    {
        let arm = self.record(i)?;
        match arm.position.phase() {
            Phase::F if arm.out => Err(Refusal::Taken),
            Phase::F => Ok(arm),
            _ => Err(Refusal::Elsewhere),
        }
    }

    // The record of an arm that waits.
    pub(crate) fn waits(&self, i: usize) -> Result<Arm<D>, Refusal>
        ensures record { result ≡ record_for D.table self.now (Way i) i }
        ensures gate { IsGate D.table self.now }
    {
        let arm = self.record(i)?;
        match arm.position.phase() {
            Phase::W => Ok(arm),
            _ => Err(Refusal::Elsewhere),
        }
    }

    // Whether the pass is of this gate and its arm's pass is out.
    pub(crate) fn knows(&self, pass: &Pass) -> bool
        ensures { result ≡ knows D.table self.now pass.now.gate pass.now.arm }
    {
        let i = pass.arm;
        let arms = &self.arms;
        pass.gate == self.number && self.is_arm(i) && arms[i - 1].out
    }
}
