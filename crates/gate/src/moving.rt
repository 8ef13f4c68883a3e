ghost use Rattle.std.specs.Prelude.{◌≡◌, ◌≤◌, if◌then◌else◌, ◌&&◌, None, IsTrue, OnOk};
ghost use Rattle.gate_model.specs.declared.phase.Phase.TheVariants as P;
ghost use Rattle.gate_model.specs.declared.call.Call.TheVariants.{Begin, Step};
ghost use Rattle.gate_model.specs.Accesses.{OneAccess, can_make};
ghost use Rattle.gate.specs.Answers.{step_answer};
ghost use Rattle.gate.specs.Gates.{IsGate};
ghost use Rattle.gate.specs.Passes.{passes_out};
ghost use Rattle.gate_model.specs.Calls.{answered, refusal_of, after, access_at, arm_after, stepped};
ghost use Rattle.gate_model.specs.Arms.{advanced};
ghost use Rattle.gate_model.specs.Phases.{same_phase};
ghost use Rattle.gate_model.specs.States.{arm_at};

use crate::gate::Gate;
use crate::rows::follow;
use bank::Bank;
use doors::Door;
use gate_model::access::Outcome;
use gate_model::arm::Arm;
use gate_model::{Phase, Refusal};

// Takes an arm to its next position, which follows from its position, its side and the value just read. Answers the phase after that.
// The arm gets its side where its doorway reads the bit, and has none from its last exit step on.
// `from` is the arm's position and `phase` the phase of that: the caller has both, so neither is read again after the access.
#[inline(always)]
fn advance<D: Door>(arm: &mut Arm<D>, from: D, phase: Phase, n: u8, value: u64) -> Phase
    requires at { from ≡ arm.old.position }
    requires phase { phase ≡ D.table.phase from }
    ensures after { arm.new ≡ advanced D.table n value arm.old }
    ensures phase { result ≡ D.table.phase arm.new.position }
{
    let mut position = from;
    position.advance(n, arm.side_value(), value);
    let to = position.phase();
    arm.position = position;
    match (phase, to) {
        (Phase::D, _) if from.reads_bit() => arm.side = Some(value),
        (Phase::X, Phase::I) => arm.side = None,
        _ => {}
    }
    to
}

// What a step from a phase adds to the turns of the bit: 1 if its write turned it. Only an exit step can.
fn turns(from: Phase, turned: bool) -> u64
    ensures { result ≡ (if same_phase from P.X && turned then 1 else 0) }
{
    u64::from(from == Phase::X && turned)
}

impl<B: Bank, D: Door> Gate<B, D> {
    /// Begins a visit of an idle arm. Refuses with 1, 2 or 5.
    #[tactic(auto, using(crate::proofs::RecordPlaces::place_fits))]
    pub fn begin(&mut self, arm: usize) -> Result<Phase, Refusal>
        ensures answer { result ≡ answered (refusal_of D.table self.old (Begin arm)) P.D }
        ensures after { self.new ≡ after D.table self.old (Begin arm) }
        ensures passes { passes_out D.table self.new ≡ passes_out D.table self.old }
    {
        self.may_begin(arm)?;
        let record = &mut self.arms[arm - 1];
        record.position = D::entry();
        record.visits += 1;
        Ok(Phase::D)
    }

    /// Makes the one access of an arm that is neither idle nor inside, and answers the phase after it. Refuses with 1, 3 or 4.
    pub fn step(&mut self, arm: usize) -> Result<Phase, Refusal>
        ensures answer { result ≡ step_answer D.table self.old arm }
        ensures after { self.new ≡ after D.table self.old (Step arm) }
        ensures passes { passes_out D.table self.new ≡ passes_out D.table self.old }
        ensures one { OneAccess D.table self.old arm self.new }
        ensures made { OnOk result (IsTrue (can_make self.old (access_at D.table self.old arm))) }
    {
        self.step_by_phase(arm)
    }

    // The phase of the arm is tested here and nowhere later in the step: `move_on` is compiled three times, for one phase each.
    fn step_by_phase(&mut self, arm: usize) -> Result<Phase, Refusal>
        ensures answer { result ≡ step_answer D.table self.old arm }
        ensures after { self.new ≡ after D.table self.old (Step arm) }
        ensures gate { IsGate D.table self.old }
    {
        let from = self.record(arm)?.position;
        match from.phase() {
            Phase::I => Err(Refusal::Idle),
            Phase::D => Ok(self.move_on(arm, from, Phase::D)),
            Phase::W => Ok(self.move_on(arm, from, Phase::W)),
            Phase::F => Err(Refusal::Inside),
            Phase::X => Ok(self.move_on(arm, from, Phase::X)),
        }
    }

    // Makes the step of an arm that may step: its access, its next position, what this changes in the rows, and the turns of the bit.
    // Answers the phase after it. `from` is the arm's position, and `phase` the phase of that.
    #[inline(always)]
    fn move_on(&mut self, arm: usize, from: D, phase: Phase) -> Phase
        requires low { 1 ≤ arm }
        requires high { arm ≤ self.old.n }
        requires may { refusal_of D.table self.old (Step arm) ≡ None }
        requires at { from ≡ (arm_at D.table self.old arm).position }
        requires phase { phase ≡ D.table.phase from }
        ensures answer { result ≡ D.table.phase (arm_after D.table self.old arm).position }
        ensures after { self.new ≡ stepped D.table arm self.old }
    {
        let n = self.n as u8;
        let record = &mut self.arms[arm - 1];
        let access = from.access(arm as u8, record.side_value());
        let Outcome { value, turned } = access.make(&mut self.bank);
        let to = advance(record, from, phase, n, value);
        follow(&mut self.arms, self.n, arm - 1, phase, to);
        self.turns += turns(phase, turned);
        to
    }
}
