ghost use Rattle.std.specs.Prelude.{◌≡◌, true, false, IsTrue, IfOk};
ghost use Rattle.gate_model.specs.declared.call.Call.TheVariants.{Admit, Leave};
ghost use Rattle.gate.specs.Answers.{admit_answer, leave_answer, let_go_answer};
ghost use Rattle.gate.specs.Passes.{passes_out, with_given, without, spent_if};
ghost use Rattle.gate_model.specs.Calls.{after, knows, left_at_once};

use crate::gate::Gate;
use crate::pass::{HandedBack, Pass};
use bank::Bank;
use doors::Door;
use gate_model::{Phase, Refusal};

impl<B: Bank, D: Door> Gate<B, D> {
    /// Gives the pass of an arm inside, and marks it as out. Refuses with 1, 6 or 7.
    /// The pass must be spent by `leave`.
    #[tactic(auto, using(crate::proofs::RecordPlaces::place_fits), unfolding(crate::specs::Passes::passes_out))]
    pub fn admit(&mut self, arm: usize) -> Result<Pass, Refusal>
        ensures answer { result ≡ admit_answer D.table self.old arm }
        ensures after { self.new ≡ after D.table self.old (Admit arm) }
        ensures known { IfOk result (λ pass. IsTrue (knows D.table self.new pass.gate pass.arm)) }
        ensures passes { passes_out D.table self.new ≡ with_given result (passes_out D.table self.old) }
        ensures arm { IfOk result (λ pass. pass.arm ≡ arm) }
        ensures out { IfOk result (λ pass. passes_out D.table self.new pass.gate pass.arm ≡ true) }
        ensures fresh { IfOk result (λ pass. passes_out D.table self.old pass.gate pass.arm ≡ false) }
    {
        self.may_admit(arm)?;
        self.arms[arm - 1].out = true;
        Ok(Pass {
            gate: self.number,
            arm,
            spent: false,
        })
    }

    /// Hands the pass back, with yes if it is of this gate and its arm's pass is out. It is never refused.
    #[tactic(auto, unfolding(crate::specs::Passes::passes_out))]
    pub fn confirm(&self, pass: Pass) -> (Pass, bool)
        ensures same { result.0 ≡ pass }
        ensures answer { result.1 ≡ knows D.table self.now pass.gate pass.arm }
        ensures out { result.1 ≡ passes_out D.table self.now pass.gate pass.arm }
    {
        let yes = self.knows(&pass);
        (pass, yes)
    }

    /// Spends a pass that `confirm` would say yes to, and takes its arm to the first step of its exit. Any other is handed back with 8.
    #[tactic(auto, using(crate::proofs::RecordPlaces::place_fits), unfolding(crate::specs::Passes::passes_out))]
    pub fn leave(&mut self, mut pass: Pass) -> Result<Phase, HandedBack>
        ensures answer { result ≡ leave_answer D.table self.old pass }
        ensures after { self.new ≡ after D.table self.old (Leave pass.gate pass.arm) }
        ensures passes { passes_out D.table self.new ≡ without pass (passes_out D.table self.old) }
        ensures spent { result ≡ spent_if (passes_out D.table self.old pass.gate pass.arm) pass }
    {
        if !self.knows(&pass) {
            return Err(HandedBack {
                pass,
                refusal: Refusal::StrangePass,
            });
        }
        let record = &mut self.arms[pass.arm - 1];
        record.position = D::exit();
        record.out = false;
        pass.spent = true;
        Ok(Phase::X)
    }

    /// Admits an arm and lets it leave at once. Refuses as `admit` does, with 1, 6 or 7: an arm whose pass is out leaves only by that pass.
    pub fn let_go(&mut self, arm: usize) -> Result<Phase, Refusal>
        ensures answer { result ≡ let_go_answer D.table self.old arm }
        ensures after { self.new ≡ left_at_once D.table self.old arm }
        ensures passes { passes_out D.table self.new ≡ passes_out D.table self.old }
    {
        let pass = self.admit(arm)?;
        Ok(self.leave(pass).unwrap())
    }
}
