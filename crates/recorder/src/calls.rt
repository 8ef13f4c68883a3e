ghost use Rattle.std.specs.Prelude.{◌≡◌, ◌+◌, ◌≤◌, if◌then◌else◌, true, IfOk, IsTrue, length, Ok, Err, Some};
ghost use Rattle.gate.specs.Answers.{step_answer, admit_answer, leave_answer};
ghost use Rattle.gate.specs.Passes.{passes_out, spent_if};
ghost use Rattle.gate_model.specs.Calls.{answered, refusal_of};
ghost use Rattle.gate_model.specs.Limits.{arm_limit};
ghost use Rattle.gate_model.specs.declared.call.Call.TheVariants.{Begin, Step, Admit, Leave};
ghost use Rattle.gate_model.specs.declared.phase.Phase.TheVariants as P;
ghost use Rattle.recorder.specs.Answers.{passed_on, leave_passed_on, with_given, with_spent};
ghost use Rattle.recorder.specs.Recorders.{handed, turned_down, after_call, memory_after, order_size, written_down, has_room};
ghost use Rattle.recorder.specs.declared.refusal.Refusal.TheVariants as R;
ghost use Rattle.schedule.specs.FileLimits.{largest_number};
ghost use Rattle.schedule.specs.Orders.{order_number};

use crate::recorder::{HandedBack, Recorder};
use crate::refusal::Refusal;
use crate::starting::has_room;
use bank::Bank;
use doors::Door;
use gate::Pass;
use gate_model::Phase;
use schedule::{Order, append};

// Writes an order behind the bytes that are written, and answers how many there are then.
fn write(order: Order, file: &mut [u8], written: usize) -> usize
    requires small { order_number order ≤ largest_number }
    requires room { IsTrue (has_room written (length file.old)) }
    ensures end { result ≡ written + order_size (Some order) }
    ensures after { file.new ≡ written_down (Some order) written file.old }
{
    append(order, file, written).unwrap()
}

impl<B: Bank, D: Door> Recorder<B, D> {
    // Whether the gate may be called: whether it is one that is recorded; else 19.
    #[tactic(auto, using(crate::proofs::InHand::few_arms))]
    fn may_call(&self) -> Result<(), Refusal>
        ensures few { self.now.gate.n ≤ arm_limit }
        ensures answer { result ≡ (if self.now.fit then Ok tt else Err R.UnfitGate) }
    {
        if !self.fit {
            return Err(Refusal::UnfitGate);
        }
        Ok(())
    }

    // Whether a call may be made that is written if the gate accepts it, with memory of so many bytes; else 19, then 18.
    fn may_write(&self, size: usize) -> Result<(), Refusal>
        ensures few { self.now.gate.n ≤ arm_limit }
        ensures answer { result ≡ (if self.now.fit then (if has_room self.now.written size then Ok tt else Err R.FileFull) else Err R.UnfitGate) }
    {
        self.may_call()?;
        if !has_room(self.written, size) {
            return Err(Refusal::FileFull);
        }
        Ok(())
    }

    /// Begins a visit of an idle arm, and writes it down. Refuses with 19, 18, or as the gate does: 1, 2 or 5.
    pub fn begin(&mut self, arm: usize, file: &mut [u8]) -> Result<Phase, Refusal>
        ensures answer { result ≡ passed_on (turned_down self.old (handed (Begin arm) file.old)) (answered (refusal_of D.table self.old.gate (Begin arm)) P.D) }
        ensures after { self.new ≡ after_call D.table self.old (handed (Begin arm) file.old) }
        ensures memory { file.new ≡ memory_after D.table self.old (handed (Begin arm) file.old) }
        ensures passes { passes_out D.table self.new.gate ≡ passes_out D.table self.old.gate }
    {
        self.may_write(file.len())?;
        let phase = self.gate.begin(arm)?;
        self.written = write(Order::Begin(arm as u16), file, self.written);
        Ok(phase)
    }

    /// Makes the one access of an arm that is neither idle nor inside, writes it down, and answers the phase after it.
    /// Refuses with 19, 18, or as the gate does: 1, 3 or 4.
    pub fn step(&mut self, arm: usize, file: &mut [u8]) -> Result<Phase, Refusal>
        ensures answer { result ≡ passed_on (turned_down self.old (handed (Step arm) file.old)) (step_answer D.table self.old.gate arm) }
        ensures after { self.new ≡ after_call D.table self.old (handed (Step arm) file.old) }
        ensures memory { file.new ≡ memory_after D.table self.old (handed (Step arm) file.old) }
        ensures passes { passes_out D.table self.new.gate ≡ passes_out D.table self.old.gate }
    {
        self.may_write(file.len())?;
        let phase = self.gate.step(arm)?;
        self.written = write(Order::Step(arm as u16), file, self.written);
        Ok(phase)
    }

    /// Gives the pass of an arm inside. It is not written down, since a leave order admits and leaves, so the memory, which comes with
    /// every call, is left alone, full or not. Refuses with 19, or as the gate does: 1, 6 or 7. The pass must be spent by `leave`.
    pub fn admit(&mut self, arm: usize, _file: &mut [u8]) -> Result<Pass, Refusal>
        ensures answer { result ≡ passed_on (turned_down self.old (handed (Admit arm) _file.old)) (admit_answer D.table self.old.gate arm) }
        ensures after { self.new ≡ after_call D.table self.old (handed (Admit arm) _file.old) }
        ensures memory { _file.new ≡ memory_after D.table self.old (handed (Admit arm) _file.old) }
        ensures passes { passes_out D.table self.new.gate ≡ with_given result (passes_out D.table self.old.gate) }
        ensures arm { IfOk result (λ pass. pass.arm ≡ arm) }
        ensures out { IfOk result (λ pass. passes_out D.table self.new.gate pass.gate pass.arm ≡ true) }
    {
        self.may_call()?;
        let pass = self.gate.admit(arm)?;
        Ok(pass)
    }

    /// Spends a pass of this gate that is out, takes its arm to the first step of its exit, and writes that down. Refuses with 19, 18,
    /// or as the gate does: 8. Each hands the pass back.
    pub fn leave(&mut self, pass: Pass, file: &mut [u8]) -> Result<Phase, HandedBack>
        ensures answer { result ≡ leave_passed_on pass (turned_down self.old (handed (Leave pass.gate pass.arm) file.old)) (leave_answer D.table self.old.gate pass) }
        ensures after { self.new ≡ after_call D.table self.old (handed (Leave pass.gate pass.arm) file.old) }
        ensures memory { file.new ≡ memory_after D.table self.old (handed (Leave pass.gate pass.arm) file.old) }
        ensures passes { passes_out D.table self.new.gate ≡ with_spent pass result (passes_out D.table self.old.gate) }
        ensures spent { result ≡ leave_passed_on pass (turned_down self.old (handed (Leave pass.gate pass.arm) file.old)) (spent_if (passes_out D.table self.old.gate pass.gate pass.arm) pass) }
    {
        if let Err(refusal) = self.may_write(file.len()) {
            return Err(HandedBack { pass, refusal });
        }
        let arm = pass.arm();
        let phase = self.gate.leave(pass)?;
        self.written = write(Order::Leave(arm as u16), file, self.written);
        Ok(phase)
    }
}
