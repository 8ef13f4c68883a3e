ghost use Rattle.std.specs.Prelude.{◌≡◌};
ghost use Rattle.gate_model.specs.States.{made};
ghost use Rattle.gate_model.specs.Calls.{after, run};
ghost use Rattle.gate_model.specs.Law.{Fair, PassingBound};
ghost use Rattle.gate_model.specs.Rules.{ShowsRules};
ghost use Rattle.gate_model.specs.Turns.{TurnsTold};

use crate::gate::Gate;
use crate::pass::{HandedBack, Pass};
use bank::Bank;
use doors::Door;
use gate_model::Call;

impl<B: Bank, D: Door> Gate<B, D> {
    // Makes one call of a list and drops its answer. No pass is kept: one that admit gives is ended, and one that the list names is made
    // for its call only.
    fn carry(&mut self, call: Call)
        ensures { self.new ≡ after D.table self.old call }
    {
        match call {
            Call::Begin(arm) => {
                let _ = self.begin(arm);
            }
            Call::Step(arm) => {
                let _ = self.step(arm);
            }
            Call::Admit(arm) => {
                if let Ok(pass) = self.admit(arm) {
                    pass.void();
                }
            }
            Call::Confirm { gate, arm } => {
                let (pass, _) = self.confirm(Pass::named(gate, arm));
                pass.void();
            }
            Call::Leave { gate, arm } => {
                if let Err(HandedBack { pass, refusal: _ }) = self.leave(Pass::named(gate, arm)) {
                    pass.void();
                }
            }
            Call::Look(arm) => {
                let _ = self.look(arm);
            }
            Call::Tally { arm, other } => {
                let _ = self.tally(arm, other);
            }
            Call::Way(arm) => {
                let _ = self.way(arm);
            }
        }
    }
}

/// Makes a gate over a bank as `Gate::make` does, and makes the calls of the list on it, one after another; a refused call alters nothing.
/// The list names a pass by gate number and arm, and no pass is handed out: an arm that the list admits can leave only by a leave of the same list.
pub fn carry_out<B: Bank, D: Door>(
    bank: B,
    number: u16,
    wanted: usize,
    calls: &[Call],
) -> Gate<B, D>
    ensures state { result ≡ run D.table (made D.table (record { memory = B.memory bank; high = B.HIGHEST; number = number; wanted = wanted; regs = B.values bank })) calls.now }
    ensures lent { result.memory.name ≡ (B.memory bank).name }
    ensures law { Fair D.table (made D.table (record { memory = B.memory bank; high = B.HIGHEST; number = number; wanted = wanted; regs = B.values bank })) calls.now result }
    ensures rules { ShowsRules D.table }
    ensures bound { PassingBound D.table }
    ensures turns { TurnsTold D.table (made D.table (record { memory = B.memory bank; high = B.HIGHEST; number = number; wanted = wanted; regs = B.values bank })) calls.now result }
{
    let mut gate = Gate::<B, D>::make(bank, number, wanted);
    for call in calls {
        gate.carry(*call);
    }
    gate
}
