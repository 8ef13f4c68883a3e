//! A host that holds the passes of several arms at once, in a table beside the gate, while it steps others; each pass is spent later.
#![tactic(auto)]

ghost use Rattle.std.specs.Prelude.{◌≡◌, true, IfSome};
ghost use Rattle.gate.specs.Passes.{passes_out};
ghost use Rattle.passday.specs.Held.{IsHeld, out_with, out_without};

use bank::{Bank, BitBank};
use doors::{Door, ThreeBits};
use gate::{Gate, Pass};
use gate_model::Phase;

// How many steps an arm is given in a row: more than it takes to go inside where it has right of way.
const STEPS: usize = 60;

// Takes the pass of an arm; none where `admit` is refused.
fn take_in<B: Bank, D: Door>(gate: &mut Gate<B, D>, arm: usize) -> Option<Pass>
    ensures held { IsHeld D.table gate.new arm result }
    ensures passes { passes_out D.table gate.new ≡ out_with result (passes_out D.table gate.old) }
{
    gate.admit(arm).ok()
}

// Spends a pass, and so lets its arm go.
fn let_go<B: Bank, D: Door>(gate: &mut Gate<B, D>, held: Option<Pass>)
    requires { IfSome held (λ pass. passes_out D.table gate.old pass.gate pass.arm ≡ true) }
    ensures { passes_out D.table gate.new ≡ out_without held (passes_out D.table gate.old) }
{
    if let Some(pass) = held {
        let _ = gate.leave(pass).unwrap();
    }
}

// Begins an arm if it is idle, and calls `step` for it STEPS times, which is refused once it is inside or idle; answers its phase then.
// Passes that are held stay good.
fn step_on<B: Bank, D: Door>(gate: &mut Gate<B, D>, arm: usize) -> Phase
    ensures { passes_out D.table gate.new ≡ passes_out D.table gate.old }
{
    let _ = gate.begin(arm);
    for _ in 0..STEPS {
        let _ = gate.step(arm);
    }
    gate.phase(arm).unwrap_or(Phase::I)
}

// Holds the passes of arms 1 to 3 while it steps arm 4. Then spends that of arm 2, steps arm 2 to the end of its visit and again in its
// next one, and spends the other two. Answers the phases of arms 4, 2 and 2 after their steps.
fn hold_three<B: Bank, D: Door>(gate: &mut Gate<B, D>) -> [Phase; 3] {
    let table = [take_in(gate, 1), take_in(gate, 2), take_in(gate, 3)];
    let beside = step_on(gate, 4);
    let [first, second, third] = table;
    let_go(gate, second);
    let gone = step_on(gate, 2);
    let again = step_on(gate, 2);
    let_go(gate, third);
    let_go(gate, first);
    [beside, gone, again]
}

fn main(rt: HostRuntime) -> anyhow::Result<()> {
    let mut gate = Gate::<_, ThreeBits>::make(BitBank::new(), 7, 6);
    for arm in 1..4 {
        let _ = step_on(&mut gate, arm);
    }
    let [beside, gone, again] = hold_three(&mut gate);
    println!(rt; "arm 4 beside three passes: {beside:?}")?;
    println!(rt; "arm 2 without its pass: {gone:?}, and asked again: {again:?}")?;
    for arm in 1..7 {
        if let Ok(phase) = gate.phase(arm) {
            println!(rt; "arm {arm}: {phase:?}")?;
        }
    }
    Ok(())
}
