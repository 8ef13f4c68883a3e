ghost use Rattle.std.specs.Prelude.{◌≡◌, ◌≢◌, ◌≤◌, true, false, None};
ghost use Rattle.gate_model.specs.Calls.{refusal_of};
ghost use Rattle.gate_model.specs.States.{is_arm, phase_at};
ghost use Rattle.gate_model.specs.declared.call.Call.TheVariants.{Admit};
ghost use Rattle.three_bits.specs.Positions.{three_bits};
ghost use Rattle.accesses.specs.Runs.{arm_of_turn, visited, turned, run_of};

use crate::watched::Watched;
use bank::BitBank;
use doors::{Door, ThreeBits};
use gate::{Gate, HandedBack};
use gate_model::Phase;

// Spreads the turns over the arms.
const SPREAD: u64 = 0x9e37_79b9_7f4a_7c15;

// The arm whose turn it is, of n arms.
pub(crate) fn arm_of_turn(turn: u64, n: usize) -> usize
    requires { 1 ≤ n }
    ensures arm { result ≡ arm_of_turn turn n }
    ensures low { 1 ≤ result }
    ensures high { result ≤ n }
{
    (turn.wrapping_mul(SPREAD) >> 33) as usize % n + 1
}

// Admits an arm, and lets it leave. In between its pass is confirmed, and another admit is refused.
fn visit<D: Door>(gate: &mut Watched<D>, arm: usize)
    requires { refusal_of D.table gate.old.gate (Admit arm) ≡ None }
    ensures { gate.new.gate ≡ visited D.table gate.old.gate arm }
{
    let pass = gate.admit(arm).unwrap();
    let _ = gate.admit(arm).unwrap_err();
    let (pass, _) = gate.confirm(pass);
    gate.leave(pass).unwrap();
}

// Makes the calls that the phase of an arm asks for. Of arms inside, those of even number are let go, the others are admitted and leave.
fn turn<D: Door>(gate: &mut Watched<D>, arm: usize)
    requires { is_arm gate.old.gate arm ≡ true }
    ensures { gate.new.gate ≡ turned D.table gate.old.gate arm }
{
    let view = gate.look(arm).unwrap();
    match view.phase {
        Phase::I => {
            let _ = gate.begin(arm);
        }
        Phase::D | Phase::W | Phase::X => {
            let _ = gate.step(arm);
        }
        // The pass is out: only its holder can let the arm leave.
        Phase::F if view.out => {}
        // Every other arm leaves at once.
        Phase::F if arm % 2 == 0 => {
            let _ = gate.let_go(arm);
        }
        Phase::F => visit(gate, arm),
    }
}

// Calls that tell of the gate and alter nothing.
pub fn watch<D: Door>(gate: &mut Watched<D>, arm: usize, other: usize)
    ensures { gate.new.gate ≡ gate.old.gate }
{
    let _ = gate.tally(arm, other);
    let _ = gate.most_passed(arm);
    let _ = gate.way(arm);
    let _ = gate.bit();
    let _ = gate.same();
}

// A run of so many turns: at each, one arm does what its phase asks for, and the calls of `watch` are made of it.
pub(crate) fn lively<D: Door>(gate: &mut Watched<D>, turns: u64)
    requires { 1 ≤ gate.old.gate.n }
    ensures { gate.new.gate ≡ run_of D.table turns gate.old.gate }
{
    let n = gate.arm_count();
    for t in 0..turns {
        let arm = arm_of_turn(t, n);
        turn(gate, arm);
        watch(gate, arm, n);
    }
}

// Calls at an arm that the gate does not have: each is refused.
fn ask_for<D: Door>(gate: &mut Watched<D>, stranger: usize)
    requires { is_arm gate.old.gate stranger ≡ false }
    ensures { gate.new.gate ≡ gate.old.gate }
{
    let _ = gate.begin(stranger).unwrap_err();
    let _ = gate.step(stranger).unwrap_err();
    let _ = gate.admit(stranger).unwrap_err();
    let _ = gate.let_go(stranger).unwrap_err();
    let _ = gate.phase(stranger).unwrap_err();
    let _ = gate.look(stranger).unwrap_err();
    let _ = gate.tally(1, stranger).unwrap_err();
    let _ = gate.tally(stranger, 1).unwrap_err();
    let _ = gate.most_passed(stranger).unwrap_err();
    let _ = gate.way(stranger).unwrap_err();
}

// Calls that are not for an arm in this phase: each is refused.
fn ask_wrongly<D: Door>(gate: &mut Watched<D>, arm: usize, phase: Phase)
    requires arm { is_arm gate.old.gate arm ≡ true }
    requires phase { phase ≡ phase_at D.table gate.old.gate arm }
    ensures { gate.new.gate ≡ gate.old.gate }
{
    match phase {
        Phase::I => {
            let _ = gate.step(arm).unwrap_err();
            let _ = gate.admit(arm).unwrap_err();
            let _ = gate.way(arm).unwrap_err();
        }
        Phase::D | Phase::X => {
            let _ = gate.begin(arm).unwrap_err();
            let _ = gate.admit(arm).unwrap_err();
            let _ = gate.way(arm).unwrap_err();
        }
        Phase::W => {
            let _ = gate.begin(arm).unwrap_err();
            let _ = gate.admit(arm).unwrap_err();
        }
        Phase::F => {
            let _ = gate.begin(arm).unwrap_err();
            let _ = gate.step(arm).unwrap_err();
            let _ = gate.way(arm).unwrap_err();
        }
    }
}

// Hands the pass of another gate to `confirm` and `leave` of this one, which says no and refuses, since the gate numbers differ. Then
// spends it at its own gate.
fn show_pass<D: Door>(gate: &mut Watched<D>, other: &mut Gate<BitBank, ThreeBits>)
    requires numbers { gate.old.gate.number ≢ other.old.number }
    requires inside { refusal_of three_bits other.old (Admit 1) ≡ None }
    ensures gate { gate.new.gate ≡ gate.old.gate }
    ensures other { other.new ≡ visited three_bits other.old 1 }
{
    let pass = other.admit(1).unwrap();
    let (pass, _) = gate.confirm(pass);
    let HandedBack { pass, refusal: _ } = gate.leave(pass).unwrap_err();
    other.leave(pass).unwrap();
}

// A turn of arm 1 of another gate. Where it is inside, its pass is handed to the gate that is watched, which refuses it.
fn turn_of_other<D: Door>(gate: &mut Watched<D>, other: &mut Gate<BitBank, ThreeBits>)
    requires arm { is_arm other.old 1 ≡ true }
    requires numbers { gate.old.gate.number ≢ other.old.number }
    ensures gate { gate.new.gate ≡ gate.old.gate }
    ensures other { other.new ≡ turned three_bits other.old 1 }
{
    let view = other.look(1).unwrap();
    match view.phase {
        Phase::I => {
            let _ = other.begin(1);
        }
        Phase::D | Phase::W | Phase::X => {
            let _ = other.step(1);
        }
        // The pass is out: only its holder can let the arm leave.
        Phase::F if view.out => {}
        Phase::F => show_pass(gate, other),
    }
}

// A turn that begins with calls that are refused: at arms that the gate does not have, at the arm whose turn it is,
// and by the pass of another gate.
fn turn_after_refusals<D: Door>(
    gate: &mut Watched<D>,
    other: &mut Gate<BitBank, ThreeBits>,
    arm: usize,
)
    requires arm { is_arm gate.old.gate arm ≡ true }
    requires other { is_arm other.old 1 ≡ true }
    requires numbers { gate.old.gate.number ≢ other.old.number }
    ensures gate { gate.new.gate ≡ turned D.table gate.old.gate arm }
    ensures other { other.new ≡ turned three_bits other.old 1 }
{
    let n = gate.arm_count();
    ask_for(gate, 0);
    ask_for(gate, n + 1);
    let phase = gate.phase(arm).unwrap();
    ask_wrongly(gate, arm, phase);
    turn_of_other(gate, other);
    turn(gate, arm);
}

// A run of so many turns, each of which begins with calls that are refused. The gate after it is as after `lively`.
pub(crate) fn refused<D: Door>(
    gate: &mut Watched<D>,
    other: &mut Gate<BitBank, ThreeBits>,
    turns: u64,
)
    requires arms { 1 ≤ gate.old.gate.n }
    requires others { 1 ≤ other.old.n }
    requires numbers { gate.old.gate.number ≢ other.old.number }
    ensures { gate.new.gate ≡ run_of D.table turns gate.old.gate }
{
    let n = gate.arm_count();
    for t in 0..turns {
        let arm = arm_of_turn(t, n);
        turn_after_refusals(gate, other, arm);
    }
}
