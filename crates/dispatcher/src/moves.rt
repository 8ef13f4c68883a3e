ghost use Rattle.std.specs.Prelude.{◌≡◌, ◌≤◌, IsTrue};
ghost use Rattle.gate_model.specs.Calls.{run};
ghost use Rattle.ring.specs.Rings.{items};
ghost use Rattle.dispatcher.specs.Dispatchers.{NoPassOut};
ghost use Rattle.dispatcher.specs.Moves.{is_busy, is_inside, first_busy, goes_off, opening, serving, ring_after, items_after, served, moved};
ghost use Rattle.dispatcher.specs.Law.{LawOfMoves};

use crate::dispatcher::Dispatcher;
use bank::Bank;
use doors::Door;
use gate::Gate;
use gate_model::{Phase, Refusal};
use ring::Ring;

// Whether the head of the ring is taken off, by what `begin` answered: it is begun, or refused with 1 or 5. One refused with 2 (busy) stays.
fn goes_off(begun: Result<Phase, Refusal>) -> bool
    ensures { result ≡ goes_off begun }
{
    matches!(begun, Ok(_) | Err(Refusal::NoArm | Refusal::Worn))
}

// Begins the arm at the head of the ring, and takes it off unless it is busy.
fn begin_asked<B: Bank, D: Door>(gate: &mut Gate<B, D>, asked: &mut Ring<usize>)
    ensures gate { gate.new ≡ run D.table gate.old (opening (items asked.old)) }
    ensures ring { asked.new ≡ ring_after D.table gate.old asked.old }
    ensures items { items asked.new ≡ items_after D.table gate.old (items asked.old) }
{
    let Some(arm) = asked.first() else {
        return;
    };
    if goes_off(gate.begin(arm)) {
        let _ = asked.take();
    }
}

// Whether an arm of the gate is not idle.
fn is_busy<B: Bank, D: Door>(gate: &Gate<B, D>, arm: usize) -> bool
    ensures { result ≡ is_busy D.table gate.now arm }
{
    matches!(gate.phase(arm), Ok(phase) if phase != Phase::I)
}

// Whether an arm of the gate is inside.
fn is_inside<B: Bank, D: Door>(gate: &Gate<B, D>, arm: usize) -> bool
    ensures { result ≡ is_inside D.table gate.now arm }
{
    matches!(gate.phase(arm), Ok(Phase::F))
}

// The first arm that is not idle in cyclic order after arm `last`; from arm 1 on where `last` is 0.
fn first_busy<B: Bank, D: Door>(gate: &Gate<B, D>, last: usize) -> Option<usize>
    requires { last ≤ gate.now.n }
    ensures { result ≡ first_busy D.table gate.now last }
{
    let n = gate.arm_count();
    let mut in_turn = (last + 1..n + 1).chain(1..last + 1);
    in_turn.find(
        |arm| -> bool
            ensures { result ≡ is_busy D.table gate.entry.now arm.now }
        { is_busy(gate, *arm) },
    )
}

// Serves an arm: one inside is let go, any other makes its next step.
fn serve<B: Bank, D: Door>(gate: &mut Gate<B, D>, arm: usize)
    requires busy { IsTrue (is_busy D.table gate.old arm) }
    requires spent { NoPassOut D.table gate.old }
    ensures gate { gate.new ≡ run D.table gate.old (serving D.table gate.old arm) }
{
    if is_inside(gate, arm) {
        let _ = gate.let_go(arm).unwrap();
    } else {
        let _ = gate.step(arm).unwrap();
    }
}

impl<B: Bank, D: Door> Dispatcher<B, D> {
    /// Makes one move. It begins the arm at the head of the ring. A head that is begun is taken off, and so is one that the gate refuses
    /// with 1 or 5; a busy one (2) stays, and with it all behind it.
    /// Then it serves the first arm that is not idle in cyclic order after the one served last: an arm inside is let go, any other makes
    /// its next step. Answers the arm served, or 0 where all are idle. It is never refused, and makes one register access at most.
    pub fn make_move(&mut self, asked: &mut Ring<usize>) -> usize
        ensures answer { result ≡ served D.table self.old (items asked.old) }
        ensures after { self.new ≡ moved D.table self.old (items asked.old) }
        ensures ring { asked.new ≡ ring_after D.table self.old.gate asked.old }
        ensures items { items asked.new ≡ items_after D.table self.old.gate (items asked.old) }
        ensures law { LawOfMoves D.table self.new }
    {
        begin_asked(&mut self.gate, asked);
        let Some(arm) = first_busy(&self.gate, self.last) else {
            return 0;
        };
        serve(&mut self.gate, arm);
        self.last = arm;
        arm
    }
}
