ghost use Rattle.std.specs.Prelude.{◌≡◌, length};
ghost use Rattle.gate_model.specs.Making.{arms_for};
ghost use Rattle.gate.specs.Gates.{IsGate};
ghost use Rattle.ring.specs.Rings.{items};
ghost use Rattle.dispatcher.specs.Moves.{served, moved, ring_after};
ghost use Rattle.accesses.specs.Moves.{MovesMade, with_move};

use crate::cost::Cost;
use crate::counting_bank::{Accesses, Count, CountingBank};
use crate::runs::arm_of_turn;
use dispatcher::Dispatcher;
use doors::Door;
use gate_model::Phase;
use gate_model::arm::ARM_LIMIT;
use ring::Ring;
use std::rc::Rc;

// A place for each arm that a gate can have, by its number.
const PLACES: usize = ARM_LIMIT + 1;

// How many arms fit into the ring of those that are asked for.
const ASKED: usize = 24;

// Of each MOVES_A_BURST moves the first ASKS_A_BURST are those before which an arm asks.
const MOVES_A_BURST: u64 = 2048;

const ASKS_A_BURST: u64 = 16;

// What moves cost, by what each did: it stepped an arm, it let one go, or all arms were idle; and what the end cost.
#[derive(Clone, Copy)]
pub struct MoveBook {
    pub step: Cost,
    pub let_go: Cost,
    pub idle: Cost,
    pub stop: Cost,
    pub into_bank: Cost,
}

impl MoveBook {
    fn empty() -> MoveBook {
        let none = Cost::none();
        MoveBook {
            step: none,
            let_go: none,
            idle: none,
            stop: none,
            into_bank: none,
        }
    }

    // Adds one move, of an arm that was inside before it or not; of arm 0 where all were idle.
    fn add(&mut self, arm: usize, was_inside: bool, count: Count)
        ensures { self.new ≡ with_move arm was_inside count self.old }
    {
        if arm == 0 {
            self.idle.add(count);
        } else if was_inside {
            self.let_go.add(count);
        } else {
            self.step.add(count);
        }
    }
}

// A dispatcher over a bank that counts, and the book of what its moves cost. Each move is the dispatcher's own.
#[derive(Drop)]
pub struct WatchedDispatcher<D: Door> {
    dispatcher: Dispatcher<CountingBank, D>,
    accesses: Rc<Accesses>,
    book: MoveBook,
    // Which arms were inside when they were last noted.
    inside: [bool; PLACES],
}

impl<D: Door> WatchedDispatcher<D> {
    // Makes a dispatcher over a bank whose accesses are counted in these cells.
    pub fn new(
        bank: CountingBank,
        accesses: Rc<Accesses>,
        number: u16,
        wanted: usize,
    ) -> WatchedDispatcher<D>
        ensures number { result.dispatcher.gate.number ≡ number }
        ensures arms { result.dispatcher.gate.n ≡ arms_for D.table 255 (length bank.registers.items) wanted }
        ensures last { result.dispatcher.last ≡ 0 }
    {
        WatchedDispatcher {
            dispatcher: Dispatcher::<CountingBank, D>::new(bank, number, wanted),
            accesses,
            book: MoveBook::empty(),
            inside: [false; PLACES],
        }
    }

    fn arm_count(&self) -> usize
        ensures arms { result ≡ self.now.dispatcher.gate.n }
        ensures gate { IsGate D.table self.now.dispatcher.gate }
    {
        self.dispatcher.gate().arm_count()
    }

    // Whether an arm was inside when it was last noted.
    fn was_inside(&self, arm: usize) -> bool {
        matches!(self.inside.get(arm), Some(true))
    }

    // Notes what a move cost that served this arm, or none where it is 0, and whether the arm is inside after it.
    fn note(&mut self, arm: usize, count: Count)
        ensures { self.new.dispatcher ≡ self.old.dispatcher }
    {
        let was_inside = self.was_inside(arm);
        self.book.add(arm, was_inside, count);
        let inside = matches!(self.dispatcher.gate().phase(arm), Ok(Phase::F));
        if let Some(place) = self.inside.get_mut(arm) {
            *place = inside;
        }
    }

    fn make_move(&mut self, asked: &mut Ring<usize>) -> usize
        ensures answer { result ≡ served D.table self.old.dispatcher (items asked.old) }
        ensures after { self.new.dispatcher ≡ moved D.table self.old.dispatcher (items asked.old) }
        ensures ring { asked.new ≡ ring_after D.table self.old.dispatcher.gate asked.old }
    {
        let before = self.accesses.count();
        let arm = self.dispatcher.make_move(asked);
        let count = self.accesses.count().since(before);
        self.note(arm, count);
        arm
    }

    // Ends the dispatcher and its gate, and answers the book.
    pub fn end(self) -> MoveBook {
        let WatchedDispatcher {
            dispatcher,
            accesses,
            mut book,
            inside: _,
        } = self;
        let before = accesses.count();
        let gate = dispatcher.stop();
        let stopped = accesses.count();
        let _ = gate.into_bank();
        book.stop.add(stopped.since(before));
        book.into_bank.add(accesses.count().since(stopped));
        book
    }
}

// Makes so many moves. Arms ask in bursts, so that at times all are idle; among them is one that the gate does not have.
pub(crate) fn make_moves<D: Door>(dispatcher: &mut WatchedDispatcher<D>, moves: u64)
    ensures { MovesMade D.table moves dispatcher.old.dispatcher dispatcher.new.dispatcher }
{
    let n = dispatcher.arm_count();
    let mut memory = [0; ASKED];
    let mut asked = Ring::over(&mut memory);
    for t in 0..moves {
        if t % MOVES_A_BURST < ASKS_A_BURST {
            let _ = asked.put(arm_of_turn(t, n + 1));
        }
        let _ = dispatcher.make_move(&mut asked);
    }
}
