ghost use Rattle.std.specs.Prelude.{◌≡◌};
ghost use Rattle.dispatcher.specs.Dispatchers.{NoPassOut, started};
ghost use Rattle.dispatcher.specs.Law.{LawOfMoves};

use bank::Bank;
use doors::Door;
use gate::Gate;
use std::marker::Model;

/// Steps the arms of a gate, one move a call. It owns its gate; the passes that a move takes are spent within the move.
#[derive(Drop)]
pub struct Dispatcher<B: Bank, D: Door> {
    pub(crate) gate: Gate<B, D>,
    pub(crate) last: usize,
}

// Clauses see a dispatcher as the state of its gate and the arm served last.
impl<B: Bank, D: Door> Model for Dispatcher<B, D> {
    ghost use Rattle.dispatcher.specs.Dispatchers.{Dispatch, IsDispatcher};

    ghost Value = { Dispatch D };

    ghost view = { λ d. record { gate = d.gate; last = d.last } };

    ghost invariant = { λ d. IsDispatcher D.table (record { gate = d.gate; last = d.last }) };
}

impl<B: Bank, D: Door> Dispatcher<B, D> {
    /// Makes a dispatcher with a gate of its own over a bank. The gate is just the one that `Gate::make` makes, with the same arm count.
    /// It cannot be refused.
    pub fn new(bank: B, number: u16, wanted: usize) -> Dispatcher<B, D>
        ensures { result ≡ started D.table (record { memory = B.memory bank; high = B.HIGHEST; number = number; wanted = wanted; regs = B.values bank }) }
    {
        let gate = Gate::<B, D>::make(bank, number, wanted);
        Dispatcher { gate, last: 0 }
    }

    /// Lends the gate. Every call that alters nothing can be made on it, as in `dispatcher.gate().phase(arm)`.
    pub fn gate(&self) -> &Gate<B, D>
        ensures gate { result.now ≡ self.now.gate }
        ensures law { LawOfMoves D.table self.now }
    {
        &self.gate
    }

    /// Ends the dispatcher and hands its gate over as it stands, with no pass out. The bank comes back by `into_bank` of the gate.
    pub fn stop(self) -> Gate<B, D>
        ensures gate { result ≡ self.gate }
        ensures spent { NoPassOut D.table result }
    {
        let Dispatcher { gate, last: _ } = self;
        gate
    }
}
