use bank::Bank;
use doors::Door;
use gate_model::Phase;
use gate_model::arm::{ARM_LIMIT, Arm};
use std::marker::Model;

/// Steps up to [`ARM_LIMIT`] arms towards a shared section, through a door. It owns its bank.
#[derive(Drop)]
pub struct Gate<B: Bank, D: Door> {
    pub(crate) bank: B,
    pub(crate) number: u16,
    pub(crate) n: usize,
    pub(crate) arms: [Arm<D>; ARM_LIMIT],
    pub(crate) turns: u64,
}

// Clauses see a gate as its state. The invariant says that a making and a list of calls lead to this state.
impl<B: Bank, D: Door> Model for Gate<B, D> {
    ghost use Rattle.gate_model.specs.States.{State};
    ghost use Rattle.gate.specs.Gates.{IsGate};

    ghost Value = { State D };

    ghost view = { λ g. record { memory = B.memory g.bank; high = B.HIGHEST; number = g.number; n = g.n; regs = B.values g.bank; arms = g.arms; turns = g.turns } };

    ghost invariant = { λ g. IsGate D.table (record { memory = B.memory g.bank; high = B.HIGHEST; number = g.number; n = g.n; regs = B.values g.bank; arms = g.arms; turns = g.turns }) };
}

/// What `look` tells of an arm.
#[derive(Clone, Copy, Debug, PartialEq, Eq)]
pub struct View {
    pub phase: Phase,
    /// The bit that the arm read in its doorway, 0 or 1: from that read to its last exit step, and none at other times.
    pub side: Option<u64>,
    /// The arm that a waiting arm looks at, 1 to the arm count; 0 in any other phase.
    pub index: usize,
    /// How many visits the arm began, 1,000,000,000 at most.
    pub visits: u32,
    /// Whether the arm's pass is out.
    pub out: bool,
    /// How often the bit turned since the gate was made, whichever arm turned it.
    pub turns: u64,
}

/// What `tally` tells of an arm and another one.
#[derive(Clone, Copy, Debug, PartialEq, Eq)]
pub struct Tally {
    /// How often the other went inside during the arm's present wait, or its last one where it does not wait; 0 if it never waited.
    /// It is 2 at most, by the fairness law.
    pub count: u8,
    /// Whether the other was idle when the arm ended its doorway before that wait.
    pub idle: bool,
}
