ghost use Rattle.std.specs.Prelude.{◌≡◌, ◌<◌, map};
ghost use Rattle.std.specs.List.{range_with_len};
ghost use Rattle.plantday.specs.Records.{plant_arms, empty_record, with_delivery, with_wait, with_entry, with_move, some_due, is_busy};

use bank::Bank;
use doors::Door;
use gate::Gate;
use gate_model::Phase;

// How many arms the plant has.
pub const ARMS: usize = 6;

// What the day comes to, for each arm and for the gate.
#[derive(Drop)]
pub struct Record {
    // How many of its readings were delivered.
    pub delivered: [u32; ARMS],
    // The most that one other arm went inside during one of its waits.
    pub passed: [u8; ARMS],
    // Its longest wait, in whole rounds.
    pub waited: [u32; ARMS],
    // How often the bit turned.
    pub turns: u64,
    // The first whole round of its present wait.
    since: [u32; ARMS],
    // Which arms have still to move before the present round is over.
    due: [bool; ARMS],
    rounds: u32,
}

impl Record {
    pub fn new() -> Record
        ensures { result ≡ empty_record }
    {
        Record {
            delivered: [0; ARMS],
            passed: [0; ARMS],
            waited: [0; ARMS],
            turns: 0,
            since: [0; ARMS],
            due: [false; ARMS],
            rounds: 0,
        }
    }

    // A reading of arm k + 1 was delivered.
    pub(crate) fn deliver(&mut self, k: usize)
        requires { k < plant_arms }
        ensures { self.new ≡ with_delivery k self.old }
    {
        self.delivered[k] = self.delivered[k].saturating_add(1);
    }

    // Arm k + 1 ended its doorway.
    pub(crate) fn waits(&mut self, k: usize)
        requires { k < plant_arms }
        ensures { self.new ≡ with_wait k self.old }
    {
        self.since[k] = self.rounds.saturating_add(1);
    }

    // Arm k + 1 went inside; `most` is the largest count of its row.
    pub(crate) fn goes_inside(&mut self, k: usize, most: u8)
        requires { k < plant_arms }
        ensures { self.new ≡ with_entry k most self.old }
    {
        let wait = self.rounds.saturating_sub(self.since[k]);
        self.waited[k] = self.waited[k].max(wait);
        self.passed[k] = self.passed[k].max(most);
    }

    // Arm k + 1 moved: a round is over once every arm that was not idle at its start has moved.
    pub(crate) fn moved<B: Bank, D: Door>(&mut self, gate: &Gate<B, D>, k: usize)
        requires { k < plant_arms }
        ensures { self.new ≡ with_move D.table gate.now k self.old }
    {
        self.due[k] = false;
        if !is_due(&self.due) {
            self.rounds = self.rounds.saturating_add(1);
            self.due = busy_arms(gate);
        }
    }
}

// Whether some arm has still to move before the round is over.
fn is_due(due: &[bool; ARMS]) -> bool
    ensures { result ≡ some_due due.now }
{
    due.iter().any(|due| *due)
}

// Whether the gate has arm k + 1 and it is not idle.
fn is_busy<B: Bank, D: Door>(gate: &Gate<B, D>, k: usize) -> bool
    requires { k < plant_arms }
    ensures { result ≡ is_busy D.table gate.now k }
{
    matches!(gate.phase(k + 1), Ok(phase) if phase != Phase::I)
}

// The arms that are not idle.
fn busy_arms<B: Bank, D: Door>(gate: &Gate<B, D>) -> [bool; ARMS]
    ensures { result ≡ map (is_busy D.table gate.now) (range_with_len 0 plant_arms) }
{
    let mut busy = [false; ARMS];
    for k in 0..ARMS {
        busy[k] = is_busy(gate, k);
    }
    busy
}
