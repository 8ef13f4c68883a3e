ghost use Rattle.std.specs.Prelude.{◌≡◌, ◌≤◌, length, nat_le, replicate};
ghost use Rattle.gate_model.specs.Arms.{fresh};
ghost use Rattle.gate_model.specs.Limits.{arm_limit};
ghost use Rattle.gate_model.specs.Making.{arms_for, IsLargest, cleared, cleared_memory};
ghost use Rattle.gate_model.specs.States.{made};

use crate::gate::Gate;
use bank::Bank;
use doors::Door;
use gate_model::arm::{ARM_LIMIT, Arm};

// How many registers n arms take.
pub(crate) fn registers<D: Door>(n: usize) -> usize
    requires { n ≤ arm_limit }
    ensures is { result ≡ D.table.room n }
    ensures some { 1 ≤ result }
{
    D::room(n as u8)
}

// Whether the bank has the registers of n arms.
fn has_registers<B: Bank, D: Door>(bank: &B, n: usize) -> bool
    requires { n ≤ arm_limit }
    ensures { result ≡ nat_le (D.table.room n) (length (B.values bank.now)) }
{
    bank.read(registers::<D>(n) - 1).is_some()
}

// How many arms a gate over this bank gets.
fn arm_count<B: Bank, D: Door>(bank: &B, wanted: usize) -> usize
    ensures { result ≡ arms_for D.table B.HIGHEST (length (B.values bank.now)) wanted }
{
    if B::HIGHEST < D::needed() {
        return 0;
    }
    let mut n = wanted.min(ARM_LIMIT);
    while n > 0 && !has_registers::<B, D>(bank, n) {
        n -= 1;
    }
    n
}

// Writes to each of the registers 0 to count - 1, once and in this order, what the door has there at first.
fn clear<B: Bank, D: Door>(bank: &mut B, count: usize)
    requires count { count ≤ length (B.values bank.old) }
    requires high { D.table.needed ≤ B.HIGHEST }
    ensures after { B.values bank.new ≡ cleared D.table count (B.values bank.old) }
    ensures lent { B.memory bank.new ≡ cleared_memory D.table count (B.memory bank.old) }
{
    for i in 0..count {
        let _ = bank.write(i, D::first(i));
    }
}

// The records of a gate just made.
fn fresh_arms<D: Door>() -> [Arm<D>; ARM_LIMIT]
    ensures { result ≡ replicate arm_limit (fresh D.table) }
{
    let arm = Arm {
        position: D::idle(),
        side: None,
        visits: 0,
        out: false,
        row: [0; ARM_LIMIT],
        notes: [false; ARM_LIMIT],
    };
    [arm; ARM_LIMIT]
}

impl<B: Bank, D: Door> Gate<B, D> {
    /// Makes a gate over a bank, which the gate owns from then on. Its arm count is the largest one that is at most `wanted` and
    /// [`ARM_LIMIT`], and whose registers the bank has; 0 if there is none, or if the bank's highest value is too low for the door.
    /// The registers of these arms get what the door has there at first, and no other is written. It cannot be refused.
    #[tactic(auto, using(gate_model::proofs::Rooms::arms_largest))]
    pub fn make(mut bank: B, number: u16, wanted: usize) -> Gate<B, D>
        ensures made { result ≡ made D.table (record { memory = B.memory bank; high = B.HIGHEST; number = number; wanted = wanted; regs = B.values bank }) }
        ensures arms { IsLargest D.table B.HIGHEST (length (B.values bank)) wanted result.n }
    {
        let n = arm_count::<B, D>(&bank, wanted);
        if n > 0 {
            clear::<B, D>(&mut bank, registers::<D>(n));
        }
        Gate {
            bank,
            number,
            n,
            arms: fresh_arms(),
            turns: 0,
        }
    }

    /// Ends the gate and hands its bank back, as it stands, with nothing more written to it. A pass that is out can then be spent by nobody.
    pub fn into_bank(self) -> B
        ensures values { B.values result ≡ self.regs }
        ensures lent { B.memory result ≡ self.memory }
    {
        let Gate {
            bank,
            number: _,
            n: _,
            arms: _,
            turns: _,
        } = self;
        bank
    }
}
