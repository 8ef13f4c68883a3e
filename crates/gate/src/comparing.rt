ghost use Rattle.std.specs.Prelude.{◌≡◌, ℕ, ◌<◌, ◌≤◌, ◌↔◌, IsTrue, false, slice_index, slice_index_or};
ghost use Rattle.gate_model.specs.Limits.{arm_limit};
ghost use Rattle.gate_model.specs.SameGates.{SameGates};
ghost use Rattle.gate.specs.Gates.{IsGate};
ghost use Rattle.gate.specs.SameParts.{SameNumbers, SameRecord, SameRecords, SameRegisters};
ghost use Rattle.gate.specs.SameWay.{StaySame};

use crate::gate::Gate;
use crate::making::registers;
use bank::Bank;
use doors::Door;
use gate_model::access::value_at;
use gate_model::arm::{ARM_LIMIT, Arm};

// Whether the first `count` registers of two banks hold the same values.
fn same_up_to<B: Bank, C: Bank>(a: &B, b: &C, count: usize) -> bool
    ensures { IsTrue result ↔ ((q : ℕ) → q < count → slice_index (B.values a.now) q ≡ slice_index (C.values b.now) q) }
{
    (0..count).all(|i| value_at(a, i) == value_at(b, i))
}

// Whether the first n counts of two rows are equal.
#[tactic(auto, using(crate::proofs::FirstEqual::counts_equal))]
fn same_counts(a: &[u8; ARM_LIMIT], b: &[u8; ARM_LIMIT], n: usize) -> bool
    requires { n ≤ arm_limit }
    ensures { IsTrue result ↔ ((k : ℕ) → k < n → slice_index a.now k ≡ slice_index b.now k) }
{
    a[..n] == b[..n]
}

// Whether the first n notes of two records are equal.
fn same_notes(a: &[bool; ARM_LIMIT], b: &[bool; ARM_LIMIT], n: usize) -> bool
    requires { n ≤ arm_limit }
    ensures { IsTrue result ↔ ((k : ℕ) → k < n → slice_index_or a.now k false ≡ slice_index_or b.now k false) }
{
    a[..n] == b[..n]
}

// Whether two records have the same position, side, visits and mark, and the same counts and notes of the first n arms.
fn same_record<D: Door>(a: &Arm<D>, b: &Arm<D>, n: usize) -> bool
    requires { n ≤ arm_limit }
    ensures { IsTrue result ↔ SameRecord n a.now b.now }
{
    a.position == b.position
        && a.side == b.side
        && a.visits == b.visits
        && a.out == b.out
        && same_counts(&a.row, &b.row, n)
        && same_notes(&a.notes, &b.notes, n)
}

// Whether the first n records of two tables are the same, as far as n arms go.
fn same_records<D: Door>(a: &[Arm<D>; ARM_LIMIT], b: &[Arm<D>; ARM_LIMIT], n: usize) -> bool
    requires { n ≤ arm_limit }
    ensures { IsTrue result ↔ SameRecords D.table n a.now b.now }
{
    for k in 0..n {
        if !same_record(&a[k], &b[k], n) {
            return false;
        }
    }
    true
}

// Whether two gates have the same number, arm count and turns.
fn same_numbers<B: Bank, C: Bank, D: Door>(a: &Gate<B, D>, b: &Gate<C, D>) -> bool
    ensures { IsTrue result ↔ SameNumbers a.now b.now }
{
    a.number == b.number && a.n == b.n && a.turns == b.turns
}

// Whether two banks hold the same values in the registers that n arms take; with 0 arms none is read.
fn same_registers<B: Bank, C: Bank, D: Door>(a: &B, b: &C, n: usize) -> bool
    requires { n ≤ arm_limit }
    ensures { IsTrue result ↔ SameRegisters D.table n (B.values a.now) (C.values b.now) }
{
    n == 0 || same_up_to(a, b, registers::<D>(n))
}

// As `same`, without its law, which rests on both being gates in hand. What costs least is compared first, and no register is read
// where anything else differs.
fn compare<B: Bank, C: Bank, D: Door>(a: &Gate<B, D>, b: &Gate<C, D>) -> bool
    ensures same { IsTrue result ↔ SameGates D.table a.now b.now }
    ensures gate { IsGate D.table a.now }
    ensures other { IsGate D.table b.now }
{
    same_numbers(a, b)
        && same_records(&a.arms, &b.arms, a.n)
        && same_registers::<B, C, D>(&a.bank, &b.bank, a.n)
}

/// Whether two gates of one door, over banks of any kinds, are the same: in number, arm count and turns, in all that is kept of each
/// arm, and in the registers that the arms take. With 0 arms no register is compared, and none past those of the arms ever is. The
/// contract also says that two gates that are the same answer alike for ever, whatever is called, as long as it is called on both.
pub fn same<B: Bank, C: Bank, D: Door>(a: &Gate<B, D>, b: &Gate<C, D>) -> bool
    ensures same { IsTrue result ↔ SameGates D.table a.now b.now }
    ensures law { IsTrue result → StaySame D.table a.now b.now }
{
    compare(a, b)
}
