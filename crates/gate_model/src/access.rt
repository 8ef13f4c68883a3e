ghost use Rattle.std.specs.Prelude.{◌≡◌, slice_index};
ghost use Rattle.gate_model.specs.Registers.{value_read, regs_after, memory_after, turns_bit};

use bank::Bank;

/// The register of the group.
pub const GROUP: usize = 0;

/// The one register access of a step. Registers count from 0.
#[derive(Clone, Copy, Debug, PartialEq, Eq)]
pub enum Access {
    /// An arm that is idle or inside makes none.
    Nothing,
    Read(usize),
    /// A register, and the value that it is to hold.
    Write(usize, u64),
}

/// What came of an access.
#[derive(Clone, Copy, Debug, PartialEq, Eq)]
pub struct Outcome {
    /// The value read; 0 where none is read.
    pub value: u64,
    /// Whether the bit turned: a write to register 0 that the bank accepted, and that changed its value.
    pub turned: bool,
}

/// The value of register i, or 0 where the bank has none.
#[tactic(auto, using(crate::proofs::Registers::read_or_zero))]
pub fn value_at<B: Bank>(bank: &B, i: usize) -> u64
    ensures { result ≡ slice_index (B.values bank.now) i }
{
    bank.read(i).unwrap_or(0)
}

impl Access {
    /// Makes the access and no other, and answers what came of it. A write that the bank refuses changes nothing.
    pub fn make<B: Bank>(self, bank: &mut B) -> Outcome
        ensures value { result.value ≡ value_read (B.values bank.old) self }
        ensures turned { result.turned ≡ turns_bit B.HIGHEST (B.values bank.old) self }
        ensures after { B.values bank.new ≡ regs_after B.HIGHEST (B.values bank.old) self }
        ensures lent { B.memory bank.new ≡ memory_after (B.memory bank.old) self }
    {
        match self {
            Access::Nothing => Outcome {
                value: 0,
                turned: false,
            },
            Access::Read(i) => Outcome {
                value: value_at(bank, i),
                turned: false,
            },
            Access::Write(i, value) => {
                let replaced = bank.write(i, value);
                Outcome {
                    value: 0,
                    turned: i == GROUP && replaced.is_some_and(|former| former != value),
                }
            }
        }
    }
}
