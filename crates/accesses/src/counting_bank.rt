ghost use Rattle.std.specs.Prelude.{◌≡◌};
ghost use Rattle.bank.specs.Lent.{unlogged};

use bank::Bank;
use std::cell::Cell;
use std::mem;
use std::rc::Rc;

// How many reads and how many writes.
#[derive(Clone, Copy, Debug, PartialEq, Eq)]
pub struct Count {
    pub reads: u64,
    pub writes: u64,
}

// How many reads and writes were asked of a bank since it was made.
#[derive(Drop)]
pub struct Accesses {
    reads: Cell<u64>,
    writes: Cell<u64>,
}

// Adds 1 to a count.
fn add(cell: &Cell<u64>) {
    cell.set(cell.get().saturating_add(1));
}

impl Accesses {
    pub fn none() -> Accesses {
        Accesses {
            reads: Cell::new(0),
            writes: Cell::new(0),
        }
    }

    pub fn count(&self) -> Count {
        Count {
            reads: self.reads.get(),
            writes: self.writes.get(),
        }
    }
}

// A bank that owns its registers, of one byte each, and counts each read and each write that is asked of it, refused ones too.
#[derive(Drop)]
pub struct CountingBank {
    registers: Vec<u8>,
    accesses: Rc<Accesses>,
}

impl CountingBank {
    // A bank with these registers, whose accesses are counted in these cells.
    pub fn new(registers: Vec<u8>, accesses: Rc<Accesses>) -> CountingBank
        ensures { result.registers ≡ registers }
    {
        CountingBank {
            registers,
            accesses,
        }
    }
}

impl Bank for CountingBank {
    const HIGHEST: u64 = 255;

    ghost HIGHEST = { 255 };

    ghost values = { λ s. s.registers.items };

    ghost memory = { λ s. unlogged 0 };

    fn read(&self, i: usize) -> Option<u64> {
        add(&self.accesses.reads);
        self.registers.get(i).map(|byte| u64::from(*byte))
    }

    fn write(&mut self, i: usize, v: u64) -> Option<u64> {
        add(&self.accesses.writes);
        if i < self.registers.len() && v <= Self::HIGHEST {
            Some(u64::from(mem::replace(&mut self.registers[i], v as u8)))
        } else {
            None
        }
    }
}
