ghost use Rattle.std.specs.Prelude.{◌≡◌, ℕ, IsTrue, IfOk};
ghost use Rattle.gate.specs.Gates.{IsGate};
ghost use Rattle.bank.specs.Lent.{unlogged};
ghost use Rattle.gate_model.specs.Calls.{after, knows, left_at_once, way_answer, answered, refusal_of};
ghost use Rattle.gate_model.specs.States.{made, bit_of};
ghost use Rattle.gate_model.specs.declared.call.Call.TheVariants.{Begin, Step, Admit, Leave};
ghost use Rattle.gate_model.specs.declared.phase.Phase.TheVariants as P;
ghost use Rattle.gate.specs.Answers.{step_answer, admit_answer, leave_answer, let_go_answer, phase_answer, look_answer, tally_answer, most_answer};

use crate::cost::Costs;
use crate::counting_bank::{Accesses, Count, CountingBank};
use doors::Door;
use gate::{Gate, HandedBack, Pass, Tally, View};
use gate_model::{Phase, Refusal};
use std::rc::Rc;

// What the calls of each kind cost.
#[derive(Clone, Copy)]
pub struct Book {
    pub making: Costs,
    pub begin: Costs,
    pub step: Costs,
    pub admit: Costs,
    pub confirm: Costs,
    pub leave: Costs,
    pub let_go: Costs,
    pub phase: Costs,
    pub look: Costs,
    pub tally: Costs,
    pub most_passed: Costs,
    pub way: Costs,
    pub bit: Costs,
    pub same: Costs,
}

impl Book {
    fn empty() -> Book {
        let none = Costs::none();
        Book {
            making: none,
            begin: none,
            step: none,
            admit: none,
            confirm: none,
            leave: none,
            let_go: none,
            phase: none,
            look: none,
            tally: none,
            most_passed: none,
            way: none,
            bit: none,
            same: none,
        }
    }
}

// A gate over a bank that counts, and the book of what its calls cost. Each call answers what the gate's own does.
#[derive(Drop)]
pub struct Watched<D: Door> {
    gate: Gate<CountingBank, D>,
    accesses: Rc<Accesses>,
    book: Book,
}

impl<D: Door> Watched<D> {
    // Makes a gate over a bank whose accesses are counted in these cells.
    pub fn make(
        bank: CountingBank,
        accesses: Rc<Accesses>,
        number: u16,
        wanted: usize,
    ) -> Watched<D>
        ensures { result.gate ≡ made D.table (record { memory = unlogged 0; high = 255; number = number; wanted = wanted; regs = bank.registers.items }) }
    {
        let before = accesses.count();
        let gate = Gate::<CountingBank, D>::make(bank, number, wanted);
        let mut book = Book::empty();
        book.making.add(true, accesses.count().since(before));
        Watched {
            gate,
            accesses,
            book,
        }
    }

    pub fn book(&self) -> Book
        ensures { result ≡ self.now.book }
    {
        self.book
    }

    pub fn arm_count(&self) -> usize
        ensures arms { result ≡ self.now.gate.n }
        ensures gate { IsGate D.table self.now.gate }
    {
        self.gate.arm_count()
    }

    // What was counted since an earlier count.
    fn since(&self, before: Count) -> Count {
        self.accesses.count().since(before)
    }

    pub fn begin(&mut self, arm: usize) -> Result<Phase, Refusal>
        ensures answer { result ≡ answered (refusal_of D.table self.old.gate (Begin arm)) P.D }
        ensures after { self.new.gate ≡ after D.table self.old.gate (Begin arm) }
    {
        let before = self.accesses.count();
        let answer = self.gate.begin(arm);
        let count = self.since(before);
        self.book.begin.add(answer.is_ok(), count);
        answer
    }

    pub fn step(&mut self, arm: usize) -> Result<Phase, Refusal>
        ensures answer { result ≡ step_answer D.table self.old.gate arm }
        ensures after { self.new.gate ≡ after D.table self.old.gate (Step arm) }
    {
        let before = self.accesses.count();
        let answer = self.gate.step(arm);
        let count = self.since(before);
        self.book.step.add(answer.is_ok(), count);
        answer
    }

    pub fn admit(&mut self, arm: usize) -> Result<Pass, Refusal>
        ensures answer { result ≡ admit_answer D.table self.old.gate arm }
        ensures after { self.new.gate ≡ after D.table self.old.gate (Admit arm) }
        ensures known { IfOk result (λ pass. IsTrue (knows D.table self.new.gate pass.gate pass.arm)) }
    {
        let before = self.accesses.count();
        let answer = self.gate.admit(arm);
        let count = self.since(before);
        self.book.admit.add(answer.is_ok(), count);
        answer
    }

    pub fn confirm(&mut self, pass: Pass) -> (Pass, bool)
        ensures same { result.0 ≡ pass }
        ensures answer { result.1 ≡ knows D.table self.old.gate pass.gate pass.arm }
        ensures after { self.new.gate ≡ self.old.gate }
    {
        let before = self.accesses.count();
        let (pass, yes) = self.gate.confirm(pass);
        let count = self.since(before);
        self.book.confirm.add(yes, count);
        (pass, yes)
    }

    pub fn leave(&mut self, pass: Pass) -> Result<Phase, HandedBack>
        ensures answer { result ≡ leave_answer D.table self.old.gate pass }
        ensures after { self.new.gate ≡ after D.table self.old.gate (Leave pass.gate pass.arm) }
    {
        let before = self.accesses.count();
        let answer = self.gate.leave(pass);
        let count = self.since(before);
        self.book.leave.add(answer.is_ok(), count);
        answer
    }

    pub fn let_go(&mut self, arm: usize) -> Result<Phase, Refusal>
        ensures answer { result ≡ let_go_answer D.table self.old.gate arm }
        ensures after { self.new.gate ≡ left_at_once D.table self.old.gate arm }
    {
        let before = self.accesses.count();
        let answer = self.gate.let_go(arm);
        let count = self.since(before);
        self.book.let_go.add(answer.is_ok(), count);
        answer
    }

    pub fn phase(&mut self, arm: usize) -> Result<Phase, Refusal>
        ensures answer { result ≡ phase_answer D.table self.old.gate arm }
        ensures after { self.new.gate ≡ self.old.gate }
    {
        let before = self.accesses.count();
        let answer = self.gate.phase(arm);
        let count = self.since(before);
        self.book.phase.add(answer.is_ok(), count);
        answer
    }

    pub fn look(&mut self, arm: usize) -> Result<View, Refusal>
        ensures answer { result ≡ look_answer D.table self.old.gate arm }
        ensures after { self.new.gate ≡ self.old.gate }
    {
        let before = self.accesses.count();
        let answer = self.gate.look(arm);
        let count = self.since(before);
        self.book.look.add(answer.is_ok(), count);
        answer
    }

    pub fn tally(&mut self, arm: usize, other: usize) -> Result<Tally, Refusal>
        ensures answer { result ≡ tally_answer D.table self.old.gate arm other }
        ensures after { self.new.gate ≡ self.old.gate }
    {
        let before = self.accesses.count();
        let answer = self.gate.tally(arm, other);
        let count = self.since(before);
        self.book.tally.add(answer.is_ok(), count);
        answer
    }

    pub fn most_passed(&mut self, arm: usize) -> Result<u8, Refusal>
        ensures answer { result ≡ most_answer D.table self.old.gate arm }
        ensures after { self.new.gate ≡ self.old.gate }
    {
        let before = self.accesses.count();
        let answer = self.gate.most_passed(arm);
        let count = self.since(before);
        self.book.most_passed.add(answer.is_ok(), count);
        answer
    }

    pub fn way(&mut self, arm: usize) -> Result<bool, Refusal>
        ensures answer { result ≡ way_answer D.table self.old.gate arm }
        ensures after { self.new.gate ≡ self.old.gate }
    {
        let before = self.accesses.count();
        let answer = self.gate.way(arm);
        let count = self.since(before);
        self.book.way.add(answer.is_ok(), count);
        answer
    }

    pub fn bit(&mut self) -> u64
        ensures answer { result ≡ bit_of self.old.gate }
        ensures after { self.new.gate ≡ self.old.gate }
    {
        let before = self.accesses.count();
        let bit = self.gate.bit();
        let count = self.since(before);
        self.book.bit.add(true, count);
        bit
    }

    // Compares the gate with itself: nothing differs, so that each register that the arms take is read twice.
    pub fn same(&mut self) -> bool
        ensures { self.new.gate ≡ self.old.gate }
    {
        let before = self.accesses.count();
        let same = gate::same(&self.gate, &self.gate);
        let count = self.since(before);
        self.book.same.add(same, count);
        same
    }
}
