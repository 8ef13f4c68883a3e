//! A day at a plant: a seeded scheduler that is deliberately unfair steps six arms over a byte bank.
//! It prints for each arm how many readings were delivered, the most that it was passed, and the longest wait in rounds,
//! and how often the bit turned; then the same of a day through the four-valued door.
#![tactic(auto)]

ghost use Rattle.std.specs.Prelude.{◌≡◌, ℕ, ◌+◌, ◌<◌, length, replicate, None};
ghost use Rattle.bank.specs.Lent.{unlogged};
ghost use Rattle.gate_model.specs.Calls.{refusal_of};
ghost use Rattle.gate_model.specs.Making.{arms_for};
ghost use Rattle.gate_model.specs.States.{made};
ghost use Rattle.gate_model.specs.declared.call.Call.TheVariants.{Admit};
ghost use Rattle.plantday.specs.Day.{of_plant, Called, FairDay, HoldsFairDay};
ghost use Rattle.plantday.specs.Records.{plant_arms, with_leave, noted};
ghost use Rattle.plantday.specs.Turns.{plant, picked, dice_after_pick, let_go, turned, day_of, notes_of_day};

mod dice;
mod record;

use crate::dice::Dice;
use crate::record::{ARMS, Record};
use bank::{Bank, ByteBank};
use doors::{Door, FourValued, ThreeBits};
use gate::Gate;
use gate_model::Phase;
use std::marker::PhantomData;

const SEED: u64 = 20_261_117;

const TURNS: u32 = 200_000;

// The gate's number.
const NUMBER: u16 = 7;

// The registers of the plant's arms, and those that they take at the four-valued door.
const REGISTERS: usize = 3 * ARMS + 1;

const REGISTERS_FOUR_VALUED: usize = ARMS + 1;

// An arm goes inside at most so often while another waits.
const MOST_PASSED: u8 = 2;

// The kind of gate that a day is spent on: through door D, over lent bytes. A function that is written for every door and makes such a
// gate names the kind in its header: the check knows that a gate is no larger than memory only of a kind that is named there.
type Kind<'a, D> = PhantomData<Gate<ByteBank<&'a mut [u8]>, D>>;

// Picks whose turn it is, k of arm k + 1: seven turns of ten go to arms 1 and 2, nearly all others to arms 1 to 5, and few to arm 6.
fn pick(dice: &mut Dice) -> usize
    ensures arm { result ≡ picked dice.old.state }
    ensures dice { dice.new.state ≡ dice_after_pick dice.old.state }
    ensures below { result < plant_arms }
{
    if dice.roll(10) < 7 {
        dice.roll(2)
    } else if dice.roll(20) < 19 {
        dice.roll(ARMS - 1)
    } else {
        ARMS - 1
    }
}

// Counts a reading of arm k + 1, which is inside, as delivered, and lets the arm leave.
fn deliver<B: Bank, D: Door>(gate: &mut Gate<B, D>, k: usize, record: &mut Record)
    requires arm { k < plant_arms }
    requires inside { refusal_of D.table gate.old (Admit (k + 1)) ≡ None }
    ensures calls { Called D.table gate.old gate.new }
    ensures gate { gate.new ≡ let_go D.table gate.old k }
    ensures noted { «record».new ≡ with_leave D.table gate.new k «record».old }
{
    let pass = gate.admit(k + 1).unwrap();
    let (pass, known) = gate.confirm(pass);
    if known {
        record.deliver(k);
    }
    gate.leave(pass).unwrap();
    record.moved(gate, k);
}

// Notes that arm k + 1 stepped from one phase to another.
fn note<B: Bank, D: Door>(gate: &Gate<B, D>, k: usize, from: Phase, to: Phase, record: &mut Record)
    requires arm { k < plant_arms }
    requires arms { gate.now.n ≡ plant_arms }
    ensures { «record».new ≡ noted D.table gate.now k from to «record».old }
{
    match (from, to) {
        (Phase::D, Phase::W) => record.waits(k),
        (Phase::W, Phase::F) => record.goes_inside(k, gate.most_passed(k + 1).unwrap()),
        _ => {}
    }
}

// One turn of arm k + 1: it does what its phase asks for.
fn turn<B: Bank, D: Door>(gate: &mut Gate<B, D>, k: usize, dice: &mut Dice, record: &mut Record)
    requires arm { k < plant_arms }
    requires arms { gate.old.n ≡ plant_arms }
    ensures calls { Called D.table gate.old gate.new }
    ensures turn { plant gate.new dice.new.state «record».new
        ≡ turned D.table k (plant gate.old dice.old.state «record».old) }
{
    let arm = k + 1;
    let view = gate.look(arm).unwrap();
    match view.phase {
        Phase::I => {
            if dice.roll(3) == 0 {
                // A worn arm is refused with 5 and stays idle.
                let _ = gate.begin(arm);
            }
        }
        // The pass is out: only its holder can let the arm leave.
        Phase::F if view.out => {}
        Phase::F => deliver(gate, k, record),
        Phase::D | Phase::W | Phase::X => {
            let after = gate.step(arm).unwrap();
            note(gate, k, view.phase, after, record);
            record.moved(gate, k);
        }
    }
}

// A whole day on a new gate. All that is done to the gate is calls, so it is fair at the end.
fn whole_day<B: Bank, D: Door>(bank: B, record: &mut Record) -> Gate<B, D>
    requires { arms_for D.table B.HIGHEST (length (B.values bank)) plant_arms ≡ plant_arms }
    ensures fair { FairDay D.table (made D.table (of_plant (B.memory bank) B.HIGHEST (B.values bank))) result }
    ensures turns { «record».new.turns ≡ result.turns }
    ensures day { result ≡ (day_of D.table (made D.table (of_plant (B.memory bank) B.HIGHEST (B.values bank))) «record».old).gate }
    ensures noted { «record».new ≡ notes_of_day D.table (made D.table (of_plant (B.memory bank) B.HIGHEST (B.values bank))) «record».old }
    ensures lent { result.memory.name ≡ (B.memory bank).name }
{
    let mut gate = Gate::<B, D>::make(bank, NUMBER, ARMS);
    let mut dice = Dice::new(SEED);
    for t in 0..TURNS {
        let k = pick(&mut dice);
        turn(&mut gate, k, &mut dice, record);
    }
    record.turns = gate.look(1).unwrap().turns;
    gate
}

// A day on a gate over lent memory. Ends the gate and hands the memory back: it holds the gate's registers.
fn day_over<'a, D: Door>(
    memory: &'a mut [u8],
    record: &mut Record,
    _kind: Kind<'a, D>,
) -> &'a mut [u8]
    requires { arms_for D.table 255 (length memory.old) plant_arms ≡ plant_arms }
    ensures lent { result.ghost_name ≡ memory.entry.ghost_name }
    ensures registers { HoldsFairDay D.table (made D.table (of_plant (unlogged memory.entry.ghost_name) 255 memory.old)) result.now «record».new.turns }
{
    let gate = whole_day::<_, D>(ByteBank::new(memory), record);
    gate.into_bank().into_memory()
}

// Lends memory to a gate for a day. It holds the gate's registers after that.
fn lend<D: Door>(memory: &mut [u8], record: &mut Record, _kind: Kind<'static, D>)
    requires { arms_for D.table 255 (length memory.old) plant_arms ≡ plant_arms }
    ensures { (name : ℕ) × HoldsFairDay D.table (made D.table (of_plant (unlogged name) 255 memory.old)) memory.new «record».new.turns }
{
    let _ = day_over::<D>(memory, record, PhantomData);
}

// Lends COUNT bytes of 0 to a gate for a day, and answers what they hold after that: the gate's registers.
fn memory_after_day<D: Door, const COUNT: usize>(
    record: &mut Record,
    kind: Kind<'static, D>,
) -> [u8; COUNT]
    requires { arms_for D.table 255 COUNT plant_arms ≡ plant_arms }
    ensures { (memory : ℕ) × HoldsFairDay D.table (made D.table (of_plant (unlogged memory) 255 (replicate COUNT 0))) result «record».new.turns }
{
    let mut memory = [0; COUNT];
    lend(&mut memory, record, kind);
    memory
}

// Prints for each arm how many readings were delivered, how often it was passed and how many rounds it waited, beside the bounds of the
// fairness law; then how often the bit turned.
fn show<D: Door>(rt: &HostRuntime, record: &Record) -> anyhow::Result<()> {
    let most_rounds = D::rounds(ARMS as u8);
    for k in 0..ARMS {
        let arm = k + 1;
        let delivered = record.delivered[k];
        let passed = record.passed[k];
        let waited = record.waited[k];
        println!(rt;
            "arm {arm} delivered {delivered} passed {passed} of {MOST_PASSED} waited {waited} of {most_rounds}"
        )?;
    }
    let turns = record.turns;
    println!(rt; "turns {turns}")?;
    Ok(())
}

fn main(rt: HostRuntime) -> anyhow::Result<()> {
    let mut record = Record::new();
    let _ = memory_after_day::<ThreeBits, REGISTERS>(&mut record, PhantomData);
    show::<ThreeBits>(&rt, &record)?;
    println!(rt; "through the four-valued door")?;
    let mut record = Record::new();
    let _ = memory_after_day::<FourValued, REGISTERS_FOUR_VALUED>(&mut record, PhantomData);
    show::<FourValued>(&rt, &record)
}
