//! Counts the register accesses that the calls of a gate make, over a bank that counts each read and each write:
//! through the three-bit door, then through the four-valued one.
//! What it must print comes from a program of its own (tools/access_counts.py).
#![tactic(auto)]

ghost use Rattle.std.specs.Prelude.{◌≡◌, ◌≤◌, replicate, IfOk};
ghost use Rattle.bank.specs.Lent.{unlogged};
ghost use Rattle.gate_model.specs.Limits.{arm_limit};
ghost use Rattle.gate_model.specs.Making.{arms_for};
ghost use Rattle.gate_model.specs.States.{made};
ghost use Rattle.accesses.specs.Runs.{register_count};

mod cost;
mod counting_bank;
mod lists;
mod moves;
mod runs;
mod watched;

use crate::counting_bank::{Accesses, CountingBank};
use crate::lists::{ListedKind, show_carried, show_played};
use crate::moves::{MoveBook, WatchedDispatcher, make_moves};
use crate::runs::{lively, refused, watch};
use crate::watched::{Book, Watched};
use bank::BitBank;
use doors::{Door, FourValued, ThreeBits};
use gate::Gate;
use gate_model::arm::ARM_LIMIT;
use std::marker::PhantomData;
use std::rc::Rc;

// The registers of the most arms; the four-valued door needs fewer.
const REGISTERS: usize = 3 * ARM_LIMIT + 1;

// The number of the gates that are watched, and that of the gate whose passes are strange to them.
const NUMBER: u16 = 1;

const OTHER_NUMBER: u16 = 2;

// How many turns a run has, and a run of the most arms.
const TURNS: u64 = 20_000;

const MORE_TURNS: u64 = 60_000;

// How many turns a list of calls or orders has.
const LISTED_TURNS: u64 = 6_000;

// The makings that are watched, by registers and wanted arms, and one more at the four-valued door, where 3 registers have room for two arms.
const MAKINGS: [(usize, usize); 6] = [
    (REGISTERS, 1),
    (REGISTERS, 3),
    (REGISTERS, ARM_LIMIT),
    (REGISTERS, 1000),
    (10, ARM_LIMIT),
    (3, ARM_LIMIT),
];

const MAKING_FOUR_VALUED: (usize, usize) = (1, ARM_LIMIT);

// The kind of gate that is watched. A function that is written for every door and makes such a gate names the kind in its header: the
// check knows that a gate is no larger than memory only of a kind that is named there.
type Kind<D> = PhantomData<Watched<D>>;

// The kind of dispatcher that is watched, named in headers for the same reason.
type MovedKind<D> = PhantomData<WatchedDispatcher<D>>;

// Makes a gate to be watched, over so many registers.
fn gate_over<D: Door>(
    rt: &HostRuntime,
    registers: usize,
    wanted: usize,
) -> anyhow::Result<Watched<D>>
    ensures { IfOk result (λ g. g.gate ≡ made D.table (record { memory = unlogged 0; high = 255; number = 1; wanted = wanted; regs = replicate registers 9 })) }
{
    let accesses = Rc::new(rt.alloc(), Accesses::none())?;
    let bank = CountingBank::new(vec![in rt.alloc(); 9; registers]?, accesses.clone()?);
    Ok(Watched::make(bank, accesses, NUMBER, wanted))
}

// A gate of one arm through the three-bit door, whose passes are strange to the gates that are watched.
#[tactic(auto, unfolding(gate_model::specs::Making::largest))]
fn other_gate() -> Gate<BitBank, ThreeBits>
    ensures number { result.number ≡ 2 }
    ensures arms { result.n ≡ 1 }
{
    Gate::make(BitBank::new(), OTHER_NUMBER, 1)
}

// Prints what making a gate over so many registers costs, in register accesses.
fn show_making<D: Door>(
    rt: &HostRuntime,
    registers: usize,
    wanted: usize,
    _kind: Kind<D>,
) -> anyhow::Result<()> {
    let gate = gate_over::<D>(rt, registers, wanted)?;
    let arms = gate.arm_count();
    let making = gate.book().making;
    println!(rt; "registers {registers} wanted {wanted} arms {arms}: making {making}")?;
    Ok(())
}

// Prints what making costs where the bank has the registers of all arms that are wanted, and where it has not.
fn show_makings<D: Door>(rt: &HostRuntime, kind: Kind<D>) -> anyhow::Result<()> {
    for (registers, wanted) in MAKINGS {
        show_making(rt, registers, wanted, kind)?;
    }
    Ok(())
}

// Prints what the calls of each kind cost.
fn show(rt: &HostRuntime, book: Book) -> anyhow::Result<()> {
    let Book {
        making: _,
        begin,
        step,
        admit,
        confirm,
        leave,
        let_go,
        phase,
        look,
        tally,
        most_passed,
        way,
        bit,
        same,
    } = book;
    println!(rt; "begin: {begin}")?;
    println!(rt; "step: {step}")?;
    println!(rt; "admit: {admit}")?;
    println!(rt; "confirm: {confirm}")?;
    println!(rt; "leave: {leave}")?;
    println!(rt; "let_go: {let_go}")?;
    println!(rt; "phase: {phase}")?;
    println!(rt; "look: {look}")?;
    println!(rt; "tally: {tally}")?;
    println!(rt; "most_passed: {most_passed}")?;
    println!(rt; "way: {way}")?;
    println!(rt; "bit: {bit}")?;
    println!(rt; "same: {same}")?;
    Ok(())
}

// Prints what the calls of `watch` cost on a gate with no arms.
fn show_no_arms<D: Door>(rt: &HostRuntime, _kind: Kind<D>) -> anyhow::Result<()> {
    println!(rt; "no arms")?;
    let mut gate = gate_over::<D>(rt, 1, ARM_LIMIT)?;
    watch(&mut gate, 1, 1);
    show(rt, gate.book())
}

// Prints what the calls cost in a run of so many arms, and in one with calls that are refused at each turn.
fn show_runs<D: Door>(
    rt: &HostRuntime,
    arms: usize,
    turns: u64,
    _kind: Kind<D>,
) -> anyhow::Result<()>
    requires some { 1 ≤ arms }
    requires room { arms_for D.table 255 register_count arms ≡ arms }
{
    println!(rt; "arms {arms} turns {turns}")?;
    let mut gate = gate_over::<D>(rt, REGISTERS, arms)?;
    lively(&mut gate, turns);
    show(rt, gate.book())?;
    println!(rt; "arms {arms} turns {turns} with calls that are refused")?;
    let mut gate = gate_over::<D>(rt, REGISTERS, arms)?;
    let mut other = other_gate();
    refused(&mut gate, &mut other, turns);
    show(rt, gate.book())
}

// Prints what the moves of a dispatcher and its end cost.
fn show_moves<D: Door>(
    rt: &HostRuntime,
    arms: usize,
    moves: u64,
    _kind: MovedKind<D>,
) -> anyhow::Result<()> {
    let accesses = Rc::new(rt.alloc(), Accesses::none())?;
    let bank = CountingBank::new(vec![in rt.alloc(); 9; REGISTERS]?, accesses.clone()?);
    let mut dispatcher = WatchedDispatcher::<D>::new(bank, accesses, NUMBER, arms);
    make_moves(&mut dispatcher, moves);
    let MoveBook {
        step,
        let_go,
        idle,
        stop,
        into_bank,
    } = dispatcher.end();
    println!(rt; "arms {arms} moves {moves}")?;
    println!(rt; "a step: {step}")?;
    println!(rt; "an arm let go: {let_go}")?;
    println!(rt; "all idle: {idle}")?;
    println!(rt; "stop: {stop}")?;
    println!(rt; "into_bank: {into_bank}")?;
    Ok(())
}

// Prints what all calls cost through one door, in runs of each arm count.
fn show_door<D: Door>(rt: &HostRuntime, kind: Kind<D>) -> anyhow::Result<()>
    requires one { arms_for D.table 255 register_count 1 ≡ 1 }
    requires three { arms_for D.table 255 register_count 3 ≡ 3 }
    requires seven { arms_for D.table 255 register_count 7 ≡ 7 }
    requires many { arms_for D.table 255 register_count 32 ≡ 32 }
    requires more { arms_for D.table 255 register_count 77 ≡ 77 }
    requires most { arms_for D.table 255 register_count arm_limit ≡ arm_limit }
{
    show_no_arms(rt, kind)?;
    show_runs(rt, 1, TURNS, kind)?;
    show_runs(rt, 3, TURNS, kind)?;
    show_runs(rt, 7, TURNS, kind)?;
    show_runs(rt, 32, TURNS, kind)?;
    show_runs(rt, 77, TURNS, kind)?;
    show_runs(rt, ARM_LIMIT, MORE_TURNS, kind)
}

// Prints what a dispatcher, a list of calls that is carried out, and a play cost. Each makes a gate of so many arms of its own.
fn show_owned<D: Door>(
    rt: &HostRuntime,
    arms: usize,
    moved: MovedKind<D>,
    listed: ListedKind<D>,
) -> anyhow::Result<()>
    requires some { 1 ≤ arms }
    requires few { arms ≤ arm_limit }
{
    show_moves(rt, arms, TURNS, moved)?;
    show_carried(rt, arms, LISTED_TURNS, listed)?;
    show_played(rt, arms, LISTED_TURNS, listed)
}

// Prints what these three cost through one door, with each arm count.
fn show_owners<D: Door>(
    rt: &HostRuntime,
    moved: MovedKind<D>,
    listed: ListedKind<D>,
) -> anyhow::Result<()> {
    show_owned(rt, 1, moved, listed)?;
    show_owned(rt, 3, moved, listed)?;
    show_owned(rt, 7, moved, listed)?;
    show_owned(rt, 32, moved, listed)?;
    show_owned(rt, 77, moved, listed)?;
    show_owned(rt, ARM_LIMIT, moved, listed)
}

#[tactic(auto, unfolding(gate_model::specs::Making::largest))]
fn main(rt: HostRuntime) -> anyhow::Result<()> {
    show_makings::<ThreeBits>(&rt, PhantomData)?;
    show_door::<ThreeBits>(&rt, PhantomData)?;
    show_owners::<ThreeBits>(&rt, PhantomData, PhantomData)?;
    println!(rt; "through the four-valued door")?;
    show_makings::<FourValued>(&rt, PhantomData)?;
    let (registers, wanted) = MAKING_FOUR_VALUED;
    show_making::<FourValued>(&rt, registers, wanted, PhantomData)?;
    show_door::<FourValued>(&rt, PhantomData)?;
    show_owners::<FourValued>(&rt, PhantomData, PhantomData)
}
