ghost use Rattle.std.specs.Prelude.{◌≤◌};
ghost use Rattle.gate_model.specs.Limits.{arm_limit};

use crate::cost::Cost;
use crate::counting_bank::{Accesses, CountingBank};
use crate::runs::arm_of_turn;
use crate::{NUMBER, REGISTERS};
use anyhow::anyhow;
use doors::Door;
use gate::{Gate, carry_out};
use gate_model::Call;
use play::{REPORT_ROOM, play};
use schedule::{FILE_LIMIT, Order, write};
use std::alloc::Global;
use std::marker::PhantomData;
use std::rc::Rc;

// The last byte of a number that is cut: it says that another byte follows.
const CUT: u8 = 0x80;

// The kind of gate that is made here. A function that is written for every door and makes such a gate names the kind in its header: the
// check knows that a gate is no larger than memory only of a kind that is named there.
pub(crate) type ListedKind<D> = PhantomData<Gate<CountingBank, D>>;

// A list with the calls of so many turns: at each, one call of each kind for one arm, whatever its phase is.
fn calls_of_turns(alloc: Global, gate: u16, n: usize, turns: u64) -> anyhow::Result<Vec<Call>>
    requires { 1 ≤ n }
{
    let mut calls = Vec::new(alloc);
    for t in 0..turns {
        let arm = arm_of_turn(t, n);
        calls.push(Call::Begin(arm))?;
        calls.push(Call::Step(arm))?;
        calls.push(Call::Way(arm))?;
        calls.push(Call::Admit(arm))?;
        calls.push(Call::Confirm { gate, arm })?;
        calls.push(Call::Leave { gate, arm })?;
        calls.push(Call::Look(arm))?;
        calls.push(Call::Tally { arm, other: n })?;
    }
    Ok(calls)
}

// A list with the orders of so many turns: at each, one order of each kind for one arm, whatever its phase is.
fn orders_of(alloc: Global, n: usize, turns: u64) -> anyhow::Result<Vec<Order>>
    requires some { 1 ≤ n }
    requires few { n ≤ arm_limit }
{
    let mut orders = Vec::new(alloc);
    for t in 0..turns {
        let arm = arm_of_turn(t, n) as u16;
        orders.push(Order::Begin(arm))?;
        orders.push(Order::Step(arm))?;
        orders.push(Order::Leave(arm))?;
    }
    Ok(orders)
}

// The file of a list of orders.
fn file_of(alloc: Global, arms: usize, orders: &[Order]) -> anyhow::Result<Vec<u8>> {
    let mut file = vec![in alloc; 0; FILE_LIMIT]?;
    let length = write(arms, orders, &mut file).map_err(|_| anyhow!("there is no such file"))?;
    file.truncate(length);
    Ok(file)
}

// A bank that counts, with the registers of the most arms.
fn counting_bank(alloc: Global, accesses: &Rc<Accesses>) -> anyhow::Result<CountingBank> {
    Ok(CountingBank::new(vec![in alloc; 9; REGISTERS]?, accesses.clone()?))
}

// Prints what making a gate and carrying out the calls of so many turns cost together.
pub(crate) fn show_carried<D: Door>(
    rt: &HostRuntime,
    arms: usize,
    turns: u64,
    _kind: ListedKind<D>,
) -> anyhow::Result<()>
    requires { 1 ≤ arms }
{
    let calls = calls_of_turns(rt.alloc(), NUMBER, arms, turns)?;
    let accesses = Rc::new(rt.alloc(), Accesses::none())?;
    let bank = counting_bank(rt.alloc(), &accesses)?;
    let mut cost = Cost::none();
    let _ = carry_out::<_, D>(bank, NUMBER, arms, &calls);
    cost.add(accesses.count());
    let count = calls.len();
    println!(rt; "carry_out of {count} calls: {cost}")?;
    Ok(())
}

// What a play of a file costs, and whether the file was played.
fn cost_of_play<D: Door>(
    alloc: Global,
    file: &[u8],
    _kind: ListedKind<D>,
) -> anyhow::Result<(Cost, bool)> {
    let accesses = Rc::new(alloc, Accesses::none())?;
    let bank = counting_bank(alloc, &accesses)?;
    let mut text = [0; REPORT_ROOM];
    let mut service = 0;
    let mut cost = Cost::none();
    let played = play::<_, D>(file, bank, &mut text, &mut service);
    cost.add(accesses.count());
    Ok((cost, played.answer.is_ok()))
}

// Prints what playing a file with the orders of so many turns costs, and then the same file with a cut number at its end, which is not
// played.
pub(crate) fn show_played<D: Door>(
    rt: &HostRuntime,
    arms: usize,
    turns: u64,
    kind: ListedKind<D>,
) -> anyhow::Result<()>
    requires some { 1 ≤ arms }
    requires few { arms ≤ arm_limit }
{
    let orders = orders_of(rt.alloc(), arms, turns)?;
    let mut file = file_of(rt.alloc(), arms, &orders)?;
    let (cost, played) = cost_of_play(rt.alloc(), &file, kind)?;
    let count = orders.len();
    println!(rt; "play of {count} orders: {cost}, played {played}")?;
    file.push(CUT)?;
    let (cost, played) = cost_of_play(rt.alloc(), &file, kind)?;
    println!(rt; "play of the same and a cut number: {cost}, played {played}")?;
    Ok(())
}
