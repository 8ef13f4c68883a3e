ghost use Rattle.std.specs.Prelude.{◌≡◌, if◌then◌else◌, is_some};
ghost use Rattle.obeying.specs.Obeying.{obeyed_all, refusals};
ghost use Rattle.play.specs.Playing.{playable, IsPlayed, SameElsewhere};

use crate::page::{ask_room, put_report};
use crate::service::Service;
use bank::Bank;
use doors::Door;
use gate::Gate;
use gate_model::Refusal;
use obeying::obey;
use schedule::{File, PlayFault, Schedule};
use std::marker::PhantomData;

/// The bank of a play that is over, and the length of its report in bytes or the fault; G is the kind of gate that the play made.
#[derive(Drop)]
pub struct Played<B, G> {
    pub bank: B,
    pub answer: Result<usize, PlayFault>,
    // Empty; it puts the kind of gate into the header of each function that plays. The check knows that a gate is no larger than memory
    // only of a kind that is named there.
    kind: PhantomData<G>,
}

// 1 for an order that was refused, 0 for one that was obeyed.
fn count(refusal: Option<Refusal>) -> usize
    ensures { result ≡ (if is_some refusal then 1 else 0) }
{
    usize::from(refusal.is_some())
}

// Obeys the orders of a schedule one after another, and answers how many the gate refused.
// It is not inlined, so that the compiler can keep what its loop uses in the processor's registers.
#[inline(never)]
fn obey_all<B: Bank, D: Door>(gate: &mut Gate<B, D>, schedule: &Schedule) -> usize
    ensures refused { result ≡ refusals D.table gate.old schedule.now.orders }
    ensures after { gate.new ≡ obeyed_all D.table gate.old schedule.now.orders }
{
    let mut refused = 0;
    for order in schedule.orders() {
        refused += count(obey(gate, order));
    }
    refused
}

// The schedule of a file that can be played with so many bytes of report memory. Else fault 9, then 10, then the file's first fault.
fn ready(file: &[u8], room: usize) -> Result<Schedule<'_>, PlayFault>
    ensures { result ≡ playable file.now room }
{
    let file = File::new(file)?;
    ask_room(room)?;
    Ok(file.schedule()?)
}

// Plays a file on gate 0 over a bank, puts the report at the start of the memory, and hands the bank back.
// The guard shows that the service byte reads 1 while this works.
fn perform<B: Bank, D: Door>(
    file: &[u8],
    bank: B,
    memory: &mut [u8],
    guard: &Service,
) -> Played<B, Gate<B, D>>
    requires { guard.now.byte.now ≡ 1 }
    ensures { IsPlayed D.table (B.memory bank) B.HIGHEST (B.values bank) file.now memory.old
        result.answer (B.memory result.bank) (B.values result.bank) memory.new }
{
    let schedule = match ready(file, memory.len()) {
        Ok(schedule) => schedule,
        Err(fault) => return Played {
            bank,
            answer: Err(fault),
            kind: PhantomData,
        },
    };
    let heading = schedule.heading();
    let mut gate = Gate::<B, D>::make(bank, 0, usize::from(heading.arms));
    let refused = obey_all(&mut gate, &schedule);
    let length = put_report(&gate, heading.orders, refused, memory);
    Played {
        bank: gate.into_bank(),
        answer: Ok(length),
        kind: PhantomData,
    }
}

/// Plays a file on gate 0 over a bank, puts the report at the start of the memory, and hands the bank back.
/// The whole file is checked first. A fault leaves bank and memory as they were: 9, then 10 for memory under 4,096 bytes, then the
/// file's first one. The service byte reads 1 during the play, and then what it read before.
/// The report, and which orders are refused, depend on nothing of the bank but how many arms it gives the file.
/// A host names the door, as `play::<_, ThreeBits>(..)`.
pub fn play<B: Bank, D: Door>(
    file: &[u8],
    bank: B,
    memory: &mut [u8],
    service: &mut u8,
) -> Played<B, Gate<B, D>>
    ensures played { IsPlayed D.table (B.memory bank) B.HIGHEST (B.values bank) file.now memory.old
        result.answer (B.memory result.bank) (B.values result.bank) memory.new }
    ensures restored { service.new ≡ service.old }
    ensures elsewhere { SameElsewhere D.table (B.memory bank) B.HIGHEST (B.values bank) file.now memory.old
        result.answer memory.new }
{
    let guard = Service::start(service);
    perform(file, bank, memory, &guard)
}
