ghost use Rattle.std.specs.Prelude.{◌≡◌, ◌≤◌, length};
ghost use Rattle.schedule.specs.Laws.{WasRead};
ghost use Rattle.schedule.specs.Memory.{put_into};
ghost use Rattle.schedule.specs.Reading.{says, heading_of, read_answer, read_memory};

use crate::fault::PlayFault;
use crate::order_number::Order;
use crate::schedule_file::{File, Heading, Schedule};

/// Goes through a whole file, and answers its heading or its first fault: 9, or one of 11 to 15.
pub fn check(file: &[u8]) -> Result<Heading, PlayFault>
    ensures { result ≡ heading_of (says file.now) }
{
    let schedule = File::new(file)?.schedule()?;
    Ok(schedule.heading())
}

// Puts the orders of a schedule into memory that is long enough.
#[tactic(auto, using(crate::proofs::Puts::put_all))]
fn put_orders(schedule: &Schedule, memory: &mut [Order])
    requires { length schedule.now.orders ≤ length memory.old }
    ensures { memory.new ≡ put_into memory.old schedule.now.orders }
{
    for (i, order) in schedule.orders().enumerate() {
        memory[i] = order;
    }
}

/// Puts the orders of a file at the start of the memory, and answers its heading; memory past the orders stays as it was.
/// The faults are those of [`check`], then 16 where the memory is too short. A fault leaves the memory as it was.
pub fn read(file: &[u8], orders: &mut [Order]) -> Result<Heading, PlayFault>
    ensures answer { result ≡ read_answer (says file.now) (length orders.old) }
    ensures memory { orders.new ≡ read_memory (says file.now) orders.old }
    ensures inverse { WasRead result file.now orders.new }
{
    let schedule = File::new(file)?.schedule()?;
    let heading = schedule.heading();
    if heading.orders > orders.len() {
        return Err(PlayFault::Full);
    }
    put_orders(&schedule, orders);
    Ok(heading)
}
