ghost use Rattle.std.specs.Prelude.{◌≡◌, ◌+◌, ◌≤◌, length};
ghost use Rattle.schedule.specs.FileLimits.{largest_number};
ghost use Rattle.schedule.specs.Laws.{WasStarted, WasAppended};
ghost use Rattle.schedule.specs.Numbers.{groups};
ghost use Rattle.schedule.specs.Orders.{order_number};
ghost use Rattle.schedule.specs.Writing.{start_answer, start_memory, written_at, append_answer, append_memory};

use crate::limit::FILE_LIMIT;
use crate::number::{fits_two_groups, put, width};
use crate::order_number::Order;
use crate::writer::{WriteRefusal, write};

// Writes an order at a place of memory that has room for it, and answers the place after it.
pub(crate) fn put_order(order: Order, file: &mut [u8], at: usize) -> usize
    requires small { order_number order ≤ largest_number }
    requires room { at + length (groups (order_number order)) ≤ length file.old }
    ensures end { result ≡ at + length (groups (order_number order)) }
    ensures after { file.new ≡ written_at at (groups (order_number order)) file.old }
{
    put(file, at, order.number())
}

/// Starts a file at the start of the memory: writes its arm count, and answers the place where it ends.
/// Refuses with 14, then 16, and then leaves the memory as it was.
#[tactic(auto, using(crate::proofs::Appended::started))]
pub fn start(arms: usize, file: &mut [u8]) -> Result<usize, WriteRefusal>
    ensures answer { result ≡ start_answer arms (length file.old) }
    ensures memory { file.new ≡ start_memory arms file.old }
    ensures written { WasStarted result arms file.old file.new }
{
    write(arms, &[], file)
}

// Where a file that ends at place `at` ends with this order more, in memory of `room` bytes; or why the order is refused.
fn end_after(order: Order, at: usize, room: usize) -> Result<usize, WriteRefusal>
    ensures { result ≡ append_answer order at room }
{
    let number = order.number();
    if !fits_two_groups(number) {
        return Err(WriteRefusal::Large);
    }
    let size = width(number);
    if at > FILE_LIMIT - size {
        return Err(WriteRefusal::LongFile);
    }
    if at + size > room {
        return Err(WriteRefusal::Full);
    }
    Ok(at + size)
}

/// Appends an order to a file that ends at place `at` of the memory, and answers the place where it ends then.
/// Refuses with 13, then 9, then 16, and then leaves the memory as it was.
#[tactic(auto, using(crate::proofs::Appended::appended, crate::proofs::Appended::put_appended))]
pub fn append(order: Order, file: &mut [u8], at: usize) -> Result<usize, WriteRefusal>
    ensures answer { result ≡ append_answer order at (length file.old) }
    ensures memory { file.new ≡ append_memory order at file.old }
    ensures written { WasAppended result order at file.old file.new }
{
    let end = end_after(order, at, file.len())?;
    put_order(order, file, at);
    Ok(end)
}
