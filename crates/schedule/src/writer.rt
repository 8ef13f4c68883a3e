ghost use Rattle.std.specs.Prelude.{◌≡◌, ◌≤◌, ◌++◌, ◌↔◌, length, drop, is_ok, Ok, IsTrue};
ghost use Rattle.schedule.specs.Laws.{Inverse, IsLawful, WasWritten};
ghost use Rattle.schedule.specs.Reading.{contents};
ghost use Rattle.schedule.specs.Writing.{write_refusal_number, file_bytes, file_of, length_of, write_answer, write_memory};

use crate::appending::put_order;
use crate::limit::{ARM_LIMIT, FILE_LIMIT};
use crate::number::{fits_two_groups, put, width};
use crate::order_number::Order;
use std::error::Error;
use std::fmt;

/// Why a list of orders, or one order more, is not written.
#[derive(Clone, Copy, Debug, PartialEq, Eq)]
pub enum WriteRefusal {
    /// The arm count is 0 or above [`ARM_LIMIT`].
    ArmCount,
    /// An order's number is above 16,383.
    Large,
    /// The file would have more than 60,000 bytes.
    LongFile,
    /// The memory has fewer bytes than the file.
    Full,
}

impl WriteRefusal {
    /// The number that a refusal is known by: 9, 13, 14 or 16.
    pub fn number(self) -> u8
        ensures { result ≡ write_refusal_number self }
    {
        match self {
            WriteRefusal::ArmCount => 14,
            WriteRefusal::Large => 13,
            WriteRefusal::LongFile => 9,
            WriteRefusal::Full => 16,
        }
    }
}

impl fmt::Display for WriteRefusal {
    ghost use Rattle.std.specs.Prelude.{Some};
    ghost use Rattle.schedule.specs.Writing.{write_refusal_word};

    ghost output = { λ r. Some (write_refusal_word r) };

    fn fmt<W: fmt::Write>(&self, f: &mut fmt::Formatter<W>) -> fmt::Result {
        f.write_str(match self {
            WriteRefusal::ArmCount => "arm count",
            WriteRefusal::Large => "large",
            WriteRefusal::LongFile => "long file",
            WriteRefusal::Full => "full",
        })
    }
}

impl Error for WriteRefusal {}

// How many bytes the file of a list has.
fn measure(arms: usize, orders: &[Order]) -> Result<usize, WriteRefusal>
    ensures { result ≡ length_of (file_of arms orders.now) }
{
    if arms == 0 || arms > ARM_LIMIT {
        return Err(WriteRefusal::ArmCount);
    }
    let mut size = width(arms as u32);
    for (i, order) in orders.iter().enumerate() {
        let number = order.number();
        if !fits_two_groups(number) {
            return Err(WriteRefusal::Large);
        }
        // The arm count and each of the i orders so far have two bytes at most.
        prove!(size <= 2 * i + 2);
        size += width(number);
    }
    if size > FILE_LIMIT {
        return Err(WriteRefusal::LongFile);
    }
    Ok(size)
}

// Writes the file of a list at the start of memory that is long enough.
fn fill(arms: usize, orders: &[Order], out: &mut [u8]) -> usize
    requires lawful { file_of arms orders.now ≡ Ok (file_bytes arms orders.now) }
    requires room { length (file_bytes arms orders.now) ≤ length out.old }
    ensures end { result ≡ length (file_bytes arms orders.now) }
    ensures after { out.new ≡ file_bytes arms orders.now ++ drop (length (file_bytes arms orders.now)) out.old }
{
    let mut at = put(out, 0, arms as u32);
    for (i, order) in orders.iter().enumerate() {
        // The arm count and each of the i orders so far have a byte at least.
        prove!(at > i);
        at = put_order(*order, out, at);
    }
    at
}

/// Writes the file of a list at the start of the memory, and answers its length. Refuses with 14, then 13, then 9, then 16,
/// and then leaves the memory as it was.
pub fn write(arms: usize, orders: &[Order], out: &mut [u8]) -> Result<usize, WriteRefusal>
    ensures answer { result ≡ write_answer arms orders.now (length out.old) }
    ensures memory { out.new ≡ write_memory arms orders.now out.old }
    ensures inverse { WasWritten result (contents arms orders.now) out.new }
{
    let size = measure(arms, orders)?;
    if size > out.len() {
        return Err(WriteRefusal::Full);
    }
    Ok(fill(arms, orders, out))
}

// Whether the writer has a file for a list.
fn has_file(arms: usize, orders: &[Order]) -> bool
    ensures { result ≡ is_ok (file_of arms orders.now) }
{
    measure(arms, orders).is_ok()
}

/// Whether a list is lawful: its arm count is 1 to 100, no arm is above 4,095, and its file has at most 60,000 bytes.
/// The writer writes just these lists, the reader reads just their files, and the two are inverse.
pub fn is_lawful(arms: usize, orders: &[Order]) -> bool
    ensures answer { IsTrue result ↔ IsLawful (contents arms orders.now) }
    ensures laws { Inverse }
{
    has_file(arms, orders)
}
