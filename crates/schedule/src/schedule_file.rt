ghost use Rattle.std.specs.Prelude.{◌≡◌, ◌≤◌, length, drop, IfOk};
ghost use Rattle.schedule.specs.FileLimits.{file_limit};
ghost use Rattle.schedule.specs.Reading.{orders_from, order_count, short_file, schedule_from, heading};

use crate::fault::{PlayFault, ScheduleFault};
use crate::limit::FILE_LIMIT;
use crate::order_iter::Orders;
use crate::parts::{arms_of, order_at};
use std::marker::Model;

/// The arm count of a file, and how many orders it has.
#[derive(Clone, Copy, Debug, PartialEq, Eq)]
pub struct Heading {
    pub arms: u16,
    pub orders: usize,
}

/// A file of at most 60,000 bytes, which may still have a fault.
#[derive(Drop)]
pub struct File<'a> {
    bytes: &'a [u8],
}

impl<'a> Model for File<'a> {
    ghost use Rattle.std.specs.Prelude.{List, ℕ, ◌≤◌, length};
    ghost use Rattle.schedule.specs.FileLimits.{file_limit};

    ghost Value = { List ℕ };

    ghost view = { λ f. f.bytes.now };

    ghost invariant = { λ f. length f.bytes.now ≤ file_limit };
}

/// A file that was gone through whole and has no fault: its arm count and its orders.
#[derive(Drop)]
pub struct Schedule<'a> {
    heading: Heading,
    orders: Orders<'a>,
}

impl<'a> Model for Schedule<'a> {
    ghost use Rattle.std.specs.Prelude.{◌≡◌, ◌≤◌, length};
    ghost use Rattle.schedule.specs.FileLimits.{file_limit};
    ghost use Rattle.schedule.specs.Reading.{Contents, contents};

    ghost Value = { Contents };

    ghost view = { λ s. contents s.heading.arms s.orders };

    ghost invariant = { λ s. (s.heading.orders ≡ length s.orders) × (length s.orders ≤ file_limit) };
}

// How many orders there are from a place to the end of a file, or the first fault there. The first order counts as 1.
#[tactic(auto, using(crate::proofs::ReadSoFar::counting))]
fn count_orders(file: &[u8], from: usize) -> Result<usize, ScheduleFault>
    ensures answer { result ≡ order_count (orders_from from 1 (drop from file.now)) }
    ensures few { IfOk result (λ n. n ≤ length file.now) }
{
    let mut at = from;
    let mut count = 0;
    while at < file.len() {
        let placed = order_at(file, at, count + 1)?;
        at = placed.next;
        count += 1;
    }
    Ok(count)
}

impl<'a> File<'a> {
    /// Takes a file of at most 60,000 bytes; the fault of a longer one is 9.
    pub fn new(bytes: &'a [u8]) -> Result<File<'a>, PlayFault>
        ensures { result ≡ short_file bytes.now }
    {
        if bytes.len() > FILE_LIMIT {
            return Err(PlayFault::LongFile);
        }
        Ok(File { bytes })
    }

    /// Goes through the whole file, and answers its arm count and orders, or its first fault, one of 11 to 15.
    pub fn schedule(&self) -> Result<Schedule<'a>, ScheduleFault>
        ensures { result ≡ schedule_from self.now }
    {
        let file = self.bytes;
        let first = arms_of(file)?;
        let count = count_orders(file, first.next)?;
        Ok(Schedule {
            heading: Heading {
                arms: first.value,
                orders: count,
            },
            orders: Orders::new(file, first.next, 1),
        })
    }
}

impl<'a> Schedule<'a> {
    /// The arm count, and how many orders there are.
    pub fn heading(&self) -> Heading
        ensures { result ≡ heading self.now }
    {
        self.heading
    }

    /// The orders, from the first on: 60,000 at most.
    pub fn orders(&self) -> Orders<'a>
        ensures orders { result ≡ self.now.orders }
        ensures few { length result ≤ file_limit }
    {
        self.orders.again()
    }
}
