ghost use Rattle.std.specs.Prelude.{◌≡◌, ◌+◌, ◌≤◌, ◌++◌, length, nat_le, take, drop};
ghost use Rattle.schedule.specs.FileLimits.{largest_number};
ghost use Rattle.schedule.specs.Numbers.{number_from, groups};

use crate::fault::NumberFault;
use crate::limit::LARGEST_NUMBER;

// A group of seven bits is below this.
const GROUP: u32 = 128;

// The top bit of a byte, which says that another group follows.
const MORE: u8 = 128;

/// A number of a file, at most 16,383, and the place after it.
#[derive(Clone, Copy, Debug, PartialEq, Eq)]
pub struct Number {
    pub value: u16,
    pub next: usize,
}

/// The number that begins at a place. Where the place is at or past the end of the file, the fault is 11 (cut).
pub fn number_at(file: &[u8], at: usize) -> Result<Number, NumberFault>
    ensures { result ≡ number_from at (drop at file.now) }
{
    let cut = NumberFault::Cut { place: at };
    let low = *file.get(at).ok_or(cut)?;
    if low < MORE {
        return Ok(Number {
            value: u16::from(low),
            next: at + 1,
        });
    }
    match *file.get(at + 1).ok_or(cut)? {
        0 => Err(NumberFault::Padded { place: at }),
        high if high < MORE => Ok(Number {
            value: (u32::from(low - MORE) + GROUP * u32::from(high)) as u16,
            next: at + 2,
        }),
        _ => Err(NumberFault::Large { place: at }),
    }
}

/// Whether a number fits two groups, as each number of a file does: whether it is 16,383 at most.
pub fn fits_two_groups(number: u32) -> bool
    ensures { result ≡ nat_le number largest_number }
{
    number <= LARGEST_NUMBER
}

// How many bytes a number has.
pub(crate) fn width(number: u32) -> usize
    ensures { result ≡ length (groups number) }
{
    if number < GROUP { 1 } else { 2 }
}

// Writes a number at a place, and answers the place after it.
#[tactic(auto, using(crate::proofs::Puts::set_one, crate::proofs::Puts::set_two))]
pub(crate) fn put(out: &mut [u8], at: usize, number: u32) -> usize
    requires small { number ≤ largest_number }
    requires room { at + length (groups number) ≤ length out.old }
    ensures end { result ≡ at + length (groups number) }
    ensures after { out.new ≡ take at out.old ++ groups number ++ drop result out.old }
{
    if number < GROUP {
        out[at] = number as u8;
        return at + 1;
    }
    out[at] = (number % GROUP) as u8 + MORE;
    out[at + 1] = (number / GROUP) as u8;
    at + 2
}
