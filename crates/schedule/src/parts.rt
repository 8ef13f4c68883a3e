ghost use Rattle.std.specs.Prelude.{◌≡◌, drop};
ghost use Rattle.schedule.specs.Numbers.{number_from};
ghost use Rattle.schedule.specs.Reading.{with_count, arms_from, order_from};

use crate::fault::{Counted, ScheduleFault};
use crate::limit::ARM_LIMIT;
use crate::number::{Number, number_at};
use crate::order_number::Order;

/// An order of a file, and the place after it.
#[derive(Clone, Copy, Debug, PartialEq, Eq)]
pub struct Placed {
    pub order: Order,
    pub next: usize,
}

// The number at a place. A fault has with it the number's count in the file, the arm count being 0.
fn counted(file: &[u8], at: usize, count: usize) -> Result<Number, Counted>
    ensures { result ≡ with_count count (number_from at (drop at file.now)) }
{
    number_at(file, at).map_err(|fault| Counted {
        fault,
        order: count,
    })
}

/// The arm count, which is the first number of a file, and the place after it. Its faults are 11 to 14.
pub fn arms_of(file: &[u8]) -> Result<Number, ScheduleFault>
    ensures { result ≡ arms_from file.now }
{
    let number = counted(file, 0, 0)?;
    if number.value == 0 || usize::from(number.value) > ARM_LIMIT {
        return Err(ScheduleFault::ArmCount);
    }
    Ok(number)
}

/// The order at a place, the `count`-th of its file, the first being 1. Its faults are 11, 12, 13 and 15.
#[inline(always)]
pub fn order_at(file: &[u8], at: usize, count: usize) -> Result<Placed, ScheduleFault>
    ensures { result ≡ order_from at count (drop at file.now) }
{
    let number = counted(file, at, count)?;
    let order = Order::from_number(number.value).ok_or(ScheduleFault::UnknownOrder {
        place: at,
        order: count,
    })?;
    Ok(Placed {
        order,
        next: number.next,
    })
}
