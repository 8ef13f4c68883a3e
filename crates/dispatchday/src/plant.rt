ghost use Rattle.std.specs.Prelude.{◌≡◌, pos, ◌-ℤ◌};
ghost use Rattle.ring.specs.Rings.{put_in};
ghost use Rattle.dispatchday.specs.Plant.{asked_at, shown_at};
ghost use Rattle.dispatchday.specs.Day.{lost_after};

use dispatcher::Reading;
use ring::Ring;

// How many arms the plant has.
pub const ARMS: usize = 6;

// How many moves a day has.
pub const MOVES: u32 = 700;

// What the full rings refused in a day.
#[derive(Clone, Copy)]
pub struct Lost {
    pub arms: u32,
    pub readings: u32,
}

pub const NOTHING_LOST: Lost = Lost {
    arms: 0,
    readings: 0,
};

// The arm that asks for a visit before the move of a time: one before every twelfth move. Each seventh of them is arm 7, which the plant
// does not have.
pub fn asks(time: u32) -> Option<usize>
    ensures { result ≡ asked_at time }
{
    if time % 12 == 0 {
        Some((time / 12 % 7) as usize + 1)
    } else {
        None
    }
}

// The reading of an arm after the move of a time: from -20.0 to 79.9 degrees Celsius.
pub fn measure(arm: usize, time: u32) -> Reading
    ensures arm { result.arm ≡ arm }
    ensures tenths { result.tenths ≡ pos (shown_at arm time) -ℤ pos 200 }
{
    let shown = (arm % 32 * 137 + (time % 1000) as usize * 29) % 1000;
    Reading {
        arm,
        tenths: shown as i16 - 200,
    }
}

// Puts an item into a ring. A full one refuses it (17); it is then lost, and counted.
pub fn put_or_lose<T: Copy>(ring: &mut Ring<T>, item: T, lost: &mut u32)
    ensures ring { ring.new ≡ put_in item ring.old }
    ensures lost { lost.new ≡ lost_after ring.old lost.old }
{
    if ring.put(item).is_err() {
        *lost = lost.saturating_add(1);
    }
}
