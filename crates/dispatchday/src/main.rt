//! A day at a plant, by a host of the dispatcher: one ring holds the arms that are asked for, another the readings that were delivered.
//! Of a day through each door it prints how many readings were kept, what the full rings lost, the longest wait of an arm, and the readings
//! in the order in which they were delivered.
#![tactic(auto)]

// What the plant asks for, and what its probes show.
mod plant;
// How long arms wait, and how long the law of moves lets them wait.
mod wait_times;
// The host, with a dispatcher.
mod host;

use crate::host::day;
use crate::plant::{ARMS, Lost};
use crate::wait_times::{WaitTimes, promised};
use bank::ByteBank;
use dispatcher::{Dispatcher, Reading};
use doors::{Door, FourValued, ThreeBits};
use ring::Ring;

// The gate's number.
const NUMBER: u16 = 7;

// The registers of the plant's arms, and those that they take at the four-valued door.
const REGISTERS: usize = 3 * ARMS + 1;

const REGISTERS_FOUR_VALUED: usize = ARMS + 1;

// How many arms fit into the ring of those that are asked for, and how many readings into theirs.
const ASKED: usize = 4;

const READINGS: usize = 24;

const NO_READING: Reading = Reading { arm: 0, tenths: 0 };

// Prints what a day through a door left, and takes the readings out in the order in which they were delivered.
fn show<D: Door>(
    rt: &HostRuntime,
    readings: &mut Ring<Reading>,
    (lost, waits): (Lost, WaitTimes),
) -> anyhow::Result<()> {
    let count = readings.len();
    let Lost {
        arms,
        readings: missed,
    } = lost;
    println!(rt; "readings {count} lost {missed} asks lost {arms}")?;
    let (longest, promised) = (waits.longest, promised::<D>());
    println!(rt; "longest wait {longest} of {promised} moves")?;
    for _ in 0..count {
        if let Some(Reading { arm, tenths }) = readings.take() {
            println!(rt; "arm {arm} tenths {tenths}")?;
        }
    }
    Ok(())
}

fn main(rt: HostRuntime) -> anyhow::Result<()> {
    println!(rt; "through the three-bit door")?;
    let (mut asked, mut delivered) = ([0; ASKED], [NO_READING; READINGS]);
    let mut readings = Ring::over(&mut delivered);
    let mut registers = [0u8; REGISTERS];
    let bank = ByteBank::new(&mut registers as &mut [u8]);
    let mut dispatcher = Dispatcher::<_, ThreeBits>::new(bank, NUMBER, ARMS);
    let left = day(&mut dispatcher, &mut Ring::over(&mut asked), &mut readings);
    show::<ThreeBits>(&rt, &mut readings, left)?;

    println!(rt; "through the four-valued door")?;
    let mut registers = [0u8; REGISTERS_FOUR_VALUED];
    let bank = ByteBank::new(&mut registers as &mut [u8]);
    let mut dispatcher = Dispatcher::<_, FourValued>::new(bank, NUMBER, ARMS);
    let left = day(&mut dispatcher, &mut Ring::over(&mut asked), &mut readings);
    show::<FourValued>(&rt, &mut readings, left)
}
