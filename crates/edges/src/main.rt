//! Prints how many edge cases are proved. Then plays the schedule files that its arguments name, and prints what came of each:
//! the report or the fault line; whether a play over a byte bank has the same text; the number of the fault with report memory that is
//! one byte too short; whether the orders that were read are written as the same file again.
//! At the end it plays one file through the four-valued door.
#![tactic(auto)]

mod cases;

use crate::cases::edge_cases;
use anyhow::anyhow;
use bank::{BitBank, ByteBank};
use doors::{FourValued, ThreeBits};
use gate_model::arm::ARM_LIMIT;
use play::{Played, REPORT_ROOM, fault_line, play};
use schedule::{FILE_LIMIT, Order, read, write};
use std::io::Write;
use std::{env, fs};

// What the service byte holds between plays.
const SERVICE: u8 = 7;

// One byte less than a report asks for.
const TOO_LITTLE: usize = REPORT_ROOM - 1;

// Registers for the most arms of the three-bit door.
const REGISTERS: usize = 3 * ARM_LIMIT + 1;

// Registers for the most arms of the four-valued door: the group, and the state of each.
const STATES_AND_GROUP: usize = ARM_LIMIT + 1;

// A file of three arms for the four-valued door: 3 goes inside while 2 waits, and then 2 twice while 1 waits.
const TWICE_PAST: [u8; 42] = [
    3, 8, 9, 9, 9, 12, 13, 13, 13, 13, 13, 13, 13, 13, 13, 13, 13, 13, 14, 13, 13, 4, 5, 5, 5, 9,
    10, 9, 9, 8, 9, 9, 9, 9, 9, 9, 9, 9, 9, 9, 9, 9,
];

// The length of the text that a play left in memory: the report, or the fault line, which is put there now.
fn text_length<B: Drop, G>(
    played: Played<B, G>,
    service: u8,
    memory: &mut [u8],
) -> anyhow::Result<usize> {
    if service != SERVICE {
        return Err(anyhow!("the service byte was not restored"));
    }
    match played.answer {
        Ok(length) => Ok(length),
        Err(fault) => {
            fault_line(fault, memory).map_err(|_| anyhow!("no memory for a fault line"))
        }
    }
}

// Prints the first bytes of a memory.
fn print_text(rt: &HostRuntime, memory: &[u8], length: usize) -> anyhow::Result<()> {
    if let Some(shown) = memory.get(..length) {
        rt.stdout().write_all(shown)?;
    }
    Ok(())
}

// The number of the fault of a play with report memory that is one byte too short.
fn short_of_memory(file: &[u8]) -> anyhow::Result<u8> {
    let mut memory = [0; TOO_LITTLE];
    let mut service = SERVICE;
    match play::<_, ThreeBits>(file, BitBank::new(), &mut memory, &mut service).answer {
        Ok(_) => Err(anyhow!("played with too little memory")),
        Err(fault) => Ok(fault.number()),
    }
}

// Reads a file and writes its orders again. Answers whether that is the same file; none where the file has a fault.
fn written_again(file: &[u8]) -> &'static str {
    let mut orders = [Order::Begin(0); FILE_LIMIT];
    let Ok(heading) = read(file, &mut orders) else {
        return "none";
    };
    let Some(list) = orders.get(..heading.orders) else {
        return "none";
    };
    let mut bytes = [0; FILE_LIMIT];
    match write(usize::from(heading.arms), list, &mut bytes) {
        Ok(length) if bytes.get(..length) == Some(file) => "same",
        _ => "another",
    }
}

fn show(rt: &HostRuntime, name: &str) -> anyhow::Result<()> {
    let file = fs::read(rt, name)?;
    let count = file.len();
    println!(rt; "{name}: {count} bytes")?;
    let mut text = [0; REPORT_ROOM];
    let mut service = SERVICE;
    let played = play::<_, ThreeBits>(&file, BitBank::new(), &mut text, &mut service);
    let length = text_length(played, service, &mut text)?;
    print_text(rt, &text, length)?;
    let mut registers = [9; REGISTERS];
    let mut other = [0; REPORT_ROOM];
    let bytes = ByteBank::new(&mut registers);
    let played = play::<_, ThreeBits>(&file, bytes, &mut other, &mut service);
    let again = text_length(played, service, &mut other)?;
    let same = if text == other && length == again {
        "same"
    } else {
        "another"
    };
    println!(rt; "over bytes: {same}")?;
    let number = short_of_memory(&file)?;
    println!(rt; "memory of {TOO_LITTLE}: {number}")?;
    let again = written_again(&file);
    println!(rt; "written again: {again}")?;
    Ok(())
}

// Plays a file through the four-valued door over a byte bank, and prints the report.
fn show_four_valued(rt: &HostRuntime) -> anyhow::Result<()> {
    let count = TWICE_PAST.len();
    println!(rt; "through the four-valued door: {count} bytes")?;
    let mut registers = [9; STATES_AND_GROUP];
    let mut text = [0; REPORT_ROOM];
    let mut service = SERVICE;
    let bytes = ByteBank::new(&mut registers);
    let played = play::<_, FourValued>(&TWICE_PAST, bytes, &mut text, &mut service);
    let length = text_length(played, service, &mut text)?;
    print_text(rt, &text, length)
}

fn main(rt: HostRuntime) -> anyhow::Result<()> {
    let proved = edge_cases();
    println!(rt; "{proved} edge cases")?;
    for name in env::args(&rt)?.skip(1) {
        show(&rt, name.as_str())?;
    }
    show_four_valued(&rt)
}
