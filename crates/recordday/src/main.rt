//! Records a day of a gate, plays the file that comes of it, and sets the report of the gate beside that of the play.
#![tactic(auto)]

// A day of turns, made through a recorder.
mod day;
// The report of a recorded gate, and that of a play of its file.
mod reports;

use crate::day::{ARMS, MEMORY, Refused, begin_day, record_day, spend};
use crate::reports::both_reports;
use bank::ByteBank;
use doors::ThreeBits;
use gate::Gate;
use play::REPORT_ROOM;
use recorder::{Refusal, start};
use std::io::Write;

// The gate's number.
const NUMBER: u16 = 7;

// The registers that the arms take at the three-bit door.
const REGISTERS: usize = 3 * ARMS + 1;

// What the memory for registers and file holds before: anything will do.
const FORMER: u8 = 170;

// How many bytes of the file stand on a line.
const LINE: usize = 32;

// Prints what was refused, by number and word.
fn show_refusal(rt: &HostRuntime, what: &str, refusal: Refusal) -> anyhow::Result<()> {
    let number = refusal.number();
    println!(rt; "{what} {number} {refusal}")?;
    Ok(())
}

// Prints bytes in hexadecimal.
fn show_bytes(rt: &HostRuntime, bytes: &[u8]) -> anyhow::Result<()> {
    for (k, byte) in bytes.iter().enumerate() {
        let before = match k % LINE {
            _ if k == 0 => "",
            0 => "\n",
            _ => " ",
        };
        print!(rt; "{before}{byte:02x}")?;
    }
    println!(rt; "")?;
    Ok(())
}

// Prints a heading, and a report below it.
fn show_report(rt: &HostRuntime, heading: &str, report: &[u8]) -> anyhow::Result<()> {
    println!(rt; "{heading}")?;
    rt.stdout().write_all(report)?;
    Ok(())
}

fn main(rt: HostRuntime) -> anyhow::Result<()> {
    let (mut registers, mut file) = ([FORMER; REGISTERS], [FORMER; MEMORY]);
    let gate = Gate::<_, ThreeBits>::make(ByteBank::new(&mut registers), NUMBER, ARMS);
    let mut recorder = begin_day(gate, &mut file)?;
    let (turns, refused) = record_day(&mut recorder, &mut file);
    let written = recorder.written();
    let (mut recorded, mut played) = ([0; REPORT_ROOM], [0; REPORT_ROOM]);
    let lengths = both_reports(&recorder, &file, &mut recorded, &mut played);
    let mut gate = recorder.stop();
    let (ended, spent) = match refused {
        Some(Refused { refusal, pass }) => (Some(refusal), spend(&mut gate, pass)),
        None => (None, None),
    };
    println!(rt; "turns {turns}")?;
    if let Some(refusal) = ended {
        show_refusal(&rt, "ended by", refusal)?;
    }
    println!(rt; "written {written} of {MEMORY} bytes")?;
    show_bytes(&rt, &file[..written])?;
    let (first, second) = lengths?;
    show_report(&rt, "the recorded gate", &recorded[..first])?;
    show_report(&rt, "the file played over bits", &played[..second])?;
    let same = first == second && recorded == played;
    println!(rt; "reports the same: {same}")?;
    if let Some((arm, phase)) = spent {
        println!(rt; "pass of arm {arm} spent: {phase:?}")?;
    }
    if let Err(refusal) = start(&gate, &mut file) {
        show_refusal(&rt, "started again:", refusal)?;
    }
    Ok(())
}
