//! Plays a schedule file from standard input over a bit bank, through the three-bit door, and prints the report,
//! or the fault line of a file that is not played. It prints nothing else.
//! It ends with status 0 after a play, 1 after a fault, and 2 where reading or writing fails.
#![tactic(auto)]

ghost use Rattle.std.specs.Prelude.{◌≡◌, ◌≤◌, length, take};
ghost use Rattle.play.specs.Limits.{report_room};
ghost use Rattle.play.specs.Playing.{playable};
ghost use Rattle.gateplay.specs.Printed.{shown, status_of};

use bank::BitBank;
use doors::ThreeBits;
use play::{REPORT_ROOM, fault_line, play};
use schedule::FILE_LIMIT;
use std::io;
use std::io::{Read, Write};
use std::process::ExitCode;

const PLAYED: u8 = 0;

const FAULT: u8 = 1;

const NOT_READ_OR_WRITTEN: u8 = 2;

// How many bytes at the start of the memory are to be printed, and the status that the program ends with.
#[derive(Drop)]
struct Outcome {
    length: usize,
    status: u8,
}

// Plays a file on a new bit bank, and leaves its report or its fault line at the start of the memory.
fn make_outcome(file: &[u8], memory: &mut [u8]) -> Outcome
    requires { report_room ≤ length memory.old }
    ensures fits { result.length ≤ length memory.new }
    ensures text { take result.length memory.new ≡ shown (playable file.now (length memory.old)) }
    ensures status { result.status ≡ status_of (playable file.now (length memory.old)) }
{
    let mut service = 0;
    match play::<_, ThreeBits>(file, BitBank::new(), memory, &mut service).answer {
        Ok(length) => Outcome {
            length,
            status: PLAYED,
        },
        Err(fault) => Outcome {
            length: fault_line(fault, memory).unwrap(),
            status: FAULT,
        },
    }
}

// Reads standard input, but no more than it takes to know that a file is too long.
fn read_file(rt: &HostRuntime) -> io::Result<Vec<u8>> {
    let mut file = Vec::new(rt.alloc());
    rt.stdin()
        .take(FILE_LIMIT as u64 + 1)
        .read_to_end(&mut file)?;
    Ok(file)
}

// Plays standard input, prints the report or the fault line, and answers the status.
fn run(rt: &HostRuntime) -> io::Result<u8> {
    let file = read_file(rt)?;
    let mut memory = [0; REPORT_ROOM];
    let Outcome { length, status } = make_outcome(&file, &mut memory);
    rt.stdout().write_all(&memory[..length])?;
    Ok(status)
}

fn main(rt: HostRuntime) -> ExitCode {
    ExitCode::from(run(&rt).unwrap_or(NOT_READ_OR_WRITTEN))
}
