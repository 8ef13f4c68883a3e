ghost use Rattle.std.specs.Prelude.{◌≡◌, ◌≤◌, if◌then◌else◌, length, nat_le, Ok, Err, IfOk};
ghost use Rattle.schedule.specs.declared.fault.PlayFault.TheVariants.{ShortMemory};
ghost use Rattle.play.specs.Limits.{report_room};
ghost use Rattle.play.specs.Reports.{report_text, layer_word, fault_text, text_answer, text_memory};
ghost use Rattle.play.specs.Text.{overwritten};

use crate::lines::{arm_line, first_line};
use arrayvec::ArrayString;
use bank::Bank;
use doors::Door;
use gate::Gate;
use itoa::Buffer;
use schedule::{Layer, PlayFault};

/// The least memory for a report or a fault line, in bytes.
pub const REPORT_ROOM: usize = 4096;

// Room for a fault line, in bytes: none is longer.
const FAULT_ROOM: usize = 128;

// Answers fault 10 where memory of so many bytes is too short for a report or a fault line.
pub(crate) fn ask_room(bytes: usize) -> Result<(), PlayFault>
    ensures { result ≡ (if nat_le report_room bytes then Ok tt else Err ShortMemory) }
{
    if bytes < REPORT_ROOM {
        return Err(PlayFault::ShortMemory);
    }
    Ok(())
}

// Copies a text to the start of memory that has room for any report, and answers its length.
fn deliver(text: &str, memory: &mut [u8]) -> usize
    requires fits { length text.now ≤ report_room }
    requires room { report_room ≤ length memory.old }
    ensures answer { result ≡ length text.now }
    ensures after { memory.new ≡ overwritten memory.old text.now }
    ensures fits { result ≤ report_room }
{
    let size = text.len();
    memory[..size].copy_from_slice(text.as_bytes());
    size
}

// The name of a layer.
fn layer_word(layer: Layer) -> &'static str
    ensures text { result.now ≡ layer_word layer }
    ensures short { length result.now ≤ 8 }
{
    match layer {
        Layer::Number => "number",
        Layer::Schedule => "schedule",
        Layer::Play => "play",
    }
}

/// Puts the line of a fault at the start of the memory, and answers its length in bytes.
/// Memory of fewer bytes than [`REPORT_ROOM`] gives fault 10, and stays as it was.
pub fn fault_line(fault: PlayFault, memory: &mut [u8]) -> Result<usize, PlayFault>
    ensures answer { result ≡ text_answer memory.old (fault_text fault) }
    ensures after { memory.new ≡ text_memory memory.old (fault_text fault) }
    ensures fits { IfOk result (λ n. n ≤ report_room) }
{
    ask_room(memory.len())?;
    let mut digits = Buffer::new();
    let mut line = ArrayString::<FAULT_ROOM>::new();
    line.push_str("fault ");
    line.push_str(digits.format(fault.number()));
    line.push_str(" at ");
    line.push_str(digits.format(fault.place()));
    line.push_str(" order ");
    line.push_str(digits.format(fault.order()));
    line.push_str(" layer ");
    line.push_str(layer_word(fault.layer()));
    line.push_str("\n");
    Ok(deliver(line.as_str(), memory))
}

// Puts the report of a gate at the start of memory that has room for any report, and answers its length.
pub(crate) fn put_report<B: Bank, D: Door>(
    gate: &Gate<B, D>,
    orders: usize,
    refused: usize,
    memory: &mut [u8],
) -> usize
    requires { report_room ≤ length memory.old }
    ensures answer { result ≡ length (report_text D.table gate.now orders refused) }
    ensures after { memory.new
        ≡ overwritten memory.old (report_text D.table gate.now orders refused) }
    ensures fits { result ≤ report_room }
{
    let mut page = ArrayString::<REPORT_ROOM>::new();
    page.push_str(first_line(gate, orders, refused).as_str());
    for k in 0..gate.arm_count() {
        page.push_str(arm_line(gate, k).as_str());
    }
    deliver(page.as_str(), memory)
}

/// Puts the report of a gate at the start of the memory, and answers its length in bytes. Its counts of orders and of refused
/// orders are those given here. Memory of fewer bytes than [`REPORT_ROOM`] gives fault 10, and stays as it was.
pub fn report<B: Bank, D: Door>(
    gate: &Gate<B, D>,
    orders: usize,
    refused: usize,
    memory: &mut [u8],
) -> Result<usize, PlayFault>
    ensures answer { result ≡ text_answer memory.old (report_text D.table gate.now orders refused) }
    ensures after { memory.new
        ≡ text_memory memory.old (report_text D.table gate.now orders refused) }
    ensures fits { IfOk result (λ n. n ≤ report_room) }
{
    ask_room(memory.len())?;
    Ok(put_report(gate, orders, refused, memory))
}
