ghost use Rattle.std.specs.Prelude.{◌≡◌, ◌<◌, ◌≤◌, ◌++◌, length, codes, decimal};
ghost use Rattle.gate_model.specs.Limits.{arm_limit};
ghost use Rattle.gate_model.specs.Phases.{letter_of};
ghost use Rattle.play.specs.Reports.{side_text, arm_line, first_line};

use arrayvec::ArrayString;
use bank::Bank;
use doors::Door;
use gate::{Gate, View};
use itoa::Buffer;

// Room for the first line of a report, in bytes: none is longer, whatever its numbers are.
const FIRST_ROOM: usize = 128;

// Room for the line of an arm, in bytes: none is longer.
const LINE_ROOM: usize = 60;

// A side, or a dash where it is missing.
fn side_text(side: Option<u64>, digits: &mut Buffer) -> &str
    ensures text { result.now ≡ side_text side }
    ensures short { length result.now ≤ 20 }
{
    match side {
        Some(bit) => digits.format(bit),
        None => "-",
    }
}

// The first line of a report: arm count, orders, refused orders and the bit.
pub(crate) fn first_line<B: Bank, D: Door>(
    gate: &Gate<B, D>,
    orders: usize,
    refused: usize,
) -> ArrayString<FIRST_ROOM>
    ensures { result.bytes ≡ first_line gate.now orders refused }
{
    let mut digits = Buffer::new();
    let mut line = ArrayString::new();
    line.push_str("arms ");
    line.push_str(digits.format(gate.arm_count()));
    line.push_str(" orders ");
    line.push_str(digits.format(orders));
    line.push_str(" refused ");
    line.push_str(digits.format(refused));
    line.push_str(" bit ");
    line.push_str(digits.format(gate.bit()));
    line.push_str("\n");
    line
}

// The line of an arm: arm, phase, side, visits and the largest count of its row.
fn view_line(arm: usize, view: View, most: u8) -> ArrayString<LINE_ROOM>
    ensures { result.bytes
        ≡ decimal arm ++ codes " " ++ letter_of view.phase ++ codes " " ++ side_text view.side
        ++ codes " " ++ decimal view.visits ++ codes " " ++ decimal most ++ codes "\n" }
{
    let mut digits = Buffer::new();
    let mut line = ArrayString::new();
    line.push_str(digits.format(arm));
    line.push_str(" ");
    line.push(char::from(view.phase.letter()));
    line.push_str(" ");
    line.push_str(side_text(view.side, &mut digits));
    line.push_str(" ");
    line.push_str(digits.format(view.visits));
    line.push_str(" ");
    line.push_str(digits.format(most));
    line.push_str("\n");
    line
}

// The line of arm k + 1.
pub(crate) fn arm_line<B: Bank, D: Door>(gate: &Gate<B, D>, k: usize) -> ArrayString<LINE_ROOM>
    requires arm { k < gate.now.n }
    requires few { gate.now.n ≤ arm_limit }
    ensures { result.bytes ≡ arm_line D.table gate.now k }
{
    let arm = k + 1;
    let view = gate.look(arm).unwrap();
    let most = gate.most_passed(arm).unwrap();
    view_line(arm, view, most)
}
