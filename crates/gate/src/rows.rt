ghost use Rattle.std.specs.Prelude.{◌≡◌, ◌<◌, ◌≤◌, map, length, slice_index_or};
ghost use Rattle.gate_model.specs.Arms.{no_arm};
ghost use Rattle.gate_model.specs.Limits.{arm_limit};
ghost use Rattle.gate.specs.Answers.{largest_count};
ghost use Rattle.gate_model.specs.Tallies.{counted, is_idle, row_started, tallied};
ghost use Rattle.gate.specs.Gates.{RestIdle};

use doors::Door;
use gate_model::Phase;
use gate_model::arm::{ARM_LIMIT, Arm};

// The phase of the record at place k, from 0: that of arm k + 1.
pub(crate) fn phase_at<D: Door>(arms: &[Arm<D>; ARM_LIMIT], k: usize) -> Phase
    requires { k < arm_limit }
    ensures { result ≡ D.table.phase (slice_index_or arms.now k (no_arm D.table)).position }
{
    arms[k].position.phase()
}

// The arm at place b went inside: this arm adds 1 for it, if it waits.
fn count<D: Door>(arm: &mut Arm<D>, b: usize)
    requires { b < arm_limit }
    ensures { arm.new ≡ counted D.table b arm.old }
{
    if arm.position.phase() == Phase::W {
        arm.row[b] = arm.row[b].saturating_add(1);
    }
}

// The arm at place b went inside: each arm of the gate that waits adds 1 for it. The records past the first n are idle.
fn count_entry<D: Door>(arms: &mut [Arm<D>; ARM_LIMIT], n: usize, b: usize)
    requires arm { b < arm_limit }
    requires few { n ≤ arm_limit }
    requires rest { RestIdle D.table n arms.old }
    ensures after { arms.new ≡ map (counted D.table b) arms.old }
    ensures full { length arms.new ≡ arm_limit }
{
    for k in 0..n {
        count(&mut arms[k], b);
    }
}

// The arm at place k ended its doorway: its row starts at 0, and the idle arms are noted. The records past the first n are idle.
fn start_row<D: Door>(arms: &mut [Arm<D>; ARM_LIMIT], n: usize, k: usize)
    requires arm { k < arm_limit }
    requires few { n ≤ arm_limit }
    requires rest { RestIdle D.table n arms.old }
    ensures { arms.new ≡ row_started D.table k arms.old }
{
    arms[k].row = [0; ARM_LIMIT];
    arms[k].notes = [true; ARM_LIMIT];
    for j in 0..n {
        arms[k].notes[j] = phase_at(arms, j) == Phase::I;
    }
}

// What a step of the arm at place k, from one phase to another, changes in the rows. At the end of its doorway its own row starts;
// when it goes inside, the arms that wait count that. No other step changes a row, so a row is kept until the next doorway ends.
pub(crate) fn follow<D: Door>(
    arms: &mut [Arm<D>; ARM_LIMIT],
    n: usize,
    k: usize,
    from: Phase,
    to: Phase,
)
    requires arm { k < arm_limit }
    requires few { n ≤ arm_limit }
    requires rest { RestIdle D.table n arms.old }
    ensures rows { arms.new ≡ tallied D.table k from to arms.old }
    ensures full { length arms.new ≡ arm_limit }
{
    // Most steps end in the phase that they began in.
    if from == to {
        return;
    }
    match (from, to) {
        (Phase::D, Phase::W) => start_row(arms, n, k),
        (Phase::W, Phase::F) => count_entry(arms, n, k),
        _ => {}
    }
}

// The largest of the first n counts of a row.
pub(crate) fn largest(row: &[u8; ARM_LIMIT], n: usize) -> u8
    requires { n ≤ arm_limit }
    ensures { result ≡ largest_count row.now n }
{
    let mut most: u8 = 0;
    for b in 0..n {
        most = most.max(row[b]);
    }
    most
}
