ghost use Rattle.std.specs.Prelude.{◌≡◌, ◌≤◌, ◌&&◌, ◌==◌, length};
ghost use Rattle.std.specs.List.{list_all, range_with_len};
ghost use Rattle.gate.specs.Gates.{IsGate};
ghost use Rattle.gate_model.specs.States.{is_arm, arm_at};
ghost use Rattle.gate_model.specs.Unbegun.{AsMade};
ghost use Rattle.recorder.specs.Answers.{unless_refused};
ghost use Rattle.recorder.specs.Recorders.{is_fit, has_room, start_refusal, memory_started, over};
ghost use Rattle.schedule.specs.FileLimits.{file_limit};

use crate::recorder::Recorder;
use crate::refusal::Refusal;
use crate::started::Started;
use bank::Bank;
use doors::Door;
use gate::Gate;
use schedule::FILE_LIMIT;

// Whether the gate has an arm, and no visit of it was begun.
fn is_unbegun<B: Bank, D: Door>(gate: &Gate<B, D>, arm: usize) -> bool
    ensures { result ≡ (is_arm gate.now arm && (arm_at D.table gate.now arm).visits == 0) }
{
    matches!(gate.look(arm), Ok(view) if view.visits == 0)
}

// Whether no visit of the gate's arms was begun.
fn are_unbegun<B: Bank, D: Door>(gate: &Gate<B, D>) -> bool
    ensures { result ≡ list_all (λ arm. (arm_at D.table gate.now arm).visits == 0) (range_with_len 1 gate.now.n) }
{
    let n = gate.arm_count();
    (1..n + 1).all(
        |arm| -> bool
            ensures { result ≡ (is_arm gate.entry.now arm && (arm_at D.table gate.entry.now arm).visits == 0) }
        { is_unbegun(gate, arm) },
    )
}

// Whether a gate can be recorded: it has arms, and no visit of them was begun.
fn is_fit<B: Bank, D: Door>(gate: &Gate<B, D>) -> bool
    ensures { result ≡ is_fit D.table gate.now }
{
    gate.arm_count() >= 1 && are_unbegun(gate)
}

// Whether two bytes are free after those written, in memory of so many bytes, and two are left up to the longest file.
pub(crate) fn has_room(written: usize, size: usize) -> bool
    requires { written ≤ file_limit }
    ensures { result ≡ has_room written size }
{
    written + 2 <= size && written + 2 <= FILE_LIMIT
}

// Whether a recorder over this gate records it: it is fit, and has as many arms as were written.
fn is_recorded<B: Bank, D: Door>(gate: &Gate<B, D>, arms: usize) -> bool
    ensures fit { result ≡ (is_fit D.table gate.now && gate.now.n == arms) }
    ensures gate { IsGate D.table gate.now }
{
    let n = gate.arm_count();
    is_fit(gate) && n == arms
}

/// Starts the file of a gate at the start of the memory: writes the gate's arm count, which takes one byte. The gate is only looked at,
/// and is handed over after that, by `over` of what this answers. Refuses with 19, then 18; a refused start leaves the memory as it was.
pub fn start<B: Bank, D: Door>(gate: &Gate<B, D>, file: &mut [u8]) -> Result<Started, Refusal>
    ensures answer { result ≡ unless_refused (start_refusal D.table gate.now (length file.old)) gate.now.n }
    ensures memory { file.new ≡ memory_started D.table gate.now file.old }
    ensures as_made { AsMade D.table }
{
    if !is_fit(gate) {
        return Err(Refusal::UnfitGate);
    }
    if !has_room(0, file.len()) {
        return Err(Refusal::FileFull);
    }
    let arms = gate.arm_count();
    let written = schedule::start(arms, file).unwrap();
    Ok(Started { arms, written })
}

impl Started {
    /// Hands the gate over. It should be the one that `start` looked at: a recorder over a gate that 19 turns down, or over one with
    /// another arm count than was written, answers 19 to begin, step, admit and leave, and neither writes nor calls its gate.
    pub fn over<B: Bank, D: Door>(self, gate: Gate<B, D>) -> Recorder<B, D>
        ensures { result ≡ over D.table self gate }
    {
        let fit = is_recorded(&gate, self.arms);
        Recorder {
            gate,
            written: self.written,
            fit,
        }
    }
}
