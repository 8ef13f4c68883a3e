ghost use Rattle.std.specs.Prelude.{◌≤◌, IfErr, IfOk, IfSome};
ghost use Rattle.recordday.specs.Day.{IsOut};
ghost use Rattle.recorder.specs.Kept.{HoldsRecord};

use bank::Bank;
use doors::Door;
use gate::{Gate, Pass};
use gate_model::Phase;
use recorder::{HandedBack, Recorder, Refusal, start};

// How many arms the gate has.
pub(crate) const ARMS: usize = 6;

// How many bytes of memory the file has. No day has more turns, since each that is not refused writes a byte at least.
pub(crate) const MEMORY: usize = 266;

// Why a turn was not made; the pass is in hand where the leave was refused.
pub(crate) struct Refused {
    pub(crate) refusal: Refusal,
    pub(crate) pass: Option<Pass>,
}

impl From<Refusal> for Refused {
    ghost use Rattle.std.specs.Prelude.{◌≡◌, None};

    ghost from_gives = { λ refusal r. r ≡ record { refusal = refusal; pass = None } };

    fn from(refusal: Refusal) -> Refused {
        Refused {
            refusal,
            pass: None,
        }
    }
}

impl From<HandedBack> for Refused {
    ghost use Rattle.std.specs.Prelude.{◌≡◌, Some};

    ghost from_gives = { λ back r. r ≡ record { refusal = back.refusal; pass = Some back.pass } };

    fn from(back: HandedBack) -> Refused {
        let HandedBack { pass, refusal } = back;
        Refused {
            refusal,
            pass: Some(pass),
        }
    }
}

// Starts the file of a gate, and hands the gate over.
pub(crate) fn begin_day<B: Bank + Drop, D: Door>(
    gate: Gate<B, D>,
    file: &mut [u8],
) -> Result<Recorder<B, D>, Refusal>
    ensures { IfOk result (λ recorder. HoldsRecord D.table recorder file.new) }
{
    Ok(start(&gate, file)?.over(gate))
}

// The arm whose turn it is: of 18 turns, arms 1 and 4 have five each, the others two.
fn arm_of_turn(turn: usize) -> usize
    requires { turn ≤ MEMORY }
{
    1 + turn * turn / 3 % ARMS
}

// Admits an arm that is inside, and lets it leave with its pass.
fn end_visit<B: Bank, D: Door>(
    recorder: &mut Recorder<B, D>,
    arm: usize,
    file: &mut [u8],
) -> Result<Phase, Refused>
    ensures out { IfErr result (λ refused. IsOut D.table recorder.new.gate refused.pass) }
    ensures kept { HoldsRecord D.table recorder.old file.old → HoldsRecord D.table recorder.new file.new }
{
    let pass = recorder.admit(arm, file)?;
    Ok(recorder.leave(pass, file)?)
}

// One turn of an arm: it does what its phase asks for.
fn take_turn<B: Bank, D: Door>(
    recorder: &mut Recorder<B, D>,
    arm: usize,
    file: &mut [u8],
) -> Result<Phase, Refused>
    ensures out { IfErr result (λ refused. IsOut D.table recorder.new.gate refused.pass) }
    ensures kept { HoldsRecord D.table recorder.old file.old → HoldsRecord D.table recorder.new file.new }
{
    match recorder.gate().phase(arm) {
        Ok(Phase::F) => end_visit(recorder, arm, file),
        Ok(Phase::I) => Ok(recorder.begin(arm, file)?),
        _ => Ok(recorder.step(arm, file)?),
    }
}

// Makes turns up to the first that is refused; answers how many there were, that one too, and why it was refused.
pub(crate) fn record_day<B: Bank, D: Door>(
    recorder: &mut Recorder<B, D>,
    file: &mut [u8],
) -> (usize, Option<Refused>)
    requires { HoldsRecord D.table recorder.old file.old }
    ensures out { IfSome result.1 (λ refused. IsOut D.table recorder.new.gate refused.pass) }
    ensures kept { HoldsRecord D.table recorder.new file.new }
{
    for turn in 1..MEMORY + 1 {
        if let Err(refused) = take_turn(recorder, arm_of_turn(turn), file) {
            return (turn, Some(refused));
        }
    }
    (MEMORY, None)
}

// Spends the pass in hand, if there is one, at the gate that the recorder handed back. Answers its arm and the phase after that.
pub(crate) fn spend<B: Bank, D: Door>(
    gate: &mut Gate<B, D>,
    held: Option<Pass>,
) -> Option<(usize, Phase)>
    requires { IsOut D.table gate.old held }
{
    let pass = held?;
    let arm = pass.arm();
    Some((arm, gate.leave(pass).unwrap()))
}
