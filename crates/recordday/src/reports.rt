ghost use Rattle.std.specs.Prelude.{◌≡◌, ◌≤◌, IfOk, length};
ghost use Rattle.play.specs.Limits.{report_room};
ghost use Rattle.play.specs.Text.{overwritten};
ghost use Rattle.recordday.specs.Reports.{recorded_report};
ghost use Rattle.recorder.specs.Kept.{HoldsRecord};
ghost use Rattle.three_bits.specs.Positions.{three_bits};

use bank::{Bank, BitBank};
use doors::ThreeBits;
use play::{play, report};
use recorder::Recorder;
use schedule::{PlayFault, check};

// Puts the report of a recorded gate at the start of one memory, and that of a play of its file over a bit bank at the start of another.
// Answers their lengths. The contract says that the second is the first, byte for byte.
pub(crate) fn both_reports<B: Bank>(
    recorder: &Recorder<B, ThreeBits>,
    memory: &[u8],
    recorded: &mut [u8],
    played: &mut [u8],
) -> Result<(usize, usize), PlayFault>
    requires { HoldsRecord three_bits recorder.now memory.now }
    ensures recorded { IfOk result (λ l. (l.0 ≡ length (recorded_report three_bits recorder.now memory.now))
        × (recorded.new ≡ overwritten recorded.old (recorded_report three_bits recorder.now memory.now))) }
    ensures played { IfOk result (λ l. (l.1 ≡ length (recorded_report three_bits recorder.now memory.now))
        × (played.new ≡ overwritten played.old (recorded_report three_bits recorder.now memory.now))) }
    ensures fits { IfOk result (λ l. l.0 ≤ report_room) }
{
    let file = &memory[..recorder.written()];
    let orders = check(file)?.orders;
    let length = report(recorder.gate(), orders, 0, recorded)?;
    let mut service = 0;
    let again = play::<_, ThreeBits>(file, BitBank::new(), played, &mut service).answer?;
    Ok((length, again))
}
