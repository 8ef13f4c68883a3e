ghost use Rattle.std.specs.Prelude.{◌≡◌};
ghost use Rattle.dispatchday.specs.WaitTimes.{no_waits};
ghost use Rattle.dispatchday.specs.Day.{MovesMade, day_moves, host, nothing_lost, phase_seen, seen_inside, day_of};

use crate::plant::{Lost, MOVES, NOTHING_LOST, asks, measure, put_or_lose};
use crate::wait_times::WaitTimes;
use bank::Bank;
use dispatcher::{Dispatcher, Reading};
use doors::Door;
use gate_model::Phase;
use ring::Ring;

// A day of moves; answers what the full rings refused, and how long arms waited.
pub fn day<B: Bank, D: Door>(
    dispatcher: &mut Dispatcher<B, D>,
    asked: &mut Ring<usize>,
    readings: &mut Ring<Reading>,
) -> (Lost, WaitTimes)
    ensures moves { MovesMade D.table day_moves dispatcher.old dispatcher.new }
    ensures day { host dispatcher.new asked.new readings.new result.0 result.1
        ≡ day_of D.table day_moves (host dispatcher.old asked.old readings.old nothing_lost no_waits) }
{
    let mut lost = NOTHING_LOST;
    let mut waits = WaitTimes::none();
    for time in 0..MOVES {
        if let Some(arm) = asks(time) {
            put_or_lose(asked, arm, &mut lost.arms);
        }
        let arm = dispatcher.make_move(asked);
        let seen = phase_seen(dispatcher, arm);
        waits.note(arm, time, seen);
        if seen_inside(seen) {
            put_or_lose(readings, measure(arm, time), &mut lost.readings);
        }
    }
    (lost, waits)
}

// The phase of an arm; none where the gate has no such arm.
fn phase_seen<B: Bank, D: Door>(dispatcher: &Dispatcher<B, D>, arm: usize) -> Option<Phase>
    ensures { result ≡ phase_seen D.table dispatcher.now.gate arm }
{
    dispatcher.gate().phase(arm).ok()
}

// Whether an arm that is seen in this phase is inside, so that its reading is to be delivered.
fn seen_inside(seen: Option<Phase>) -> bool
    ensures { result ≡ seen_inside seen }
{
    seen == Some(Phase::F)
}
