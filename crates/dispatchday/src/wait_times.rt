ghost use Rattle.std.specs.Prelude.{◌≡◌, slice_set};
ghost use Rattle.dispatchday.specs.WaitTimes.{no_waits, since, noted, promised};

use crate::plant::ARMS;
use doors::Door;
use gate_model::Phase;
use gate_model::arm::ARM_LIMIT;

// A place for each arm that a gate can have, by its number.
const PLACES: usize = ARM_LIMIT + 1;

// How long arms wait, in moves: from the move after which an arm is first seen to wait to the move after which it is seen inside.
#[derive(Drop)]
pub struct WaitTimes {
    // The move with which the present wait of each arm began; none of an arm that does not wait.
    since: [Option<u32>; PLACES],
    // The longest wait that has ended.
    pub longest: u32,
}

impl WaitTimes {
    pub fn none() -> WaitTimes
        ensures { result ≡ no_waits }
    {
        WaitTimes {
            since: [None; PLACES],
            longest: 0,
        }
    }

    // Notes the phase in which an arm is seen after the move of this time; none where there is no such arm.
    pub fn note(&mut self, arm: usize, time: u32, seen: Option<Phase>)
        ensures { self.new ≡ noted arm time seen self.old }
    {
        match (seen, self.since(arm)) {
            (Some(Phase::W), None) => self.set_since(arm, Some(time)),
            (Some(Phase::F), Some(began)) => {
                self.set_since(arm, None);
                self.longest = self.longest.max(time.saturating_sub(began));
            }
            _ => {}
        }
    }

    // The move with which the present wait of an arm began; none where it does not wait.
    fn since(&self, arm: usize) -> Option<u32>
        ensures { result ≡ since self.now arm }
    {
        self.since.get(arm).copied().flatten()
    }

    #[tactic(auto, using(std::proofs::lemmas::List::set_past))]
    fn set_since(&mut self, arm: usize, since: Option<u32>)
        ensures since { self.new.since ≡ slice_set self.old.since arm since }
        ensures longest { self.new.longest ≡ self.old.longest }
    {
        if arm < PLACES {
            self.since[arm] = since;
        }
    }
}

// Within how many moves an arm of the plant that waits is seen inside, by the law of moves.
pub fn promised<D: Door>() -> usize
    ensures { result ≡ promised D.table }
{
    ARMS * D::rounds(ARMS as u8)
}
