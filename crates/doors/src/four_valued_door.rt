ghost use Rattle.std.specs.Prelude.{◌≡◌};
ghost use Rattle.std.proofs.Common.{rules};
ghost use Rattle.four_valued.specs.Positions.{read_by, onward, four_valued};
ghost use Rattle.simulation.proofs.Accesses.{accesses_by};
ghost use Rattle.simulation.proofs.Doorways.{reads_by, indexes_by};
ghost use Rattle.simulation.proofs.RulesShown.{phased_by, bits_by, rules_by};
ghost use Rattle.simulation.proofs.Shown.{way_by};
ghost use Rattle.four_valued.proofs.Plan.{plan};

use crate::interface::Door;
use four_valued::position::{Doorway, Exit, FourValued, Place};
use gate_model::Phase;
use gate_model::access::{Access, GROUP};

// What the state of an arm is while it chooses, and while it is idle.
const CHOOSING: u64 = 2;

const IDLE: u64 = 3;

// The position after index j: the first waiting place at j + 1, or inside after the last arm.
fn next_arm(n: u8, j: u8) -> FourValued
    ensures { result ≡ onward n j }
{
    if j < n {
        FourValued::Waiting(j + 1, Place::Group)
    } else {
        FourValued::Inside
    }
}

// The register that a waiting arm reads here, looking at arm j.
fn register(place: Place, j: u8) -> usize
    ensures { result ≡ read_by j place }
{
    match place {
        Place::Group | Place::GroupAgain => GROUP,
        Place::Choosing | Place::Side | Place::SideAgain => usize::from(j),
    }
}

impl Door for FourValued {
    ghost table = { four_valued };

    fn idle() -> FourValued {
        FourValued::Idle
    }

    fn entry() -> FourValued {
        FourValued::Doorway(Doorway::Choose)
    }

    fn exit() -> FourValued {
        FourValued::Leaving(Exit::Turn)
    }

    fn phase(self) -> Phase {
        match self {
            FourValued::Idle => Phase::I,
            FourValued::Doorway(_) => Phase::D,
            FourValued::Waiting(_, _) => Phase::W,
            FourValued::Inside => Phase::F,
            FourValued::Leaving(_) => Phase::X,
        }
    }

    fn reads_bit(self) -> bool {
        matches!(self, FourValued::Doorway(Doorway::Read))
    }

    fn index(self) -> usize {
        match self {
            FourValued::Waiting(j, _) => usize::from(j),
            _ => 0,
        }
    }

    fn access(self, i: u8, side: u64) -> Access {
        let state = usize::from(i);
        match self {
            FourValued::Idle | FourValued::Inside => Access::Nothing,
            FourValued::Doorway(Doorway::Choose) => Access::Write(state, CHOOSING),
            FourValued::Doorway(Doorway::Read) => Access::Read(GROUP),
            FourValued::Doorway(Doorway::Tell) => Access::Write(state, side),
            FourValued::Waiting(j, place) => Access::Read(register(place, j)),
            FourValued::Leaving(Exit::Turn) => Access::Write(GROUP, 1u64.saturating_sub(side)),
            FourValued::Leaving(Exit::Rest) => Access::Write(state, IDLE),
        }
    }

    fn advance(&mut self, n: u8, side: u64, value: u64) {
        let other = 1u64.saturating_sub(side);
        *self = match (*self, value) {
            (FourValued::Idle, _) => FourValued::Idle,
            (FourValued::Doorway(Doorway::Choose), _) => FourValued::Doorway(Doorway::Read),
            (FourValued::Doorway(Doorway::Read), _) => FourValued::Doorway(Doorway::Tell),
            (FourValued::Doorway(Doorway::Tell), _) => FourValued::Waiting(1, Place::Group),
            (FourValued::Waiting(_, Place::Group), v) if v != side => FourValued::Inside,
            (FourValued::Waiting(j, Place::Group), _) => FourValued::Waiting(j, Place::Choosing),
            (FourValued::Waiting(j, Place::Choosing), CHOOSING) => FourValued::Waiting(
                j,
                Place::Choosing,
            ),
            (FourValued::Waiting(j, Place::Choosing), _) => FourValued::Waiting(j, Place::Side),
            (FourValued::Waiting(j, Place::Side), v) if v != other => next_arm(n, j),
            (FourValued::Waiting(j, Place::Side), _) => FourValued::Waiting(j, Place::SideAgain),
            (FourValued::Waiting(j, Place::SideAgain), v) if v != other => next_arm(n, j),
            (FourValued::Waiting(j, Place::SideAgain), _) => FourValued::Waiting(
                j,
                Place::GroupAgain,
            ),
            (FourValued::Waiting(j, Place::GroupAgain), v) if v != side => next_arm(n, j),
            (FourValued::Waiting(j, Place::GroupAgain), _) => FourValued::Waiting(
                j,
                Place::SideAgain,
            ),
            (FourValued::Inside, _) => FourValued::Inside,
            (FourValued::Leaving(Exit::Turn), _) => FourValued::Leaving(Exit::Rest),
            (FourValued::Leaving(Exit::Rest), _) => FourValued::Idle,
        };
    }

    fn needed() -> u64 {
        IDLE
    }

    fn room(n: u8) -> usize {
        usize::from(n) + 1
    }

    fn first(i: usize) -> u64 {
        if i == GROUP { 0 } else { IDLE }
    }

    fn rounds(n: u8) -> usize {
        6 * usize::from(n) + 16
    }

    ghost phased = { phased_by plan };

    ghost bits = { bits_by plan };

    ghost rules = { rules_by plan };

    ghost way = { way_by plan };

    ghost accesses = { accesses_by plan };

    ghost reads = { reads_by plan };

    ghost indexes = { indexes_by plan };

    ghost some_room = { plan.some_room };

    ghost told_apart = { λ p q. Prim.search rules };
}
