ghost use Rattle.std.specs.Prelude.{◌≡◌};
ghost use Rattle.std.proofs.Common.{rules};
ghost use Rattle.three_bits.specs.Positions.{choosing_of, mygroup_of, flag_of, read_by, onward, three_bits};
ghost use Rattle.simulation.proofs.Accesses.{accesses_by};
ghost use Rattle.simulation.proofs.Doorways.{reads_by, indexes_by};
ghost use Rattle.simulation.proofs.RulesShown.{phased_by, bits_by, rules_by};
ghost use Rattle.simulation.proofs.Shown.{way_by};
ghost use Rattle.three_bits.proofs.Plan.{plan};

use crate::interface::Door;
use gate_model::Phase;
use gate_model::access::{Access, GROUP};
use three_bits::position::{Doorway, Exit, Place, ThreeBits};

// The three registers of arm i.
fn choosing(i: u8) -> usize
    ensures { result ≡ choosing_of i }
{
    (3 * usize::from(i)).saturating_sub(2)
}

fn mygroup(i: u8) -> usize
    ensures { result ≡ mygroup_of i }
{
    (3 * usize::from(i)).saturating_sub(1)
}

fn flag(i: u8) -> usize
    ensures { result ≡ flag_of i }
{
    3 * usize::from(i)
}

// The position after index j: the first waiting place at j + 1, or inside after the last arm.
fn next_arm(n: u8, j: u8) -> ThreeBits
    ensures { result ≡ onward n j }
{
    if j < n {
        ThreeBits::Waiting(j + 1, Place::W1)
    } else {
        ThreeBits::Inside
    }
}

// The register that a waiting arm reads here, looking at arm j.
fn register(place: Place, j: u8) -> usize
    ensures { result ≡ read_by j place }
{
    match place {
        Place::W1 | Place::W5 => GROUP,
        Place::W2 => choosing(j),
        Place::W3 | Place::W6 => mygroup(j),
        Place::W4 => flag(j),
    }
}

impl Door for ThreeBits {
    ghost table = { three_bits };

    fn idle() -> ThreeBits {
        ThreeBits::Idle
    }

    fn entry() -> ThreeBits {
        ThreeBits::Doorway(Doorway::D1)
    }

    fn exit() -> ThreeBits {
        ThreeBits::Leaving(Exit::X1)
    }

    fn phase(self) -> Phase {
        match self {
            ThreeBits::Idle => Phase::I,
            ThreeBits::Doorway(_) => Phase::D,
            ThreeBits::Waiting(_, _) => Phase::W,
            ThreeBits::Inside => Phase::F,
            ThreeBits::Leaving(_) => Phase::X,
        }
    }

    fn reads_bit(self) -> bool {
        matches!(self, ThreeBits::Doorway(Doorway::D2))
    }

    fn index(self) -> usize {
        match self {
            ThreeBits::Waiting(j, _) => usize::from(j),
            _ => 0,
        }
    }

    fn access(self, i: u8, side: u64) -> Access {
        match self {
            ThreeBits::Idle | ThreeBits::Inside => Access::Nothing,
            ThreeBits::Doorway(Doorway::D1) => Access::Write(choosing(i), 1),
            ThreeBits::Doorway(Doorway::D2) => Access::Read(GROUP),
            ThreeBits::Doorway(Doorway::D3) => Access::Write(mygroup(i), side),
            ThreeBits::Doorway(Doorway::D4) => Access::Write(flag(i), 1),
            ThreeBits::Doorway(Doorway::D5) => Access::Write(choosing(i), 0),
            ThreeBits::Waiting(j, place) => Access::Read(register(place, j)),
            ThreeBits::Leaving(Exit::X1) => Access::Write(GROUP, 1u64.saturating_sub(side)),
            ThreeBits::Leaving(Exit::X2) => Access::Write(flag(i), 0),
        }
    }

    fn advance(&mut self, n: u8, side: u64, value: u64) {
        *self = match (*self, value) {
            (ThreeBits::Idle, _) => ThreeBits::Idle,
            (ThreeBits::Doorway(Doorway::D1), _) => ThreeBits::Doorway(Doorway::D2),
            (ThreeBits::Doorway(Doorway::D2), _) => ThreeBits::Doorway(Doorway::D3),
            (ThreeBits::Doorway(Doorway::D3), _) => ThreeBits::Doorway(Doorway::D4),
            (ThreeBits::Doorway(Doorway::D4), _) => ThreeBits::Doorway(Doorway::D5),
            (ThreeBits::Doorway(Doorway::D5), _) => ThreeBits::Waiting(1, Place::W1),
            (ThreeBits::Waiting(_, Place::W1), v) if v != side => ThreeBits::Inside,
            (ThreeBits::Waiting(j, Place::W1), _) => ThreeBits::Waiting(j, Place::W2),
            (ThreeBits::Waiting(j, Place::W2), 0) => ThreeBits::Waiting(j, Place::W3),
            (ThreeBits::Waiting(j, Place::W2), _) => ThreeBits::Waiting(j, Place::W2),
            (ThreeBits::Waiting(j, Place::W3), v) if v == side => next_arm(n, j),
            (ThreeBits::Waiting(j, Place::W3), _) => ThreeBits::Waiting(j, Place::W4),
            (ThreeBits::Waiting(j, Place::W4), 0) => next_arm(n, j),
            (ThreeBits::Waiting(j, Place::W4), _) => ThreeBits::Waiting(j, Place::W5),
            (ThreeBits::Waiting(j, Place::W5), v) if v != side => next_arm(n, j),
            (ThreeBits::Waiting(j, Place::W5), _) => ThreeBits::Waiting(j, Place::W6),
            (ThreeBits::Waiting(j, Place::W6), v) if v == side => next_arm(n, j),
            (ThreeBits::Waiting(j, Place::W6), _) => ThreeBits::Waiting(j, Place::W4),
            (ThreeBits::Inside, _) => ThreeBits::Inside,
            (ThreeBits::Leaving(Exit::X1), _) => ThreeBits::Leaving(Exit::X2),
            (ThreeBits::Leaving(Exit::X2), _) => ThreeBits::Idle,
        };
    }

    fn needed() -> u64 {
        1
    }

    fn room(n: u8) -> usize {
        3 * usize::from(n) + 1
    }

    fn first(_: usize) -> u64 {
        0
    }

    fn rounds(n: u8) -> usize {
        8 * usize::from(n) + 20
    }

    ghost phased = { phased_by plan };

    ghost bits = { bits_by plan };

    ghost rules = { rules_by plan };

    ghost way = { way_by plan };

    ghost accesses = { accesses_by plan };

    ghost reads = { reads_by plan };

    ghost indexes = { indexes_by plan };

    ghost some_room = { plan.some_room };

    ghost told_apart = { λ p q. Prim.search rules };
}
