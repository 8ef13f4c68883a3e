ghost use Rattle.std.specs.Prelude.{◌≡◌};
ghost use Rattle.schedule.specs.declared.fault.ScheduleFault.TheVariants as S;
ghost use Rattle.schedule.specs.declared.fault.PlayFault.TheVariants as P;
ghost use Rattle.schedule.specs.Faults.{fault_number, fault_place, fault_order, fault_layer};

use std::error::Error;
use std::fmt;

/// What is wrong with a number. The place is that of its first byte, the file's first being 0.
#[derive(Clone, Copy, Debug, PartialEq, Eq)]
pub enum NumberFault {
    /// The file ends before the number does.
    Cut { place: usize },
    /// The second group is 0.
    Padded { place: usize },
    /// The second group says that more follow.
    Large { place: usize },
}

/// What is wrong with a schedule. The order is the count of the faulty number, the arm count being 0.
#[derive(Clone, Copy, Debug, PartialEq, Eq)]
pub enum ScheduleFault {
    /// A number is faulty.
    Number { fault: NumberFault, order: usize },
    /// The arm count is 0 or above [`ARM_LIMIT`](crate::ARM_LIMIT).
    ArmCount,
    /// An order's number has kind 3.
    UnknownOrder { place: usize, order: usize },
}

/// Why a file is not read or played.
#[derive(Clone, Copy, Debug, PartialEq, Eq)]
pub enum PlayFault {
    /// The file has more than 60,000 bytes.
    LongFile,
    /// The memory for a report or a fault line has fewer than 4,096 bytes.
    ShortMemory,
    /// The file is faulty.
    Schedule(ScheduleFault),
    /// The reader's memory has room for fewer orders than the file has.
    Full,
}

/// The layer that a fault arises in.
#[derive(Clone, Copy, Debug, PartialEq, Eq)]
pub enum Layer {
    Number,
    Schedule,
    Play,
}

// A number fault and the faulty number's count in the file, of which a schedule fault is made.
#[derive(Clone, Copy, Debug, PartialEq, Eq)]
pub struct Counted {
    pub fault: NumberFault,
    pub order: usize,
}

impl From<Counted> for ScheduleFault {
    ghost from_gives = { λ c r. r ≡ S.Number c.fault c.order };

    fn from(counted: Counted) -> ScheduleFault {
        ScheduleFault::Number {
            fault: counted.fault,
            order: counted.order,
        }
    }
}

impl From<ScheduleFault> for PlayFault {
    ghost from_gives = { λ s r. r ≡ P.Schedule s };

    fn from(fault: ScheduleFault) -> PlayFault {
        PlayFault::Schedule(fault)
    }
}

impl PlayFault {
    /// The number that a fault is known by, 9 to 16.
    pub fn number(self) -> u8
        ensures { result ≡ fault_number self }
    {
        match self {
            PlayFault::LongFile => 9,
            PlayFault::ShortMemory => 10,
            PlayFault::Schedule(ScheduleFault::Number { fault, .. }) => match fault {
                NumberFault::Cut { .. } => 11,
                NumberFault::Padded { .. } => 12,
                NumberFault::Large { .. } => 13,
            },
            PlayFault::Schedule(ScheduleFault::ArmCount) => 14,
            PlayFault::Schedule(ScheduleFault::UnknownOrder { .. }) => 15,
            PlayFault::Full => 16,
        }
    }

    /// The place of the faulty number's first byte, from 0; 0 too where no number is faulty.
    pub fn place(self) -> usize
        ensures { result ≡ fault_place self }
    {
        match self {
            PlayFault::Schedule(ScheduleFault::Number { fault, .. }) => match fault {
                NumberFault::Cut { place }
                | NumberFault::Padded { place }
                | NumberFault::Large { place } => place,
            },
            PlayFault::Schedule(ScheduleFault::UnknownOrder { place, .. }) => place,
            _ => 0,
        }
    }

    /// The count of the faulty number, the arm count being 0; 0 too where no number is faulty.
    pub fn order(self) -> usize
        ensures { result ≡ fault_order self }
    {
        match self {
            PlayFault::Schedule(
                ScheduleFault::Number { order, .. } | ScheduleFault::UnknownOrder { order, .. },
            ) => order,
            _ => 0,
        }
    }

    /// The layer that the fault arises in.
    pub fn layer(self) -> Layer
        ensures { result ≡ fault_layer self }
    {
        match self {
            PlayFault::Schedule(ScheduleFault::Number { .. }) => Layer::Number,
            PlayFault::Schedule(_) => Layer::Schedule,
            _ => Layer::Play,
        }
    }
}

impl fmt::Display for NumberFault {
    ghost use Rattle.std.specs.Prelude.{Some};
    ghost use Rattle.schedule.specs.Faults.{number_fault_word};

    ghost output = { λ n. Some (number_fault_word n) };

    fn fmt<W: fmt::Write>(&self, f: &mut fmt::Formatter<W>) -> fmt::Result {
        f.write_str(match self {
            NumberFault::Cut { .. } => "cut",
            NumberFault::Padded { .. } => "padded",
            NumberFault::Large { .. } => "large",
        })
    }
}

impl Error for NumberFault {}

impl fmt::Display for ScheduleFault {
    ghost use Rattle.std.specs.Prelude.{Some};
    ghost use Rattle.schedule.specs.Faults.{schedule_fault_word};

    ghost output = { λ s. Some (schedule_fault_word s) };

    fn fmt<W: fmt::Write>(&self, f: &mut fmt::Formatter<W>) -> fmt::Result {
        match self {
            ScheduleFault::Number { fault: carried, .. } => carried.fmt(f),
            ScheduleFault::ArmCount => f.write_str("arm count"),
            ScheduleFault::UnknownOrder { .. } => f.write_str("unknown order"),
        }
    }
}

impl Error for ScheduleFault {}

impl fmt::Display for PlayFault {
    ghost use Rattle.std.specs.Prelude.{Some};
    ghost use Rattle.schedule.specs.Faults.{fault_word};

    ghost output = { λ p. Some (fault_word p) };

    fn fmt<W: fmt::Write>(&self, f: &mut fmt::Formatter<W>) -> fmt::Result {
        match self {
            PlayFault::LongFile => f.write_str("long file"),
            PlayFault::ShortMemory => f.write_str("short memory"),
            PlayFault::Schedule(carried) => carried.fmt(f),
            PlayFault::Full => f.write_str("full"),
        }
    }
}

impl Error for PlayFault {}
