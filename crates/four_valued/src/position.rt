/// The three places of the doorway.
#[derive(Clone, Copy, Debug, PartialEq, Eq)]
pub enum Doorway {
    /// Writes 2 to the own state.
    Choose,
    /// Reads the group: the value is the side.
    Read,
    /// Writes the side to the own state.
    Tell,
}

/// The five places of a waiting arm.
#[derive(Clone, Copy, Debug, PartialEq, Eq)]
pub enum Place {
    /// Reads the group.
    Group,
    /// Reads the state of the arm that it looks at, again and again while that one chooses.
    Choosing,
    /// Reads that state again, once.
    Side,
    /// Reads that state again; an arm that must wait goes on to `GroupAgain`.
    SideAgain,
    /// Reads the group again; an arm that must wait goes back to `SideAgain`.
    GroupAgain,
}

/// The two places of the exit.
#[derive(Clone, Copy, Debug, PartialEq, Eq)]
pub enum Exit {
    /// Writes 1 - side to the group.
    Turn,
    /// Writes 3 to the own state.
    Rest,
}

/// The position of an arm at the four-valued door. A waiting arm's has the index of the arm that it looks at, from 1, and its place.
#[derive(Clone, Copy, Debug, PartialEq, Eq)]
pub enum FourValued {
    Idle,
    Doorway(Doorway),
    Waiting(u8, Place),
    Inside,
    Leaving(Exit),
}
