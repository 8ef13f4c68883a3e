/// The five places of the doorway.
#[derive(Clone, Copy, Debug, PartialEq, Eq)]
pub enum Doorway {
    D1,
    D2,
    D3,
    D4,
    D5,
}

/// The six places of a waiting arm.
#[derive(Clone, Copy, Debug, PartialEq, Eq)]
pub enum Place {
    W1,
    W2,
    W3,
    W4,
    W5,
    W6,
}

/// The two places of the exit.
#[derive(Clone, Copy, Debug, PartialEq, Eq)]
pub enum Exit {
    X1,
    X2,
}

/// The position of an arm at the three-bit door. A waiting arm's has the index of the arm that it looks at, from 1, and its place.
#[derive(Clone, Copy, Debug, PartialEq, Eq)]
pub enum ThreeBits {
    Idle,
    Doorway(Doorway),
    Waiting(u8, Place),
    Inside,
    Leaving(Exit),
}
