//! The interface of a door, and the code of both doors.
#![tactic(auto)]

// The trait that every door implements.
mod interface;
// Three registers of one bit for each arm.
mod three_bit_door;
// One register of four values for each arm.
mod four_valued_door;

pub use four_valued::FourValued;
pub use interface::Door;
pub use three_bits::ThreeBits;
