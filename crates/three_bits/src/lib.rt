//! The three-bit door: three registers of one bit for each arm. Its positions are here, its table is in specs/, its plan in proofs/.
//! The code of the table stands beside the interface of a door, in the crate `doors`.
#![tactic(auto)]

// The positions of an arm.
pub mod position;

pub use position::ThreeBits;
