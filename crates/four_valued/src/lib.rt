//! The four-valued door: one register for each arm, which holds its side, 2 while it chooses, and 3 while it is idle.
//! Its positions are here, its table is in specs/, its plan in proofs/. The code of the table stands beside the interface of a door,
//! in the crate `doors`.
#![tactic(auto)]

// The positions of an arm.
pub mod position;

pub use position::FourValued;
