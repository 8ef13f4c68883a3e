//! The orders of a schedule, obeyed by a gate one at a time.
#![tactic(auto)]

// One order.
mod obeying;

pub use obeying::obey;
