//! Bounded overtaking: how often an arm goes inside while another one is past its doorway, in a gate over any door that shows the rules;
//! how often the bit turns; and the law of fairness, put together.
#![tactic(auto)]

// The bounds, each as the contract of a call that does nothing.
mod bounds;

pub use bounds::{passing_bound, reading_bound, taking_bound};
