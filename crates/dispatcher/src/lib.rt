//! A dispatcher: it owns a gate and makes one move a call. A move begins the arm that is asked for next, and serves one arm.
#![tactic(auto)]

// The dispatcher: making it, its gate, and ending it.
mod dispatcher;
// A move.
mod moves;
// What an arm measured.
mod reading;

pub use dispatcher::Dispatcher;
pub use reading::Reading;
