//! A ring over memory that a host hands over: items come out in the order in which they were put in.
#![tactic(auto)]

// The ring.
mod ring;
// Where its items lie in the memory, and what is done with them there.
mod span;
// Why a ring refuses a call.
mod refusal;

pub use refusal::Refusal;
pub use ring::Ring;
