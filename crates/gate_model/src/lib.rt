//! The model of a gate over any door: the phases and records of its arms, the one access of a step, the calls, and why they are refused.
//! The state of a whole gate over any door's table, the rules that a door shows, and the law are in specs/.
#![tactic(auto)]

// The phases of an arm.
pub mod phase;
// The one access of a step, made on any bank.
pub mod access;
// What a gate keeps of each arm.
pub mod arm;
// Why a gate refuses a call.
pub mod refusal;
// The calls that a list of calls can have.
pub mod call;

pub use call::Call;
pub use phase::Phase;
pub use refusal::Refusal;
