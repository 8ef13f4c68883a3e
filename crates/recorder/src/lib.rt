//! A recorder: it owns a gate, makes its calls, and writes each accepted begin, step and leave to a schedule file in memory of the host.
#![tactic(auto)]

// A file that was started, and waits for its gate.
mod started;
// Starting a file, and handing the gate over.
mod starting;
// The recorder, and what it lends and hands back.
mod recorder;
// Begin, step, admit and leave.
mod calls;
// Why a recorder refuses.
mod refusal;

pub use recorder::{HandedBack, Recorder};
pub use refusal::Refusal;
pub use started::Started;
pub use starting::start;
