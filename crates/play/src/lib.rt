//! Plays a schedule file on a gate and reports what came of it.
#![tactic(auto)]

// The lines of a report.
mod lines;
// The text of a report, and of a fault.
mod page;
// Playing a file.
mod player;
// The service byte, held at 1 during a play.
pub mod service;

pub use page::{REPORT_ROOM, fault_line, report};
pub use player::{Played, play};
