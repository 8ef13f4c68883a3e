//! The fair gate: arms step towards a shared section, one register access at a time.
#![tactic(auto)]

// The gate, and what its calls answer.
mod gate;
// A pass for an arm inside.
mod pass;
// Making a gate, and ending it.
mod making;
// Which calls are refused.
mod refusals;
// Begin and step.
mod moving;
// Admit, confirm, leave and let_go.
mod passes;
// The calls that tell of the gate and alter nothing: arm_count, bit, phase, look, tally, most_passed.
mod watching;
// Right of way.
mod way;
// How often each arm went inside while another waited.
mod rows;
// A gate that carries out a list of calls.
mod carrying;
// Whether two gates are the same; two that are stay the same.
mod comparing;

pub use carrying::carry_out;
pub use comparing::same;
pub use gate::{Gate, Tally, View};
pub use pass::{HandedBack, Pass};
