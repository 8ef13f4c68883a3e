use std::marker::Model;

/// A file that was started: its arm count is written. It waits for the gate.
#[derive(Drop)]
pub struct Started {
    pub(crate) arms: usize,
    pub(crate) written: usize,
}

// Clauses see it as the arm count, which is all that is written.
impl Model for Started {
    ghost use Rattle.std.specs.Prelude.{◌≡◌, ℕ, length};
    ghost use Rattle.schedule.specs.Numbers.{groups};

    ghost Value = { ℕ };

    ghost view = { λ s. s.arms };

    ghost invariant = { λ s. s.written ≡ length (groups s.arms) };
}
