ghost use Rattle.std.specs.Prelude.{◌≡◌, ◌≤◌};
ghost use Rattle.gate_model.specs.Limits.{arm_limit};
ghost use Rattle.gate_model.specs.Calls.{some_side, free_for, way_answer};
ghost use Rattle.gate_model.specs.Law.{IsReached, Law, Tells};

use crate::gate::Gate;
use bank::Bank;
use doors::Door;
use gate_model::Refusal;
use gate_model::arm::{ARM_LIMIT, Arm};

// Whether one of the first n arms has side t, in its doorway or past it.
fn some_side<D: Door>(arms: &[Arm<D>; ARM_LIMIT], n: usize, t: u64) -> bool
    requires { n ≤ arm_limit }
    ensures { result ≡ some_side t arms.now n }
{
    arms[..n].iter().any(|arm| arm.has_side(t))
}

impl<B: Bank, D: Door> Gate<B, D> {
    // Whether the bit differs from this side, or no arm has the other side.
    fn is_free(&self, side: u64) -> bool
        ensures { result ≡ free_for self.now side }
    {
        let other = 1u64.saturating_sub(side);
        self.bit() != side || !some_side(&self.arms, self.n, other)
    }

    /// Whether a waiting arm has right of way. Refuses with 1 or 6. The contract also says that the gate is fair, whatever was called on it.
    pub fn way(&self, arm: usize) -> Result<bool, Refusal>
        ensures answer { result ≡ way_answer D.table self.now arm }
        ensures told { Tells D.table self.now arm result }
        ensures law { Law D.table self.now }
        ensures reached { IsReached D.table self.now }
    {
        let record = self.waits(arm)?;
        Ok(self.is_free(record.side_value()))
    }
}
