ghost use Rattle.std.specs.Prelude.{◌≡◌};
ghost use Rattle.accesses.specs.Costs.{spent, no_calls, with_call, with_answer};

use crate::counting_bank::Count;
use std::fmt;

// What calls of one kind cost together, in register accesses, and the least and the most that one of them made.
#[derive(Clone, Copy)]
pub struct Cost {
    calls: u64,
    reads: u64,
    writes: u64,
    least: u64,
    most: u64,
}

// What the accepted calls of one kind cost, and what the refused ones cost.
#[derive(Clone, Copy)]
pub struct Costs {
    accepted: Cost,
    refused: Cost,
}

impl Count {
    // What was counted since an earlier count.
    pub fn since(self, earlier: Count) -> Count
        ensures { result ≡ spent earlier self }
    {
        Count {
            reads: self.reads.saturating_sub(earlier.reads),
            writes: self.writes.saturating_sub(earlier.writes),
        }
    }
}

impl Cost {
    pub fn none() -> Cost
        ensures { result ≡ no_calls }
    {
        Cost {
            calls: 0,
            reads: 0,
            writes: 0,
            least: u64::MAX,
            most: 0,
        }
    }

    // Adds one call, which made so many accesses.
    pub fn add(&mut self, count: Count)
        ensures { self.new ≡ with_call count self.old }
    {
        let all = count.reads.saturating_add(count.writes);
        *self = Cost {
            calls: self.calls.saturating_add(1),
            reads: self.reads.saturating_add(count.reads),
            writes: self.writes.saturating_add(count.writes),
            least: self.least.min(all),
            most: self.most.max(all),
        };
    }
}

impl Costs {
    pub fn none() -> Costs
        ensures { result ≡ record { accepted = no_calls; refused = no_calls } }
    {
        Costs {
            accepted: Cost::none(),
            refused: Cost::none(),
        }
    }

    // Adds one call, which was accepted or refused.
    pub fn add(&mut self, accepted: bool, count: Count)
        ensures { self.new ≡ with_answer accepted count self.old }
    {
        if accepted {
            self.accepted.add(count);
        } else {
            self.refused.add(count);
        }
    }
}

impl fmt::Display for Cost {
    fn fmt<W: fmt::Write>(&self, f: &mut fmt::Formatter<W>) -> fmt::Result {
        let Cost {
            calls,
            reads,
            writes,
            least,
            most,
        } = *self;
        write!(f, "{calls}")?;
        if calls > 0 {
            write!(f, " reads {reads} writes {writes} each {least} to {most}")?;
        }
        Ok(())
    }
}

impl fmt::Display for Costs {
    fn fmt<W: fmt::Write>(&self, f: &mut fmt::Formatter<W>) -> fmt::Result {
        let Costs { accepted, refused } = *self;
        write!(f, "accepted {accepted}; refused {refused}")
    }
}
