//! A plan of which calls fail.
ghost use Rattle.std.specs.Prelude.{◌≡◌, ◌≤◌, true, false, OnOk, OnErr};
ghost use Rattle.udp_io.specs.FaultPlan.{no_plan, fails_next, with_failing, after_call};

use crate::NoMemory;
use std::alloc::Global;
use std::marker::Model;

/// Which calls of a store or a sink in memory are to fail. It counts them from 0.
#[derive(Drop)]
pub struct FaultPlan {
    call: u64,
    failing: Vec<u64>,
    faults: u64,
}

impl Model for FaultPlan {
    ghost use Rattle.udp_io.specs.FaultPlan.{Plan};

    ghost Value = { Plan };

    ghost view = { λ p. record { call = p.call; failing = p.failing.items; faults = p.faults } };
}

impl FaultPlan {
    /// A plan by which no call fails.
    pub fn new(alloc: Global) -> Self
        ensures { result ≡ no_plan }
    {
        FaultPlan {
            call: 0,
            failing: Vec::new(alloc),
            faults: 0,
        }
    }

    /// Lets the call of this number fail too. Calls are numbered from 0.
    pub fn fail_at(&mut self, call: u64) -> Result<(), NoMemory>
        ensures ok { OnOk result (self.new ≡ with_failing self.old call) }
        ensures err { OnErr result (self.new ≡ self.old) }
    {
        self.failing.push(call)?;
        Ok(())
    }

    /// Whether the next call is to fail.
    pub fn fails_next(&self) -> bool
        ensures { result ≡ fails_next self.now }
    {
        self.failing.contains(&self.call)
    }

    /// Counts a call that failed.
    pub fn count_failed(&mut self)
        ensures counted { self.new ≡ after_call self.old true }
        ensures later { self.old.faults ≤ self.new.faults }
    {
        self.call = self.call.saturating_add(1);
        self.faults = self.faults.saturating_add(1);
    }

    /// Counts a call that did not fail.
    pub fn count_passed(&mut self)
        ensures { self.new ≡ after_call self.old false }
    {
        self.call = self.call.saturating_add(1);
    }
}
