//! Counts of faults, and plans of which calls fail.

ghost use Rattle.std.specs.Prelude.{◌≡◌, ◌+◌, ℕ};
ghost use Rattle.doll_base.specs.Faults.{Plan, fresh_plan, is_due, after_call};

use http_server::Log;
use std::marker::Model;

/// How often something outside has failed. Contracts read it as a number without a limit. It is only ever
/// reasoned about, so it takes no memory.
#[derive(Drop)]
pub struct FaultCount {
    log: Log<(), ()>,
}

impl Model for FaultCount {
    ghost use Rattle.std.specs.Prelude.{ℕ, length};

    ghost Value = { ℕ };

    ghost view = { λ c. length c.log.items };
}

impl FaultCount {
    /// No fault yet.
    pub fn new() -> FaultCount
        ensures { result ≡ 0 }
    {
        FaultCount { log: Log::new() }
    }

    /// Counts one fault more.
    pub fn add(&mut self)
        ensures { self.new ≡ self.old + 1 }
    {
        self.log = self.log.and(&(), &());
    }
}

/// Which calls of something in memory fail, by their numbers from 0. The number 2^64 - 1 is given again once it
/// was reached.
#[derive(Drop)]
pub struct FaultPlan {
    failing: Vec<u64>,
    fuse: Option<u64>,
    calls: u64,
    faults: FaultCount,
}

impl Model for FaultPlan {
    ghost use Rattle.doll_base.specs.Faults.{Plan};

    ghost Value = { Plan };

    ghost view = { λ p. record { failing = p.failing.items; fuse = p.fuse; calls = p.calls; faults = p.faults } };
}

impl FaultPlan {
    /// No call was made yet. Those with these numbers will fail, and all from the number `fuse` on.
    pub fn new(failing: Vec<u64>, fuse: Option<u64>) -> FaultPlan
        ensures { result ≡ fresh_plan failing.items fuse }
    {
        FaultPlan {
            failing,
            fuse,
            calls: 0,
            faults: FaultCount::new(),
        }
    }

    /// Counts a call, and says whether it fails.
    pub fn fails(&mut self) -> bool
        ensures due { result ≡ is_due self.old }
        ensures next { self.new ≡ after_call self.old }
    {
        let blown = match self.fuse {
            Some(fuse) => fuse <= self.calls,
            None => false,
        };
        let due = self.failing.contains(&self.calls) || blown;
        self.calls = self.calls.saturating_add(1);
        if due {
            self.faults.add();
        }
        due
    }

    /// Counts a fault that was not planned.
    pub fn add_fault(&mut self)
        ensures { self.new ≡ record self.old { faults = self.old.faults + 1 } }
    {
        self.faults.add();
    }
}
