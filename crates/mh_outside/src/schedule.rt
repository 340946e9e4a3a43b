//! Which calls of a fake device fail, and the counts of its calls and faults.
ghost use Rattle.std.specs.Prelude.{◌≡◌, ◌≤◌};
ghost use Rattle.mh_outside.specs.Faults.{count_after_fault};
ghost use Rattle.mh_outside.specs.Schedule.{DeviceCalls, no_calls, fails_next, after_call};

use std::marker::Model;

/// The numbers, from 1, of the calls of a fake device that fail, with the counts of its calls and of its faults. Both
/// counts stop at the greatest `u64`.
#[derive(Drop)]
pub struct FaultSchedule {
    fails: Vec<u64>,
    calls: u64,
    faults: u64,
}

impl Model for FaultSchedule {
    ghost Value = { DeviceCalls };

    ghost view = { λ s. record { listed = s.fails.items; made = s.calls; faults = s.faults } };
}

impl FaultSchedule {
    /// The schedule of a device that was not called yet.
    pub fn new(fails: Vec<u64>) -> Self
        ensures { result ≡ no_calls fails.items }
    {
        FaultSchedule {
            fails,
            calls: 0,
            faults: 0,
        }
    }

    /// Counts a call, and returns whether it fails. A call that fails also counts as a fault.
    pub fn begin_call(&mut self) -> bool
        ensures answer { result ≡ fails_next self.old }
        ensures counted { self.new ≡ after_call result self.old }
        ensures grows { self.old.faults ≤ self.new.faults }
    {
        self.calls = self.calls.saturating_add(1);
        let fails = self.fails.contains(&self.calls);
        if fails {
            self.count_fault();
        }
        fails
    }

    /// Counts one more fault of the last call.
    pub fn count_fault(&mut self)
        ensures counted { self.new ≡ record self.old { faults = count_after_fault self.old.faults } }
        ensures grows { self.old.faults ≤ self.new.faults }
    {
        self.faults = self.faults.saturating_add(1);
    }
}
