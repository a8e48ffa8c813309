ghost use Rattle.std.specs.Prelude.{◌≡◌, ◌≤◌, ℕ};
ghost use Rattle.fault_counts.specs.Counts.{Rose};

use std::marker::Model;

/// How many calls failed. The count stands still at `u64::MAX`.
#[derive(Debug, Drop)]
pub(crate) struct FaultCount {
    value: u64,
}

impl Model for FaultCount {
    ghost Value = { ℕ };

    ghost view = { λ count. count.value };
}

impl FaultCount {
    pub(crate) fn new() -> FaultCount
        ensures { result ≡ 0 }
    {
        FaultCount { value: 0 }
    }

    pub(crate) fn value(&self) -> u64
        ensures { result ≡ self.now }
    {
        self.value
    }

    /// Counts a call that failed.
    pub(crate) fn raise(&mut self)
        ensures later { self.old ≤ self.new }
        ensures rose { Rose self.old self.new }
    {
        self.value = self.value.saturating_add(1);
    }
}
