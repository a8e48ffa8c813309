ghost use Rattle.std.specs.Prelude.{◌≡◌, ◌≢◌, true, false};

use std::sync::atomic::{AtomicBool, Ordering};
use stream_traits::Gate;

/// A gate that raises a flag at one request, and at one waits until another flag is raised. The flags are shared with other
/// threads, so nothing is said of when they are raised.
#[derive(Drop)]
pub struct FlagGate<'a> {
    own: &'a AtomicBool,
    raise_at: u64,
    other: &'a AtomicBool,
    wait_at: u64,
    turns: u64,
    passed: bool,
}

impl<'a> FlagGate<'a> {
    /// A gate that raises `own` at the request at the index `raise_at` of a connection, and at `wait_at` looks for `other`, at
    /// most `turns` times. Where they are one index it raises first.
    pub fn new(
        own: &'a AtomicBool,
        raise_at: u64,
        other: &'a AtomicBool,
        wait_at: u64,
        turns: u64,
    ) -> FlagGate<'a>
        ensures passed { result.passed ≡ false }
        ensures wait_at { result.wait_at ≡ wait_at }
    {
        FlagGate {
            own,
            raise_at,
            other,
            wait_at,
            turns,
            passed: false,
        }
    }

    /// Whether it saw the flag that it waited for.
    pub fn passed(&self) -> bool
        ensures { result ≡ self.now.passed }
    {
        self.passed
    }
}

impl<'a> Gate for FlagGate<'a> {
    // It has passed only by a request at which it waits.
    fn hold(&mut self, index: u64)
        ensures elsewhere { index ≢ self.old.wait_at → self.new.passed ≡ self.old.passed }
        ensures stays { self.old.passed ≡ true → self.new.passed ≡ true }
        ensures wait_at { self.new.wait_at ≡ self.old.wait_at }
    {
        if index == self.raise_at {
            self.own.store(true, Ordering::SeqCst);
        }
        if index == self.wait_at && is_raised(self.other, self.turns) {
            self.passed = true;
        }
    }
}

/// Looks for a flag at most so many times, and says whether it was raised.
fn is_raised(flag: &AtomicBool, turns: u64) -> bool {
    for _ in 0..turns {
        if flag.load(Ordering::SeqCst) {
            return true;
        }
    }
    false
}
