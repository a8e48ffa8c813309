//! What the disk says on standard error at once.

use std::alloc::Global;
use std::time::{Clock, Duration};

/// For how many seconds the same cause isn't told again.
const SILENCE: u64 = 60;

/// The system's number of a cause, and when it was told, by the system's own time.
#[derive(Drop)]
struct Telling {
    cause: Option<i32>,
    at: Duration,
}

/// The causes that were told, each with when it was last.
#[derive(Drop)]
pub struct Told {
    tellings: Vec<Telling>,
}

impl Told {
    pub fn new(alloc: Global) -> Told {
        Told {
            tellings: Vec::new(alloc),
        }
    }

    /// Whether a cause is to be told now, and then it counts as told. It isn't within a minute of the last time.
    pub fn is_due<C: Clock>(&mut self, clock: &C, cause: Option<i32>) -> bool {
        let now = clock.monotonic().unwrap_or(Duration::ZERO);
        for telling in &mut self.tellings {
            if telling.cause == cause {
                let is_due = now.saturating_sub(telling.at) >= Duration::from_secs(SILENCE);
                if is_due {
                    telling.at = now;
                }
                return is_due;
            }
        }
        let _ = self.tellings.push(Telling { cause, at: now });
        true
    }
}
