// How a caller waits for its turn without keeping a processor busy.
use std::sync::Wait;
use std::thread::{Parker, yield_now};
use std::time::Duration;

/// How often a caller that waits lets others run before it sleeps.
const YIELDS: u32 = 32;

/// For how many microseconds it sleeps first.
const FIRST_SLEEP: u64 = 16;

/// For how many it sleeps at most.
const LONGEST_SLEEP: u64 = 1_000;

/// Waits a little, after this number of looks that were in vain: others run first, then it sleeps, each time for twice as long, up to a
/// millisecond.
pub(crate) fn wait_a_little<R: Wait>(rt: &R, looks: u32) {
    if looks < YIELDS {
        yield_now();
        return;
    }
    let doublings = (looks - YIELDS).min(8);
    let sleep = (FIRST_SLEEP << doublings).min(LONGEST_SLEEP);
    Parker::new().park_timeout(rt, Duration::from_micros(sleep));
}
