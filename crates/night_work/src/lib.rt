//! The nightly work of a backup server over any `Port`: what a timer calls each night, or each minute of a schedule. It knows
//! events and their answers alone, and no store. The main clause is that of [`night`], `Works` of specs/Ends: the clock is read
//! once, and the calls follow the script of the night, `night_script` of specs/Script: the hosts are asked for, each is expired
//! in order of adding, each of the night's buckets is cleaned, rising, and the pool is swept; it ends at the first refusal.
//!
//! | Function | Gives |
//! |---|---|
//! | `night` | `Works`: how it ended, by the calls; the counts of `Done` are the sums of the answers |
//! | `NightEnd::text` | `text_of`: `night 19675: expired 2, marked 1, unmarked 0, removed 0`, or `not now`, each with a line feed |
//!
//! ```text
//! let end = night(alloc, &mut port, &mut clock, &zone, &wake, period, scheduled);
//! if let Some(text) = end.text() {
//!     write_all(&mut link, text.as_slice())?;
//! }
//! ```
//!
//! The counts are `u128`, which the sums can't exceed: a port can't name more than 2^64 hosts, and an answer counts less than
//! 2^64. What memory the night takes itself is taken before the first expiry.
#![tactic(auto)]

mod ends;
mod events;
mod texts;
mod work;

pub use ends::{Night, NightEnd};
pub use work::night;
