//! When a backup server wakes, which dump of a host is due then, and which hosts it leaves alone: `WakeupSchedule`,
//! `FullPeriod`, `IncrPeriod` and `BlackoutPeriods` of BackupPC 4's documentation. It knows the rules and the lines of a
//! host, and the clock of a time zone; it has no clock of its own and no store.
//!
//! Each answer is a function of what is asked: [`Zone::local`] is the day, minute and weekday that the zone's clock shows
//! (`local_at`, by the offset that the zone has at that moment), [`due`] is `due_of`, [`blackout`] is `blackout_of`,
//! [`nightly_buckets`] is `nightly_of` and [`wake`] is `wakeup_of` of specs/. Nothing takes memory.
//!
//! ```text
//! let local = Zone::read("CET-1CEST,M3.5.0,M10.5.0/3")?.local(now);
//! if wake(&schedule, local.minute) != Wakeup::Nothing && !blackout(&rules, good, &local) {
//!     let kind = due(&lines, &rules, now);
//! }
//! ```
#![tactic(auto)]

mod contact;
mod fixed;
mod nights;
mod zone;

pub use contact::{blackout, due};
pub use nights::{BUCKETS, Wakeup, nightly_buckets, wake};
pub use zone::{BadZone, Local, Zone};
