//! The settings file of a backup server, in TOML: its time zone, `WakeupSchedule`, `BackupPCNightlyPeriod`, and the rules of
//! the hosts that are added, all with the names of BackupPC 4's documentation. It knows bytes and settings, and no file. The
//! main clause of [`read_settings`]: settings are those that the document names, with the defaults for what it doesn't
//! (`IsSettings` of specs/), and a refusal names the first key of a wrong value (`IsRefusal`).
//!
//! ```text
//! let settings = read_settings(alloc, b"Zone = \"+01:00\"\n[Rules]\nFillCycle = 7\n")?;
//! ```
#![tactic(auto)]

mod document;
mod fault;
mod key;
mod read;
mod rules;
mod schedule;
mod unknown;
mod values;

pub use fault::SettingsFault;
pub use key::{Key, RuleKey, rule_keys};
pub use read::{Settings, read_settings};
