//! The settings, and how they are read.

ghost use Rattle.std.specs.Prelude.{◌≡◌, IfOk, IfErr};
ghost use Rattle.toml.specs.View.{table_view};
ghost use Rattle.settings_file.specs.Document.{AreSettings, IsSettings, IsFault, IsRefusal};

use crate::document::read_table;
use crate::fault::SettingsFault;
use crate::rules::rules_in;
use crate::schedule::{nights_in, schedule_in, zone_in};
use crate::unknown::has_unknowns;
use backup_rules::Rules;
use std::alloc::Global;
use toml::Table;
use wake_schedule::Zone;

/// The settings of a backup server.
#[derive(Debug, Drop)]
pub struct Settings {
    /// The zone whose clock is meant.
    pub zone: Zone,
    /// The minutes of the day at which the server wakes, the one of the nightly work first.
    pub wake: Vec<u16>,
    /// The number of nights in which each bucket of the pool is cleaned once.
    pub period: u32,
    /// The rules of a host that is added.
    pub rules: Rules,
}

/// The settings of a document.
fn settings_in(alloc: Global, table: &Table) -> Result<Settings, SettingsFault>
    ensures ok { IfOk result (AreSettings (table_view table.now)) }
    ensures err { IfErr result (IsFault (table_view table.now)) }
{
    let zone = zone_in(table)?;
    let wake = schedule_in(alloc, table)?;
    let period = nights_in(table)?;
    let rules = rules_in(alloc, table)?;
    if has_unknowns(table) {
        return Err(SettingsFault::UnknownKey);
    }
    Ok(Settings {
        zone,
        wake,
        period,
        rules,
    })
}

/// Reads the settings of a file. What it doesn't name has its default. A refusal says one thing: that the bytes are no TOML;
/// else the first key of a wrong value, in the order Zone, WakeupSchedule, BackupPCNightlyPeriod, Rules and its keys
/// ([`rule_keys`](crate::rule_keys)); else that there is an unknown key.
pub fn read_settings(alloc: Global, bytes: &[u8]) -> Result<Settings, SettingsFault>
    ensures ok { IfOk result (IsSettings bytes.now) }
    ensures err { IfErr result (IsRefusal bytes.now) }
{
    let table = read_table(alloc, bytes)?;
    settings_in(alloc, &table)
}
