//! The time zone, the schedule and the nights of the settings file.

ghost use Rattle.std.specs.Prelude.{◌≡◌, Some, None, IfOk, IfErr, IfSome, OnOk};
ghost use Rattle.std.specs.Option.{option_copied};
ghost use Rattle.toml.specs.View.{table_view};
ghost use Rattle.wake_schedule.specs.Zones.{IsZone};
ghost use Rattle.settings_file.specs.declared.key.Key.TheVariants.{Zone as ZoneKey, WakeupSchedule, BackupPCNightlyPeriod};
ghost use Rattle.settings_file.specs.Document.{value_at, zone_text, schedule_in, nights_in, default_schedule, wrong_zone, wrong_schedule, wrong_nights, IsFaultOf};

use crate::document::value_at;
use crate::fault::{SettingsFault, ValueFault};
use crate::key::Key;
use crate::values::{nightly_in, wake_in};
use std::alloc::{AllocError, Global};
use toml::Table;
use wake_schedule::Zone;

/// The minutes of `WakeupSchedule` if nothing is said: each hour but midnight.
const DEFAULT_SCHEDULE: [u16; 23] = [
    60, 120, 180, 240, 300, 360, 420, 480, 540, 600, 660, 720, 780, 840, 900, 960, 1_020, 1_080,
    1_140, 1_200, 1_260, 1_320, 1_380,
];

/// The text of the time zone, which is UTC if there is none.
fn zone_text(table: &Table) -> Option<&str>
    ensures { option_copied result ≡ zone_text (value_at ZoneKey (table_view table.now)) }
{
    match value_at(table, Key::Zone.name()) {
        Some(value) => value.as_str(),
        None => Some("UTC"),
    }
}

/// The time zone.
pub fn zone_in(table: &Table) -> Result<Zone, SettingsFault>
    ensures ok { OnOk result (wrong_zone (table_view table.now) ≡ None) }
    ensures zone { IfOk result (λ zone. IfSome (zone_text (value_at ZoneKey (table_view table.now))) (λ text. IsZone text zone)) }
    ensures err { IfErr result (IsFaultOf (wrong_zone (table_view table.now))) }
{
    let Some(text) = zone_text(table) else {
        return Err(SettingsFault::BadKey(Key::Zone));
    };
    match Zone::read(text) {
        Ok(zone) => Ok(zone),
        Err(_) => Err(SettingsFault::BadKey(Key::Zone)),
    }
}

/// The schedule if nothing is said, or want of memory.
fn default_schedule(alloc: Global) -> Result<Vec<u16>, AllocError>
    ensures { IfOk result (λ minutes. minutes.items ≡ default_schedule) }
{
    Vec::from_slice(alloc, &DEFAULT_SCHEDULE)
}

/// The schedule.
pub fn schedule_in(alloc: Global, table: &Table) -> Result<Vec<u16>, SettingsFault>
    ensures ok { IfOk result (λ minutes. schedule_in (value_at WakeupSchedule (table_view table.now)) ≡ Some minutes.items) }
    ensures err { IfErr result (IsFaultOf (wrong_schedule (table_view table.now))) }
{
    let Some(value) = value_at(table, Key::WakeupSchedule.name()) else {
        return Ok(default_schedule(alloc)?);
    };
    match wake_in(alloc, value) {
        Ok(minutes) => Ok(minutes),
        Err(ValueFault::Wrong) => Err(SettingsFault::BadKey(Key::WakeupSchedule)),
        Err(ValueFault::Memory) => Err(SettingsFault::Memory),
    }
}

/// The nights in which all buckets are cleaned.
pub fn nights_in(table: &Table) -> Result<u32, SettingsFault>
    ensures ok { IfOk result (λ nights. nights_in (value_at BackupPCNightlyPeriod (table_view table.now)) ≡ Some nights) }
    ensures err { IfErr result (IsFaultOf (wrong_nights (table_view table.now))) }
{
    let Some(value) = value_at(table, Key::BackupPCNightlyPeriod.name()) else {
        return Ok(1);
    };
    match nightly_in(value) {
        Some(nights) => Ok(nights),
        None => Err(SettingsFault::BadKey(Key::BackupPCNightlyPeriod)),
    }
}
